//! Texts of schedules, by lz_replay.

use lz_model::{Schedule, Step};
use lz_replay::{ScheduleError, print_schedule, read_schedule};
use std::alloc::Global;
use std::process::Abort;
use std::test::Fail;

/// What is read of a text: the steps, or the first line without a reading.
fn reading(alloc: Global, text: &[u8]) -> Option<Result<Schedule, ScheduleError>> {
    if text.len() > 1000 {
        return None;
    }
    Some(read_schedule(alloc, text))
}

/// Reads each row's text, and compares what is printed for what was read.
fn texts_agree(
    rt: &impl Abort,
    alloc: Global,
    rows: &[(&[u8], &[u8], &'static str)],
) -> Result<(), Fail> {
    for (text, want, reason) in rows {
        let read = reading(alloc, text).ok_or("too long")?;
        let schedule = read.ok().ok_or(*reason)?;
        let printed = print_schedule(alloc, &schedule).ok().ok_or("memory")?;
        assert!(rt; printed.items() == *want, "{reason}");
    }
    Ok(())
}

/// Texts with a reading, and the text that is printed for what was read.
#[test]
fn texts_with_a_reading(rt: HostRuntime) -> Result<(), Fail> {
    let table: [(&[u8], &[u8], &str); 6] = [
        (b"", b"", "the empty text is the empty schedule"),
        (
            b"step 0 0",
            b"step 0 0\n",
            "the last line may lack its newline",
        ),
        (
            b"FAILED\ncheck assert line 12\nrounds 3\nstep 0 0\nstep 1 5\n",
            b"step 0 0\nstep 1 5\n",
            "a report of a failure is a schedule",
        ),
        (
            b"\n\nstep 2 0\n\n",
            b"step 2 0\n",
            "empty lines say nothing",
        ),
        (
            b"step 4294967295 18446744073709551615\n",
            b"step 4294967295 18446744073709551615\n",
            "the greatest numbers",
        ),
        (
            b"check \nrounds x y\n",
            b"",
            "what stands behind the word is not looked at",
        ),
    ];
    texts_agree(&rt, rt.alloc(), &table)
}

/// Reads each row's text, and compares the line without a reading.
fn lines_agree(rt: &impl Abort, alloc: Global, rows: &[(&[u8], u32, &str)]) -> Result<(), Fail> {
    for (text, want, reason) in rows {
        let read = reading(alloc, text).ok_or("too long")?;
        let bad = match read {
            Err(ScheduleError::Bad { line }) => line,
            _ => 0,
        };
        assert!(rt; bad == *want, "{reason}");
    }
    Ok(())
}

/// Texts without a reading, and the first line that has none.
#[test]
fn texts_without_a_reading(rt: HostRuntime) -> Result<(), Fail> {
    let table: [(&[u8], u32, &str); 9] = [
        (b"step 0\n", 1, "a step has two numbers"),
        (
            b"step 0 0\n step 0 0\n",
            2,
            "a line begins at its first byte",
        ),
        (b"step 0  0\n", 1, "one space stands between the numbers"),
        (b"step 00 0\n", 1, "no leading zero"),
        (b"step 0 0 \n", 1, "nothing stands behind the choice"),
        (b"step 4294967296 0\n", 1, "a thread is below 2^32"),
        (
            b"step 0 18446744073709551616\n",
            1,
            "a choice is below 2^64",
        ),
        (b"step 0 +1\n", 1, "no sign"),
        (b"\nFAILED \n", 2, "nothing stands behind the word"),
    ];
    lines_agree(&rt, rt.alloc(), &table)
}
