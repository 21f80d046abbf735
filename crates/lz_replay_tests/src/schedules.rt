//! Each line that the text of a schedule can and can't have, and schedules as long as the limit and one byte longer.

ghost use Rattle.std.specs.Prelude.{◌≡◌, ◌≤◌, ℕ, Option, None, List, length};

use crate::replays::{INCREMENTS, PLAIN, call, compare};
use lz_base::{Bytes, Memory, Name};
use lz_cli::{Words, run};
use lz_outside::{Calls, Failed, Folder, MemorySink};
use lz_tests::told::{AMPLE, Told};
use std::alloc::Global;
use std::process::Abort;
use std::test::Fail;

/// A line, whether it is a step, and the reason of the row.
const LINES: [(&str, bool, &str); 12] = [
    ("step 0 0", true, "a step"),
    ("", false, "an empty line"),
    ("FAILED", false, "the word alone"),
    ("check ", false, "nothing behind the word"),
    ("check assert line 12", false, "what a report says"),
    (
        "check step 0 0",
        false,
        "what stands behind is not looked at",
    ),
    ("check \t\r\u{0}\u{e9}", false, "whatever bytes they are"),
    ("rounds ", false, "nothing behind the word"),
    ("rounds 3", false, "what a report says"),
    ("rounds  x y", false, "what stands behind is not looked at"),
    ("rounds \t\r\u{0}\u{e9}", false, "whatever bytes they are"),
    ("check rounds FAILED", false, "other words behind"),
];

/// A line without a reading, and the reason of the row.
const OTHERS: [(&str, &str); 56] = [
    ("step", "a word alone"),
    ("step ", "no number"),
    ("step  ", "spaces and no number"),
    ("step 0", "one number"),
    ("step 0 ", "one number and a space"),
    ("step  0", "no thread"),
    ("step 0  0", "two spaces between the numbers"),
    ("step  0 0", "two spaces behind the word"),
    ("step 0 0 ", "a space behind"),
    (" step 0 0", "a space before"),
    ("step 0 0 0", "three numbers"),
    ("step0 0", "no space behind the word"),
    ("step\t0 0", "a tab behind the word"),
    ("step 0\t0", "a tab between the numbers"),
    ("step 0 0\t", "a tab behind"),
    ("step 0 0\r", "a carriage return behind"),
    ("step 0 0\u{0}", "a byte of 0 behind"),
    ("step 0,0", "another mark between the numbers"),
    ("steps 0 0", "a longer word"),
    ("ste 0 0", "a shorter word"),
    ("Step 0 0", "a capital letter"),
    ("STEP 0 0", "capital letters"),
    ("0 0", "no word"),
    ("step 00 0", "a leading zero of the thread"),
    ("step 01 0", "a leading zero before another digit"),
    ("step 0 00", "a leading zero of the choice"),
    ("step 0 01", "a leading zero before another digit"),
    ("step 4294967296 0", "a thread of 2^32"),
    ("step 18446744073709551616 0", "a thread of 2^64"),
    ("step 0 18446744073709551616", "a choice of 2^64"),
    ("step 0 100000000000000000000", "a choice of 21 digits"),
    ("step -1 0", "a negative thread"),
    ("step 0 -1", "a negative choice"),
    ("step -0 0", "a sign before 0"),
    ("step +0 0", "a sign"),
    ("step 0 +0", "a sign of the choice"),
    ("step 0x0 0", "a hexadecimal thread"),
    ("step 0 0x0", "a hexadecimal choice"),
    ("step 0 a", "a letter"),
    ("step a 0", "a letter for the thread"),
    ("step 0 1.", "a point"),
    ("step 0 1_000", "a mark within a number"),
    ("step 0 \u{661}", "a digit of another script"),
    (" ", "a space"),
    ("\t", "a tab"),
    ("\r", "a carriage return"),
    ("\u{0}", "a byte of 0"),
    ("FAILED ", "a space behind the word"),
    (" FAILED", "a space before it"),
    ("FAILED\r", "a carriage return behind it"),
    ("FAILE", "a letter too few"),
    ("failed", "small letters"),
    ("check", "no space behind the word"),
    ("rounds", "no space behind the word"),
    (
        "BROKEN check assert line 12 events 12",
        "what a replay says",
    ),
    ("# a remark", "a remark"),
];

/// A line between a step and what follows it.
fn text_of(alloc: Global, line: &str, behind: &str) -> Result<Bytes, Memory> {
    let mut text = Bytes::new(alloc);
    text.append(b"step 0 0\n")?;
    text.append(line.as_bytes())?;
    text.append(behind.as_bytes())?;
    Ok(text)
}

/// What stands behind the last line, or behind a line.
const BEHIND: [&str; 3] = ["", "\n", "\n\nstep x\n"];

/// Replays a line between a step and each of these texts.
fn replay_line(
    rt: &impl Abort,
    alloc: Global,
    line: &str,
    texts: &[&str],
    report: &[u8],
    status: u8,
    reason: &str,
) -> Result<(), Fail> {
    for behind in texts {
        let text = text_of(alloc, line, behind).ok().ok_or("memory")?;
        let told = call(alloc, &PLAIN, INCREMENTS, text.items(), Calls::new(alloc))
            .ok()
            .ok_or("memory")?;
        compare(rt, &told, report, status, reason);
    }
    Ok(())
}

/// Replays each row's line, which has no reading.
fn replay_others(rt: &impl Abort, alloc: Global, rows: &[(&str, &str)]) -> Result<(), Fail> {
    for (line, reason) in rows {
        replay_line(rt, alloc, line, &BEHIND, b"TEXT line 2\n", 10, reason)?;
    }
    Ok(())
}

/// Replays each row's line, which may be a step.
fn replay_lines(rt: &impl Abort, alloc: Global, rows: &[(&str, bool, &str)]) -> Result<(), Fail> {
    for (line, is_step, reason) in rows {
        let report = if *is_step {
            b"HOLDS events 2\n".as_slice()
        } else {
            b"HOLDS events 1\n".as_slice()
        };
        replay_line(
            rt,
            alloc,
            line,
            &["", "\n", "\n\nFAILED"],
            report,
            0,
            reason,
        )?;
    }
    Ok(())
}

#[test]
fn lines_without_a_reading(rt: HostRuntime) -> Result<(), Fail> {
    replay_others(&rt, rt.alloc(), &OTHERS)
}

#[test]
fn lines_with_a_reading(rt: HostRuntime) -> Result<(), Fail> {
    replay_lines(&rt, rt.alloc(), &LINES)
}

/// A folder of two files that keeps neither: `a.c`, a program that does nothing, and under each other name a file of so
/// many letters. It tells nothing of them, and drops what is written.
#[derive(Drop)]
struct Letters {
    count: u64,
}

const SOURCE: &[u8] = b"int main(void) { }";

/// The bytes of a text behind the first of this number.
fn behind(text: &[u8], place: u64) -> &[u8] {
    if place < text.len() as u64 {
        &text[place as usize..]
    } else {
        &[]
    }
}

/// The first bytes of a text.
fn front(text: &[u8], count: u64) -> &[u8] {
    if count < text.len() as u64 {
        &text[..count as usize]
    } else {
        text
    }
}

/// Copies as many bytes of a text as there is room for, and answers how many.
fn give(text: &[u8], into: &mut [u8]) -> usize
    ensures { result ≤ length into.old }
{
    let room = into.len();
    if text.len() < room {
        into[..text.len()].copy_from_slice(text);
        return text.len();
    }
    into.copy_from_slice(&text[..room]);
    room
}

impl Folder for Letters {
    ghost files = { λ _. None };

    ghost read_faults = { λ _. 0 };

    ghost write_faults = { λ _. 0 };

    fn read_piece(&mut self, name: &str, place: u64, into: &mut [u8]) -> Result<usize, Failed> {
        if name == "a.c" {
            return Ok(give(behind(SOURCE, place), into));
        }
        let letters = [b'x'; 4096];
        Ok(give(front(&letters, self.count.saturating_sub(place)), into))
    }

    fn begin(&mut self, _name: &str) -> Result<(), Failed> {
        Ok(())
    }

    fn append_piece(&mut self, _name: &str, piece: &[u8]) -> Result<usize, Failed> {
        Ok(piece.len())
    }
}

/// Calls the command with these words over a folder of letters.
fn call_letters(alloc: Global, words: &[&str], count: u64) -> Result<Told, Memory> {
    let mut given = Words::new(alloc);
    for word in words {
        given.push(Name::new(alloc, word)?)?;
    }
    let mut folder = Letters { count };
    let mut sink = MemorySink::new(alloc, AMPLE, Calls::new(alloc))?;
    let ended = run(alloc, &given, &mut folder, &mut sink);
    let mut text = Bytes::new(alloc);
    text.append(sink.written())?;
    Ok(Told { text, ended })
}

/// Words, the number of letters, the report, the status, and the reason of the row.
type LetterRow<'a> = (&'a [&'a str], u64, &'a str, u8, &'a str);

/// Calls the command with each row's words over a folder of its letters.
fn letters_agree(rt: &impl Abort, alloc: Global, rows: &[LetterRow<'_>]) -> Result<(), Fail> {
    for (words, count, report, status, reason) in rows {
        let told = call_letters(alloc, words, *count).ok().ok_or("memory")?;
        compare(rt, &told, report.as_bytes(), *status, reason);
    }
    Ok(())
}

#[test]
fn lengths(rt: HostRuntime) -> Result<(), Fail> {
    let recheck = ["--mode", "recheck", "s"];
    let table: [LetterRow<'_>; 4] = [
        (
            &PLAIN,
            268_435_456,
            "TEXT line 1\n",
            10,
            "a schedule as long as the limit",
        ),
        (
            &PLAIN,
            268_435_457,
            "LIMIT schedule over 268435456 bytes\n",
            5,
            "a schedule one byte longer",
        ),
        (
            &recheck,
            268_435_456,
            "TEXT line 1\n",
            10,
            "a proof as long as the limit",
        ),
        (
            &recheck,
            268_435_457,
            "LIMIT proof over 268435456 bytes\n",
            5,
            "a proof one byte longer",
        ),
    ];
    letters_agree(&rt, rt.alloc(), &table)
}
