//! Rounds of schedules, by lz_model.

use lz_base::Memory;
use lz_model::{Schedule, Step, rounds};
use std::alloc::Global;
use std::process::Abort;
use std::test::Fail;

/// The threads of a schedule's steps, its rounds, and the reason of the row.
type Row<'a> = (&'a [u32], u32, &'a str);

/// The schedule of steps of these threads.
fn schedule_of(alloc: Global, threads: &[u32]) -> Result<Schedule, Memory> {
    let mut schedule = Schedule::new(alloc);
    for thread in threads {
        schedule.push(Step {
            thread: *thread,
            choice: 0,
        })?;
    }
    Ok(schedule)
}

/// Compares the rounds of each row's schedule.
fn rounds_agree(rt: &impl Abort, alloc: Global, rows: &[Row<'_>]) -> Result<(), Fail> {
    for (threads, want, reason) in rows {
        let schedule = schedule_of(alloc, threads).ok().ok_or("memory")?;
        assert!(rt; rounds_are(&schedule, *want), "{reason}");
    }
    Ok(())
}

/// Rounds of schedules over three threads, counted by hand.
#[test]
fn descents_begin_rounds(rt: HostRuntime) -> Result<(), Fail> {
    let table: [Row<'_>; 4] = [
        (&[], 1, "a run without a step has a round"),
        (&[0, 0, 0], 1, "one thread goes on in its round"),
        (
            &[0, 0, 1, 2, 2, 2, 1, 1, 0, 0, 0, 0],
            3,
            "each descent begins a round",
        ),
        (&[2, 1, 0, 1, 2], 3, "an ascent begins none"),
    ];
    rounds_agree(&rt, rt.alloc(), &table)
}

fn rounds_are(schedule: &Schedule, want: u32) -> bool {
    schedule.items().len() < 100 && rounds(schedule) == want
}
