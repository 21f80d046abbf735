//! Runs the program of a file by the bytes of a schedule file.

ghost use Rattle.std.specs.Prelude.{◌≡◌, ◌≤◌, ℕ, List, length, IfOk};
ghost use Rattle.lz_tree.specs.ScopedTrees.{scoped_program};
ghost use Rattle.lz_tree.specs.Calls.{IsCallOrder};
ghost use Rattle.lz_resolve.specs.ScopedPrograms.{scoped_of};
ghost use Rattle.lz_model.specs.ScheduleText.{IsScheduleText};
ghost use Rattle.lz_cli.specs.Limits.{schedule_limit};
ghost use Rattle.lz_cli.specs.Ending.{Call, IsRunBy, IsLawful};
ghost use Rattle.lz_cli.specs.Printable.{IsPrintable};

use crate::ending::Ending;
use lz_base::Memory;
use lz_fits::program_fits;
use lz_model::Schedule;
use lz_replay::{ScheduleError, read_schedule, replay};
use lz_tree::Scoped;
use std::alloc::Global;

/// Reads a schedule and runs a program by it, with an order of its calls.
pub fn follow(
    alloc: Global,
    scoped: &Scoped,
    order: &[u32],
    unwind: u32,
    text: &[u8],
) -> Result<Ending, Memory>
    requires order { IsCallOrder (scoped_program scoped.now).functions order.now }
    requires within { length text.now ≤ schedule_limit }
    ensures lawful { IfOk result (λ ending. (call : Call) (bytes : List ℕ) (by : IsRunBy call unwind bytes text.now)
        → scoped_program scoped.now ≡ scoped_of by.run.admitted.tree → IsLawful call ending) }
    ensures printable { IfOk result IsPrintable }
{
    match read_schedule(alloc, text) {
        Ok(schedule) => follow_steps(alloc, scoped, order, unwind, &schedule),
        Err(ScheduleError::Bad { line }) => Ok(Ending::BadSchedule { line }),
        Err(ScheduleError::Memory) => Err(Memory),
    }
}

/// Runs a program by a schedule. A program whose numbers do not fit, which takes a longer text than any that is read,
/// comes to want of memory.
fn follow_steps(
    alloc: Global,
    scoped: &Scoped,
    order: &[u32],
    unwind: u32,
    schedule: &Schedule,
) -> Result<Ending, Memory>
    requires { IsCallOrder (scoped_program scoped.now).functions order.now }
    ensures lawful { IfOk result (λ ending. (call : Call) (bytes text : List ℕ) (by : IsRunBy call unwind bytes text)
        → IsScheduleText text schedule.now → scoped_program scoped.now ≡ scoped_of by.run.admitted.tree → IsLawful call ending) }
    ensures printable { IfOk result IsPrintable }
{
    if !program_fits(scoped) {
        return Err(Memory);
    }
    let answer = replay(alloc, scoped, order, unwind, schedule)?;
    Ok(Ending::Replay { answer })
}
