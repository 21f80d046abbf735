ghost use Rattle.std.specs.Prelude.{◌≡◌, None, IfOk, [], replicate};
ghost use Rattle.lz_tree.specs.ScopedTrees.{scoped_program};
ghost use Rattle.lz_choices.specs.Choices.{first_choice};
ghost use Rattle.lz_choices.specs.MainAlone.{main_step};
ghost use Rattle.lz_machine.specs.Starts.{IsRunnable};
ghost use Rattle.lz_replay.specs.Replaying.{IsReplay};
ghost use Rattle.lz_replay.specs.Deciding.{Decides};

use crate::replaying::{Stepped, go};
use crate::threads::{Held, start};
use lz_base::{BreakKind, Memory};
use lz_choices::only_main_steps;
use lz_model::{Schedule, Step};
use lz_store::Store;
use lz_tree::Scoped;
use std::alloc::Global;

/// The verdict on a program without a choice.
#[derive(Debug, Drop)]
pub enum Decided {
    /// No run of it breaks a check.
    Holds,
    /// A run that follows this schedule breaks a check of this kind on this line.
    Broken {
        schedule: Schedule,
        kind: BreakKind,
        line: u32,
    },
}

/// The step of `main` where nothing is chosen.
const MAIN_STEP: Step = Step {
    thread: 0,
    choice: 0,
};

/// The schedule of so many steps of `main`.
fn main_steps(alloc: Global, count: u64) -> Result<Schedule, Memory>
    ensures { IfOk result (λ schedule. schedule ≡ replicate count main_step) }
{
    let mut schedule = Schedule::new(alloc);
    for _ in 0..count {
        schedule.push(MAIN_STEP)?;
    }
    Ok(schedule)
}

/// Lets `main` go on alone, from where it took no step, until a check breaks or nothing more goes. The steps are counted
/// and not kept, so that a long run takes no memory; no memory would hold the schedule of a run of 2^64 steps.
fn run_main(
    alloc: Global,
    scoped: &Scoped,
    order: &[u32],
    unwind: u32,
    store: &mut Store,
    threads: &mut Vec<Held>,
) -> Result<Decided, Memory>
    requires program { IsRunnable (scoped_program scoped.now) order.now }
    requires sequential { first_choice (scoped_program scoped.now) ≡ None }
    requires begins { IsReplay (scoped_program scoped.now) unwind [] store.old threads.old.items }
    ensures { IfOk result (Decides (scoped_program scoped.now) unwind) }
{
    only_main_steps();
    for steps in 0..u64::MAX {
        let stepped = go(alloc, scoped, order, unwind, MAIN_STEP, store, threads)?;
        match stepped {
            Stepped::Went => {}
            Stepped::Blocked => return Ok(Decided::Holds),
            Stepped::Broke { kind, line } => {
                let schedule = main_steps(alloc, steps + 1)?;
                return Ok(Decided::Broken {
                    schedule,
                    kind,
                    line,
                });
            }
        }
    }
    Err(Memory)
}

/// Decides a program without a choice, where a loop has at most `unwind` turns an entry: `main` runs alone, until a check
/// breaks or nothing more goes. The time is that of its code up to there.
pub fn decide(alloc: Global, scoped: &Scoped, order: &[u32], unwind: u32) -> Result<Decided, Memory>
    requires program { IsRunnable (scoped_program scoped.now) order.now }
    requires sequential { first_choice (scoped_program scoped.now) ≡ None }
    ensures { IfOk result (Decides (scoped_program scoped.now) unwind) }
{
    let mut store = Store::new(alloc, scoped)?;
    let mut threads = Vec::new(alloc);
    start(alloc, scoped, None, 0, &mut threads)?;
    let decided = run_main(alloc, scoped, order, unwind, &mut store, &mut threads)?;
    Ok(decided)
}
