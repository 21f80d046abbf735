ghost use Rattle.std.specs.Prelude.{◌≡◌, ◌<◌, List, [], ◌∷◌, ◌++◌, IfOk, IsTrue};
ghost use Rattle.lz_tree.specs.ScopedTrees.{scoped_program};
ghost use Rattle.lz_model.specs.declared.schedule.Step as steps;
ghost use Rattle.lz_store.specs.Answers.{IsWithin};
ghost use Rattle.lz_machine.specs.Starts.{IsRunnable};
ghost use Rattle.lz_replay.specs.Taking.{IsWord, IsHeldOf};
ghost use Rattle.lz_replay.specs.Replaying as spec;
ghost use Rattle.lz_replay.specs.Replaying.{AreOf, IsReplay, HasAdvanced, HasTaken, HasActed, HasStepped};
ghost use Rattle.lz_replay.specs.Replays.{Says};

use crate::answer::Replayed;
use crate::threads::{Held, Taken, make, start, take};
use lz_base::{BreakKind, Memory, SLOT_LIMIT};
use lz_model::{Action, Schedule, Step};
use lz_store::{Acted, Store};
use lz_tree::Scoped;
use std::alloc::Global;

/// What one step of a schedule comes to.
#[derive(Clone, Copy, Debug, PartialEq, Eq)]
pub enum Stepped {
    /// A run goes on by it.
    Went,
    /// No run has it.
    Blocked,
    /// A run goes on by it and breaks a check.
    Broke { kind: BreakKind, line: u32 },
}

/// The greatest number of a thread: no program has more slots.
const LAST_THREAD: u32 = SLOT_LIMIT as u32;

/// Whether an action creates no thread past the last that there is room for.
fn is_within(action: &Action) -> bool
    ensures { IsTrue result → IsWithin action.now }
{
    match *action {
        Action::Create { thread, .. } => thread <= LAST_THREAD,
        _ => true,
    }
}

/// The answer where the step of this index breaks a check: no run goes on behind it.
fn broken(kind: BreakKind, line: u32, index: usize, len: usize) -> Replayed
    requires { index < len }
    ensures { result ≡ spec.broken kind line index len }
{
    let events = index as u64 + 1;
    if index + 1 == len {
        Replayed::Broke { kind, line, events }
    } else {
        Replayed::NotARun { index: events }
    }
}

/// Does the action that a thread takes next, and makes the thread that it creates. A program within `SLOT_LIMIT`
/// creates no thread past the last that there is room for; another may come to want of memory.
fn act(
    alloc: Global,
    scoped: &Scoped,
    thread: u32,
    taken: &Taken,
    store: &mut Store,
    threads: &mut Vec<Held>,
) -> Result<Stepped, Memory>
    requires { IsWord taken.now }
    ensures { IfOk result (λ stepped. HasActed (scoped_program scoped.now) thread taken.now store.old threads.old.items stepped store.new threads.new.items) }
{
    if !is_within(&taken.action) {
        return Err(Memory);
    }
    match store.act(thread, &taken.action) {
        Acted::Went => {
            make(alloc, scoped, taken, threads)?;
            Ok(Stepped::Went)
        }
        Acted::Blocked => Ok(Stepped::Blocked),
        Acted::Broke { kind } => Ok(Stepped::Broke {
            kind,
            line: taken.line,
        }),
    }
}

/// The next action of a thread by a choice, if it has one; what it finds is kept for the thread.
fn advance(
    alloc: Global,
    scoped: &Scoped,
    order: &[u32],
    unwind: u32,
    choice: u64,
    store: &Store,
    held: &mut Held,
) -> Result<Option<Taken>, Memory>
    requires program { IsRunnable (scoped_program scoped.now) order.now }
    requires own { IsHeldOf (scoped_program scoped.now) held.old }
    ensures { IfOk result (λ taken. HasAdvanced (scoped_program scoped.now) unwind store.now choice held.old taken held.new) }
{
    let read = held.read;
    let taken = take(
        alloc,
        scoped,
        order,
        unwind,
        choice,
        store,
        &mut held.thread,
        read,
    )?;
    match taken {
        Some(taken) => {
            held.read = taken.read;
            Ok(Some(taken))
        }
        None => Ok(None),
    }
}

/// The next action of the thread of a step, by its choice; a thread that is not made has none.
fn next(
    alloc: Global,
    scoped: &Scoped,
    order: &[u32],
    unwind: u32,
    step: Step,
    store: &Store,
    threads: &mut Vec<Held>,
) -> Result<Option<Taken>, Memory>
    requires program { IsRunnable (scoped_program scoped.now) order.now }
    requires own { AreOf (scoped_program scoped.now) threads.old.items }
    ensures { IfOk result (λ taken. HasTaken (scoped_program scoped.now) unwind store.now step threads.old.items taken threads.new.items) }
{
    let number = step.thread as usize;
    if number >= threads.len() {
        return Ok(None);
    }
    advance(
        alloc,
        scoped,
        order,
        unwind,
        step.choice,
        store,
        &mut threads[number],
    )
}

/// Takes one step of a schedule.
pub fn go(
    alloc: Global,
    scoped: &Scoped,
    order: &[u32],
    unwind: u32,
    step: Step,
    store: &mut Store,
    threads: &mut Vec<Held>,
) -> Result<Stepped, Memory>
    requires program { IsRunnable (scoped_program scoped.now) order.now }
    requires own { AreOf (scoped_program scoped.now) threads.old.items }
    ensures { IfOk result (λ stepped. (steps : List steps.Step) → IsReplay (scoped_program scoped.now) unwind steps store.old threads.old.items → HasStepped (scoped_program scoped.now) unwind (steps ++ step ∷ []) stepped store.new threads.new.items) }
{
    match next(alloc, scoped, order, unwind, step, store, threads)? {
        Some(taken) => {
            let stepped = act(alloc, scoped, step.thread, &taken, store, threads)?;
            Ok(stepped)
        }
        None => Ok(Stepped::Blocked),
    }
}

/// Takes all steps of a schedule, from a replay that took none.
fn through(
    alloc: Global,
    scoped: &Scoped,
    order: &[u32],
    unwind: u32,
    steps: &[Step],
    store: &mut Store,
    threads: &mut Vec<Held>,
) -> Result<Replayed, Memory>
    requires program { IsRunnable (scoped_program scoped.now) order.now }
    requires begins { IsReplay (scoped_program scoped.now) unwind [] store.old threads.old.items }
    ensures { IfOk result (λ replayed. Says (scoped_program scoped.now) unwind steps.now replayed) }
{
    for i in 0..steps.len() {
        let step = steps[i];
        let stepped = go(alloc, scoped, order, unwind, step, store, threads)?;
        match stepped {
            Stepped::Went => {}
            Stepped::Blocked => return Ok(Replayed::NotARun { index: i as u64 }),
            Stepped::Broke { kind, line } => return Ok(broken(kind, line, i, steps.len())),
        }
    }
    Ok(Replayed::Holds {
        events: steps.len() as u64,
    })
}

/// Runs a schedule: whether a run of the program, with at most `unwind` turns of each entered loop, follows it, and
/// whether that run breaks a check. The time of each step is that of the thread's code up to its next action.
pub fn replay(
    alloc: Global,
    scoped: &Scoped,
    order: &[u32],
    unwind: u32,
    schedule: &Schedule,
) -> Result<Replayed, Memory>
    requires { IsRunnable (scoped_program scoped.now) order.now }
    ensures { IfOk result (λ replayed. Says (scoped_program scoped.now) unwind schedule.now replayed) }
{
    let mut store = Store::new(alloc, scoped)?;
    let mut threads = Vec::new(alloc);
    start(alloc, scoped, None, 0, &mut threads)?;
    let replayed = through(
        alloc,
        scoped,
        order,
        unwind,
        schedule.items(),
        &mut store,
        &mut threads,
    )?;
    Ok(replayed)
}
