ghost use Rattle.std.specs.Prelude.{◌≡◌, IfOk, OnOk};
ghost use Rattle.lz_tree.specs.ScopedTrees.{scoped_program};
ghost use Rattle.lz_model.specs.Actions as told;
ghost use Rattle.lz_machine.specs.Answers.{read_back};
ghost use Rattle.lz_machine.specs.Starts.{IsRunnable, IsThreadOf, word_of, answer_of};
ghost use Rattle.lz_replay.specs.Taking as spec;
ghost use Rattle.lz_replay.specs.Taking.{IsTaken, IsWord, IsWordTaken, IsAdded, HasMade};

use lz_base::{Memory, VALUE_BOUND};
use lz_machine::{Next, ReadBack, Thread};
use lz_model::Action;
use lz_store::Store;
use lz_tree::Scoped;
use std::alloc::Global;

/// What is kept of a thread: where it stands, and what its last read found.
#[derive(Drop)]
pub struct Held {
    pub thread: Thread,
    pub read: ReadBack,
}

/// The next action of a thread by the choice of a step, and what it finds if it is a read.
#[derive(Clone, Copy)]
pub struct Taken {
    pub action: Action,
    pub line: u32,
    pub read: ReadBack,
}

/// The choice of an action.
fn choice_of(action: &Action) -> Option<u64>
    ensures { result ≡ told.choice_of action.now }
{
    match *action {
        Action::Loc => None,
        Action::Input { value } => Some(value),
        Action::Signal {
            woken: Some(thread),
            ..
        } => Some(u64::from(thread) + 1),
        _ => Some(0),
    }
}

/// Whether the action has this choice.
fn has_choice(action: &Action, choice: u64) -> bool
    ensures { result ≡ spec.is_chosen (told.choice_of action.now) choice }
{
    match choice_of(action) {
        Some(other) => other == choice,
        None => false,
    }
}

/// An answered action, where it has the choice.
fn acted(action: Action, line: u32, choice: u64) -> Option<Taken>
    ensures { result ≡ spec.acted action line choice }
{
    if has_choice(&action, choice) {
        Some(Taken {
            action,
            line,
            read: ReadBack::Nothing,
        })
    } else {
        None
    }
}

/// A read of a cell that has this value: its choice is 0, and what it finds is a word.
fn found(cell: u32, line: u32, choice: u64, value: u64) -> Option<Taken>
    ensures { result ≡ spec.found cell line choice value }
{
    if choice == 0 && value < VALUE_BOUND {
        Some(Taken {
            action: Action::Rd { cell, value },
            line,
            read: ReadBack::Value {
                value: value as u32,
            },
        })
    } else {
        None
    }
}

/// What an answer stands for in this state, where it has the choice.
fn taken_of(next: Next, choice: u64, store: &Store) -> Option<Taken>
    ensures { result ≡ spec.taken_of store.now choice (answer_of next) }
{
    match next {
        Next::Read { cell, line } => found(cell, line, choice, store.cell(cell)),
        Next::Act { action, line } => acted(action, line, choice),
        Next::Ended | Next::Cut => None,
    }
}

/// The next action of a thread by a choice, if it has one.
pub fn take(
    alloc: Global,
    scoped: &Scoped,
    order: &[u32],
    unwind: u32,
    choice: u64,
    store: &Store,
    thread: &mut Thread,
    read: ReadBack,
) -> Result<Option<Taken>, Memory>
    requires program { IsRunnable (scoped_program scoped.now) order.now }
    requires own { IsThreadOf (scoped_program scoped.now) thread.old }
    ensures takes { IfOk result (λ taken. IsTaken (scoped_program scoped.now) unwind store.now choice (read_back (word_of read) thread.old) taken thread.new) }
    ensures own { IfOk result (λ taken. IsThreadOf (scoped_program scoped.now) thread.new) }
    ensures words { IfOk result (λ taken. IsWordTaken taken) }
{
    let next = thread.next(alloc, scoped, order, unwind, choice, read)?;
    Ok(taken_of(next, choice, store))
}

/// Adds `main` before its first action, or a routine with its argument.
pub fn start(
    alloc: Global,
    scoped: &Scoped,
    routine: Option<u32>,
    value: u32,
    threads: &mut Vec<Held>,
) -> Result<(), Memory>
    ensures { OnOk result (IsAdded (scoped_program scoped.now) routine value threads.old.items threads.new.items) }
{
    let thread = Thread::start(alloc, scoped, routine, value)?;
    let read = ReadBack::Nothing;
    threads.push(Held { thread, read })?;
    Ok(())
}

/// Makes the thread that a taken action creates, if it creates one.
pub fn make(
    alloc: Global,
    scoped: &Scoped,
    taken: &Taken,
    threads: &mut Vec<Held>,
) -> Result<(), Memory>
    requires { IsWord taken.now }
    ensures { OnOk result (HasMade (scoped_program scoped.now) taken.now.action threads.old.items threads.new.items) }
{
    match taken.action {
        Action::Create {
            start: routine,
            value,
            ..
        } => {
            start(alloc, scoped, Some(routine), value as u32, threads)?;
            Ok(())
        }
        _ => Ok(()),
    }
}
