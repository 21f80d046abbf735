ghost use Rattle.std.specs.Prelude.{◌≡◌, ℕ, IfOk, ◌%◌, true};
ghost use Rattle.lz_base.specs.Words.{value_bound};
ghost use Rattle.lz_stations.specs.Stations as stations;
ghost use Rattle.lz_stations.specs.WalksHeld.{pause_of};
ghost use Rattle.lz_machine.specs.Answers as words;
ghost use Rattle.lz_machine.specs.Turns as spec;
ghost use Rattle.lz_machine.specs.Held.{running_of, turned_of, standing_of};
ghost use Rattle.lz_machine.specs.Starts.{answer_of, word_of, IsWordAnswer};

use crate::running::Running;
use crate::turn::Turned;
use lz_base::{Memory, VALUE_BOUND, Value};
use lz_model::Action;
use lz_stations::Pause;

/// What a thread answers on its next action that is not local.
#[derive(Clone, Copy, Debug, PartialEq, Eq)]
pub enum Next {
    /// It reads a cell, whose word is to be read back.
    Read { cell: u32, line: u32 },
    Act { action: Action, line: u32 },
    /// It gave its end before.
    Ended,
    /// Nothing more comes.
    Cut,
}

/// The word that a read found, or nothing behind another answer.
#[derive(Clone, Copy, Debug, PartialEq, Eq)]
pub enum ReadBack {
    Nothing,
    Value { value: u32 },
}

/// Whether a thread goes on.
#[derive(Drop)]
pub enum Standing {
    Going { running: Running },
    /// A check or an assumption of 0 cut it.
    Failed,
    /// Nothing more came.
    Stopped,
    /// It gave its end.
    Ended,
    /// Memory ran out while it was asked for its next action.
    Spent,
}

/// An answer, and how the thread stands behind it.
#[derive(Drop)]
pub struct Answered {
    pub next: Next,
    pub standing: Standing,
}

/// The word of a number.
fn word(value: u64) -> u32
    ensures { result ≡ value % value_bound }
{
    (value % VALUE_BOUND) as u32
}

/// The thread that a signal wakes by its choice.
fn woken_by(choice: u64) -> Option<u32>
    ensures { result ≡ words.woken_by choice }
{
    if choice == 0 {
        return None;
    }
    let thread = choice - 1;
    if thread < 4294967295 {
        return Some(thread as u32);
    }
    Some(4294967295)
}

/// Gives a thread the word that was read back.
pub fn give(running: &mut Running, read: ReadBack)
    ensures { running_of running.new ≡ words.given_to (word_of read) (running_of running.old) }
{
    match read {
        ReadBack::Nothing => {}
        ReadBack::Value { value } => running.given = value,
    }
}

/// A thread that goes on with this value.
fn going_on(mut running: Running, given: u32) -> Standing
    ensures { standing_of result ≡ spec.going_on (running_of running) given running.made }
{
    running.given = given;
    Standing::Going { running }
}

/// An action, behind which the thread goes on with this value.
fn acted(action: Action, line: u32, running: Running, given: u32) -> Answered
    ensures next { answer_of result.next ≡ words.acts action line }
    ensures standing { standing_of result.standing ≡ spec.going_on (running_of running) given running.made }
{
    Answered {
        next: Next::Act { action, line },
        standing: going_on(running, given),
    }
}

/// The creation of a thread, which has the next number.
fn created(start: u32, value: u32, line: u32, running: Running) -> Result<Answered, Memory>
    ensures next { IfOk result (λ a. answer_of a.next ≡ spec.answer_to 0 true (spec.pausing (stations.creates start value line) (running_of running))) }
    ensures standing { IfOk result (λ a. standing_of a.standing ≡ spec.standing_behind 0 (spec.pausing (stations.creates start value line) (running_of running))) }
    ensures word { IfOk result (λ a. IsWordAnswer (answer_of a.next)) }
{
    let mut running = running;
    let thread = running.made;
    let Some(next) = thread.checked_add(1) else {
        return Err(Memory);
    };
    running.made = next;
    let action = Action::Create {
        thread,
        start,
        value: value as Value,
    };
    Ok(acted(action, line, running, thread))
}

/// The answer of a thread that pauses, to a choice.
fn paused_answer(choice: u64, pause: Pause, running: Running) -> Result<Answered, Memory>
    ensures next { IfOk result (λ a. answer_of a.next ≡ spec.answer_to choice true (spec.pausing (pause_of pause) (running_of running))) }
    ensures standing { IfOk result (λ a. standing_of a.standing ≡ spec.standing_behind choice (spec.pausing (pause_of pause) (running_of running))) }
    ensures word { IfOk result (λ a. spec.IsPlainPause (pause_of pause) → IsWordAnswer (answer_of a.next)) }
{
    match pause {
        Pause::Acts { action, line } => Ok(acted(action, line, running, 0)),
        Pause::Reads { cell, line } => Ok(Answered {
            next: Next::Read { cell, line },
            standing: going_on(running, 0),
        }),
        Pause::Asks { line, .. } => {
            let value = word(choice);
            let action = Action::Input {
                value: value as Value,
            };
            Ok(acted(action, line, running, value))
        }
        Pause::Signals { cond, line } => {
            let action = Action::Signal {
                cond,
                woken: woken_by(choice),
            };
            Ok(acted(action, line, running, 0))
        }
        Pause::Creates { start, value, line } => created(start, value, line, running),
        Pause::Calls { .. } => Ok(Answered {
            next: Next::Cut,
            standing: Standing::Going { running },
        }),
    }
}

/// A last action, behind which the thread stands so.
fn last(action: Action, line: u32, standing: Standing) -> Answered
    ensures next { answer_of result.next ≡ words.acts action line }
    ensures standing { standing_of result.standing ≡ standing_of standing }
{
    Answered {
        next: Next::Act { action, line },
        standing,
    }
}

/// The answer of a thread that came so far, to a choice. `whole` says whether its end ends the process.
pub fn tell(choice: u64, whole: bool, turned: Turned, running: Running) -> Result<Answered, Memory>
    ensures next { IfOk result (λ a. answer_of a.next ≡ spec.answer_to choice whole (turned_of turned running)) }
    ensures standing { IfOk result (λ a. standing_of a.standing ≡ spec.standing_behind choice (turned_of turned running)) }
    ensures word { IfOk result (λ a. (made : ℕ) → spec.IsPausing (turned_of turned running) made → IsWordAnswer (answer_of a.next)) }
{
    match turned {
        Turned::Again => Ok(Answered {
            next: Next::Cut,
            standing: Standing::Going { running },
        }),
        Turned::Pauses { pause } => paused_answer(choice, pause, running),
        Turned::Fails { kind, line } => Ok(last(
            Action::Check { value: 0, kind },
            line,
            Standing::Failed,
        )),
        Turned::Refuses { line } => Ok(last(Action::Assume { value: 0 }, line, Standing::Failed)),
        Turned::Leaves => Ok(last(Action::End { whole: false }, 0, Standing::Ended)),
        Turned::Stops => Ok(Answered {
            next: Next::Cut,
            standing: Standing::Stopped,
        }),
        Turned::Ends => Ok(last(Action::End { whole }, 0, Standing::Ended)),
    }
}
