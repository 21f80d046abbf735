ghost use Rattle.std.specs.Prelude.{◌≡◌, IfOk};
ghost use Rattle.lz_turns.specs.Stages.{stage_of, point_of, came_of};
ghost use Rattle.lz_turns.specs.Stages as stages;
ghost use Rattle.lz_turns.specs.Wents.{went_of, value_if_went};

use crate::stage::{Came, Place, Stage};
use lz_base::{BreakKind, IntType, Memory};
use lz_model::Action;
use std::alloc::Global;

/// How far an expression came. The place where it stands behind the next action is kept beside it.
#[derive(Drop)]
pub enum Went {
    /// It has this value.
    Done {
        value: u32,
    },
    Acts {
        action: Action,
        line: u32,
    },
    /// A read of a cell, whose value is given then.
    Reads {
        cell: u32,
        line: u32,
    },
    /// An input, whose value is given then.
    Asks {
        line: u32,
        kind: IntType,
    },
    /// A signal, which wakes somebody or nobody.
    Signals {
        cond: u32,
        line: u32,
    },
    /// A creation, whose thread's number is given then.
    Creates {
        start: u32,
        value: u32,
        line: u32,
    },
    /// A call of a function with these arguments, whose value is given then.
    Calls {
        function: u32,
        kinds: Vec<IntType>,
        values: Vec<u32>,
    },
    /// A check of 0, behind which nothing comes.
    Fails {
        kind: BreakKind,
        line: u32,
    },
    /// An assumption of 0, behind which nothing comes.
    Refuses {
        line: u32,
    },
    /// The end of the thread.
    Exits,
    /// Nothing more.
    Stops,
}

/// The value of what is done.
pub fn value_of(went: &Went) -> Option<u32>
    ensures { result ≡ value_if_went went.now }
{
    match went {
        Went::Done { value } => Some(*value),
        Went::Acts { .. }
        | Went::Reads { .. }
        | Went::Asks { .. }
        | Went::Signals { .. }
        | Went::Creates { .. }
        | Went::Calls { .. }
        | Went::Fails { .. }
        | Went::Refuses { .. }
        | Went::Exits
        | Went::Stops => None,
    }
}

/// Puts the place behind what came so far into this one, where there is any.
pub fn stand_behind(came: Came, place: &mut Place) -> Went
    ensures { went_of result (point_of place.new) ≡ came_of came }
{
    match came {
        Came::Done { value } => Went::Done { value },
        Came::Acts {
            action,
            line,
            place: next,
        } => {
            *place = next;
            Went::Acts { action, line }
        }
        Came::Reads {
            cell,
            line,
            place: next,
        } => {
            *place = next;
            Went::Reads { cell, line }
        }
        Came::Asks {
            line,
            kind,
            place: next,
        } => {
            *place = next;
            Went::Asks { line, kind }
        }
        Came::Signals {
            cond,
            line,
            place: next,
        } => {
            *place = next;
            Went::Signals { cond, line }
        }
        Came::Creates {
            start,
            value,
            line,
            place: next,
        } => {
            *place = next;
            Went::Creates { start, value, line }
        }
        Came::Calls {
            function,
            kinds,
            values,
            place: next,
        } => {
            *place = next;
            Went::Calls {
                function,
                kinds,
                values,
            }
        }
        Came::Fails { kind, line } => Went::Fails { kind, line },
        Came::Refuses { line } => Went::Refuses { line },
        Came::Exits => Went::Exits,
        Came::Stops => Went::Stops,
    }
}

/// Puts a place in a part into this one, behind which its node is at this stage.
pub fn stand_within(
    alloc: Global,
    stage: Stage,
    inner: Place,
    place: &mut Place,
) -> Result<(), Memory>
    ensures { IfOk result (λ _. point_of place.new ≡ stages.within (stage_of stage) (point_of inner)) }
{
    match place {
        Place::At { .. } => {
            let inner = Box::new(alloc, inner)?;
            *place = Place::Within { stage, inner };
            Ok(())
        }
        Place::Within {
            stage: own,
            inner: held,
        } => {
            *own = stage;
            **held = inner;
            Ok(())
        }
    }
}

/// What came so far, with its place.
pub fn came_at(went: Went, place: Place) -> Came
    ensures { came_of result ≡ went_of went (point_of place) }
{
    match went {
        Went::Done { value } => Came::Done { value },
        Went::Acts { action, line } => Came::Acts {
            action,
            line,
            place,
        },
        Went::Reads { cell, line } => Came::Reads { cell, line, place },
        Went::Asks { line, kind } => Came::Asks { line, kind, place },
        Went::Signals { cond, line } => Came::Signals { cond, line, place },
        Went::Creates { start, value, line } => Came::Creates {
            start,
            value,
            line,
            place,
        },
        Went::Calls {
            function,
            kinds,
            values,
        } => Came::Calls {
            function,
            kinds,
            values,
            place,
        },
        Went::Fails { kind, line } => Came::Fails { kind, line },
        Went::Refuses { line } => Came::Refuses { line },
        Went::Exits => Came::Exits,
        Went::Stops => Came::Stops,
    }
}
