ghost use Rattle.std.specs.Prelude.{◌≡◌, false, true};
ghost use Rattle.lz_tree.specs.ScopedTrees.{scoped_target};
ghost use Rattle.lz_model.specs.CodeTraces as model;
ghost use Rattle.lz_turns.specs.Stages.{stage_of, move_of, locals_of};
ghost use Rattle.lz_turns.specs.Stages as stages;
ghost use Rattle.lz_turns.specs.Moves as spec;
ghost use Rattle.lz_turns.specs.Fits.{IsFitPlace};

use crate::stage::{Came, Locals, Move, Place, Stage};
use crate::values::word_at;
use lz_base::{BreakKind, IntType, Value};
use lz_model::Action;
use lz_tree::{Object, ScopedTarget};

/// An action, behind which the node is at this stage.
pub fn does(action: Action, line: u32, stage: Stage) -> Move
    ensures { move_of result ≡ stages.comes (stages.acts action line (stages.at_stage (stage_of stage))) }
{
    Move::Comes {
        came: Came::Acts {
            action,
            line,
            place: Place::At { stage },
        },
    }
}

/// The value of a node that is done.
pub fn settles(value: u32) -> Move
    ensures { move_of result ≡ stages.comes (stages.settles value) }
{
    Move::Comes {
        came: Came::Done { value },
    }
}

/// Nothing more.
pub fn stops() -> Move
    ensures { move_of result ≡ stages.comes stages.stops }
{
    Move::Comes { came: Came::Stops }
}

/// A check, behind which the node is at this stage.
pub fn check_move(line: u32, value: u32, kind: BreakKind, stage: Stage) -> Move
    ensures { move_of result ≡ spec.check_move line value kind (stage_of stage) }
{
    if value == 0 {
        Move::Comes {
            came: Came::Fails { kind, line },
        }
    } else {
        does(
            Action::Check {
                value: value as Value,
                kind,
            },
            line,
            stage,
        )
    }
}

/// An assumption, behind which the node is at this stage.
pub fn assume_move(line: u32, value: u32, stage: Stage) -> Move
    ensures { move_of result ≡ spec.assume_move line value (stage_of stage) }
{
    if value == 0 {
        Move::Comes {
            came: Came::Refuses { line },
        }
    } else {
        does(
            Action::Assume {
                value: value as Value,
            },
            line,
            stage,
        )
    }
}

/// The number of elements of an object.
fn len_of(object: Object) -> u32
    ensures { result ≡ model.len_of object }
{
    match object {
        Object::Local { len, .. } => len,
        Object::Cell { len, .. } => len,
        Object::Mutex { len, .. } => len,
        Object::Cond { len, .. } => len,
        Object::Handle { len, .. } => len,
        Object::Routine { .. } => 0,
        Object::Known { .. } => 0,
    }
}

/// The number of the first element of an object.
fn first_of(object: Object) -> u32
    ensures { result ≡ model.first_of object }
{
    match object {
        Object::Local { first, .. } => first,
        Object::Cell { first, .. } => first,
        Object::Mutex { first, .. } => first,
        Object::Cond { first, .. } => first,
        Object::Handle { first, .. } => first,
        Object::Routine { function } => function,
        Object::Known { .. } => 0,
    }
}

/// The kind of an integer object.
pub fn kind_of_object(object: Object) -> IntType
    ensures { result ≡ model.kind_of_object object }
{
    match object {
        Object::Local { kind, .. } => kind,
        Object::Cell { kind, .. } => kind,
        Object::Mutex { .. }
        | Object::Cond { .. }
        | Object::Handle { .. }
        | Object::Routine { .. }
        | Object::Known { .. } => IntType::Int,
    }
}

/// Whether an index is one of a target: where none is written it is 0.
pub fn index_fits(target: &ScopedTarget, at: u32) -> bool
    ensures { result ≡ spec.index_fits (scoped_target target.now) at }
{
    match &target.index {
        None => at < 1,
        Some(_) => at < len_of(target.object),
    }
}

/// The element of a target at an index of it.
pub fn element_at(target: &ScopedTarget, at: u32) -> u32
    requires fit { IsFitPlace (scoped_target target.now) }
    requires fits { spec.index_fits (scoped_target target.now) at ≡ true }
    ensures { result ≡ spec.element_at (scoped_target target.now) at }
{
    first_of(target.object) + at
}

/// The check of an index that is one of its target.
pub fn index_move(target: &ScopedTarget, at: u32, stage: Stage) -> Move
    requires { spec.index_fits (scoped_target target.now) at ≡ true }
    ensures { move_of result ≡ spec.index_move (scoped_target target.now) at (stage_of stage) }
{
    match &target.index {
        None => Move::Goes { stage, value: 0 },
        Some(_) => {
            if target.checked {
                Move::Goes { stage, value: 0 }
            } else {
                check_move(target.line, 1, BreakKind::Bounds, stage)
            }
        }
    }
}

/// The check of an index that is none of its target.
pub fn index_misses(target: &ScopedTarget, at: u32) -> Move
    requires { spec.index_fits (scoped_target target.now) at ≡ false }
    ensures { (stage : stages.Stage) → move_of result ≡ spec.index_move (scoped_target target.now) at stage }
{
    match &target.index {
        None => stops(),
        Some(_) => {
            if target.checked {
                stops()
            } else {
                Move::Comes {
                    came: Came::Fails {
                        kind: BreakKind::Bounds,
                        line: target.line,
                    },
                }
            }
        }
    }
}

/// The check of a divisor.
pub fn divide_move(divides: bool, line: u32, divisor: u32, stage: Stage) -> Move
    ensures { move_of result ≡ spec.divide_move divides line divisor (stage_of stage) }
{
    if divides {
        check_move(line, divisor, BreakKind::DivZero, stage)
    } else {
        Move::Goes { stage, value: 0 }
    }
}

/// A read of an element, behind which the node is at this stage.
pub fn read_move(object: Object, line: u32, element: u32, stage: Stage, locals: &Locals) -> Move
    ensures { move_of result ≡ spec.read_move object line element (stage_of stage) (locals_of locals.now) }
{
    match object {
        Object::Local { .. } => Move::Goes {
            stage,
            value: word_at(&locals.frame, element),
        },
        Object::Cell { .. } => Move::Comes {
            came: Came::Reads {
                cell: element,
                line,
                place: Place::At { stage },
            },
        },
        Object::Handle { .. } => Move::Goes {
            stage,
            value: word_at(&locals.handles, element),
        },
        Object::Routine { function } => Move::Goes {
            stage,
            value: function,
        },
        Object::Mutex { .. } | Object::Cond { .. } | Object::Known { .. } => stops(),
    }
}

/// A write of an element, behind which the node is at this stage; that of a local is done by the caller.
pub fn write_move(object: Object, line: u32, element: u32, value: u32, stage: Stage) -> Move
    ensures { move_of result ≡ spec.write_move object line element value (stage_of stage) }
{
    match object {
        Object::Local { .. } => Move::Goes { stage, value: 0 },
        Object::Cell { .. } => does(
            Action::Wr {
                cell: element,
                value: value as Value,
            },
            line,
            stage,
        ),
        Object::Handle { .. }
        | Object::Routine { .. }
        | Object::Mutex { .. }
        | Object::Cond { .. }
        | Object::Known { .. } => stops(),
    }
}
