ghost use Rattle.std.specs.Prelude.{◌≡◌, ◌<◌, suc, length, IfOk, map};
ghost use Rattle.lz_tree.specs.ScopedTrees.{scoped_expression, scoped_expressions_of, scoped_target};
ghost use Rattle.lz_model.specs.CodeTraces as model;
ghost use Rattle.lz_turns.specs.Stages.{stage_of, move_of, locals_of};
ghost use Rattle.lz_turns.specs.Stages as stages;
ghost use Rattle.lz_turns.specs.Moves as spec;
ghost use Rattle.lz_turns.specs.Callees.{callee_of};
ghost use Rattle.lz_turns.specs.Fits.{IsFit, AreFit, IsFitPlace};

use crate::moves::{
    assume_move, check_move, does, element_at, index_fits, index_misses, index_move, settles, stops,
};
use crate::stage::{Came, Locals, Move, Place, Stage};
use crate::values::{kind_of, set_word, word_at};
use lz_base::{BreakKind, IntType, Memory};
use lz_model::Action;
use lz_tree::{KnownName, Object, ScopedExpr, ScopedTarget};
use std::alloc::Global;

/// What a node calls.
#[derive(Clone, Copy)]
pub enum Callee {
    Function { line: u32, function: u32 },
    Known { line: u32, name: KnownName },
    Nothing,
}

/// What a call of this object calls.
fn callee_called(line: u32, callee: Object) -> Callee
    ensures { callee_of result ≡ spec.callee_called line callee }
{
    match callee {
        Object::Routine { function } => Callee::Function { line, function },
        Object::Known { name } => Callee::Known { line, name },
        Object::Local { .. }
        | Object::Cell { .. }
        | Object::Mutex { .. }
        | Object::Cond { .. }
        | Object::Handle { .. } => Callee::Nothing,
    }
}

/// What a node calls.
pub fn called(e: &ScopedExpr) -> Callee
    ensures { callee_of result ≡ spec.called (scoped_expression e.now) }
{
    match e {
        ScopedExpr::Call { line, callee, .. } => callee_called(*line, *callee),
        ScopedExpr::Constant { .. }
        | ScopedExpr::Null { .. }
        | ScopedExpr::Text { .. }
        | ScopedExpr::Object { .. }
        | ScopedExpr::Address { .. }
        | ScopedExpr::Paren { .. }
        | ScopedExpr::Unary { .. }
        | ScopedExpr::Cast { .. }
        | ScopedExpr::Binary { .. }
        | ScopedExpr::Choose { .. }
        | ScopedExpr::Assign { .. }
        | ScopedExpr::Step { .. } => Callee::Nothing,
    }
}

/// The arguments of a node.
pub fn arguments(e: &ScopedExpr) -> &[ScopedExpr]
    ensures { scoped_expressions_of (map scoped_expression result.now) ≡ spec.arguments_of (scoped_expression e.now) }
{
    match e {
        ScopedExpr::Call { args, .. } => args,
        ScopedExpr::Constant { .. }
        | ScopedExpr::Null { .. }
        | ScopedExpr::Text { .. }
        | ScopedExpr::Object { .. }
        | ScopedExpr::Address { .. }
        | ScopedExpr::Paren { .. }
        | ScopedExpr::Unary { .. }
        | ScopedExpr::Cast { .. }
        | ScopedExpr::Binary { .. }
        | ScopedExpr::Choose { .. }
        | ScopedExpr::Assign { .. }
        | ScopedExpr::Step { .. } => &[],
    }
}

/// The kinds of arguments.
fn kinds_of(alloc: Global, args: &[ScopedExpr]) -> Result<Vec<IntType>, Memory>
    ensures { IfOk result (λ kinds. kinds.items ≡ model.kinds_of (scoped_expressions_of (map scoped_expression args.now))) }
{
    let mut kinds = Vec::new(alloc);
    for arg in args {
        kinds.push(kind_of(arg))?;
    }
    Ok(kinds)
}

/// How many words there are.
fn number_of(words: &[u32]) -> usize
    ensures { result ≡ length words.now }
{
    words.len()
}

/// A call of a function that is before an argument, or behind all.
fn calling_so(
    alloc: Global,
    function: u32,
    args: &[ScopedExpr],
    values: Vec<u32>,
) -> Result<Move, Memory>
    ensures { let args = scoped_expressions_of (map scoped_expression args.now) in IfOk result (λ m. move_of m ≡ spec.calling_so (spec.argument_at args (length values.items)) function args values.items) }
{
    let known = number_of(&values);
    if known < args.len() {
        return Ok(Move::Enters {
            stage: Stage::Argument { values },
        });
    }
    let kinds = kinds_of(alloc, args)?;
    Ok(Move::Comes {
        came: Came::Calls {
            function,
            kinds,
            values,
            place: Place::At {
                stage: Stage::Given,
            },
        },
    })
}

/// A call before an argument of a function.
pub fn calling_move(
    alloc: Global,
    callee: Callee,
    args: &[ScopedExpr],
    values: Vec<u32>,
) -> Result<Move, Memory>
    ensures { IfOk result (λ m. move_of m ≡ spec.calling_move (callee_of callee) (scoped_expressions_of (map scoped_expression args.now)) values.items) }
{
    match callee {
        Callee::Function { function, .. } => calling_so(alloc, function, args, values),
        Callee::Known { .. } | Callee::Nothing => Ok(stops()),
    }
}

/// A call behind an argument of a function.
pub fn argument_move(callee: Callee, mut values: Vec<u32>, value: u32) -> Result<Move, Memory>
    ensures { IfOk result (λ m. move_of m ≡ spec.argument_move (callee_of callee) values.items value) }
{
    match callee {
        Callee::Function { .. } => {
            values.push(value)?;
            Ok(Move::Goes {
                stage: Stage::Calling { values },
                value: 0,
            })
        }
        Callee::Known { .. } | Callee::Nothing => Ok(stops()),
    }
}

/// An object that is handed to a known name.
fn handed_target(target: &ScopedTarget, objects: Vec<u32>, at: usize) -> Move
    ensures { move_of result ≡ spec.handed_target (scoped_target target.now) objects.items at }
{
    match &target.index {
        None => Move::Goes {
            stage: Stage::Handed { objects, at },
            value: 0,
        },
        Some(_) => Move::Enters {
            stage: Stage::Handed { objects, at },
        },
    }
}

/// Whether an object is one for threads.
fn is_handle(object: Object) -> bool
    ensures { result ≡ model.is_handle object }
{
    match object {
        Object::Handle { .. } => true,
        Object::Local { .. }
        | Object::Cell { .. }
        | Object::Mutex { .. }
        | Object::Cond { .. }
        | Object::Routine { .. }
        | Object::Known { .. } => false,
    }
}

/// An argument that is passed by.
fn passed_by(objects: Vec<u32>, at: usize) -> Move
    requires next { at < 18446744073709551615 }
    ensures { move_of result ≡ stages.goes (stages.passing objects.items (suc at)) 0 }
{
    Move::Goes {
        stage: Stage::Passing {
            objects,
            at: at + 1,
        },
        value: 0,
    }
}

/// An argument of a known name that may be an object.
fn passing_one(e: &ScopedExpr, objects: Vec<u32>, at: usize) -> Move
    requires next { at < 18446744073709551615 }
    ensures { move_of result ≡ spec.passing_one (scoped_expression e.now) objects.items at }
{
    match e {
        ScopedExpr::Object { target, .. } => {
            if is_handle(target.object) {
                handed_target(target, objects, at)
            } else {
                passed_by(objects, at)
            }
        }
        ScopedExpr::Address { target, .. } => handed_target(target, objects, at),
        ScopedExpr::Constant { .. }
        | ScopedExpr::Null { .. }
        | ScopedExpr::Text { .. }
        | ScopedExpr::Paren { .. }
        | ScopedExpr::Unary { .. }
        | ScopedExpr::Cast { .. }
        | ScopedExpr::Binary { .. }
        | ScopedExpr::Choose { .. }
        | ScopedExpr::Assign { .. }
        | ScopedExpr::Step { .. }
        | ScopedExpr::Call { .. } => passed_by(objects, at),
    }
}

/// A call of a known name before an argument that may be an object.
pub fn passing_move(
    alloc: Global,
    callee: Callee,
    args: &[ScopedExpr],
    objects: Vec<u32>,
    at: usize,
) -> Move
    ensures { move_of result ≡ spec.passing_move (callee_of callee) (scoped_expressions_of (map scoped_expression args.now)) objects.items at }
{
    match callee {
        Callee::Known { .. } => {
            if at < args.len() {
                passing_one(&args[at], objects, at)
            } else {
                Move::Goes {
                    stage: Stage::Arguing {
                        objects,
                        values: Vec::new(alloc),
                        at: 0,
                    },
                    value: 0,
                }
            }
        }
        Callee::Function { .. } | Callee::Nothing => stops(),
    }
}

/// An object that is handed, behind its index.
fn passed_target(
    target: &ScopedTarget,
    mut objects: Vec<u32>,
    at: usize,
    index: u32,
) -> Result<Move, Memory>
    requires fit { IsFitPlace (scoped_target target.now) }
    requires next { at < 18446744073709551615 }
    ensures { IfOk result (λ m. move_of m ≡ spec.passed_target (scoped_target target.now) objects.items at index) }
{
    if index_fits(target, index) {
        objects.push(element_at(target, index))?;
        Ok(index_move(
            target,
            index,
            Stage::Passing {
                objects,
                at: at + 1,
            },
        ))
    } else {
        Ok(index_misses(target, index))
    }
}

/// An argument behind its index.
fn handed_one(e: &ScopedExpr, objects: Vec<u32>, at: usize, index: u32) -> Result<Move, Memory>
    requires fit { IsFit (scoped_expression e.now) }
    requires next { at < 18446744073709551615 }
    ensures { IfOk result (λ m. move_of m ≡ spec.handed_one (scoped_expression e.now) objects.items at index) }
{
    match e {
        ScopedExpr::Object { target, .. } => passed_target(target, objects, at, index),
        ScopedExpr::Address { target, .. } => passed_target(target, objects, at, index),
        ScopedExpr::Constant { .. }
        | ScopedExpr::Null { .. }
        | ScopedExpr::Text { .. }
        | ScopedExpr::Paren { .. }
        | ScopedExpr::Unary { .. }
        | ScopedExpr::Cast { .. }
        | ScopedExpr::Binary { .. }
        | ScopedExpr::Choose { .. }
        | ScopedExpr::Assign { .. }
        | ScopedExpr::Step { .. }
        | ScopedExpr::Call { .. } => Ok(stops()),
    }
}

/// A call of a known name behind the index of an object that is handed.
pub fn handed_move(
    callee: Callee,
    args: &[ScopedExpr],
    objects: Vec<u32>,
    at: usize,
    index: u32,
) -> Result<Move, Memory>
    requires { AreFit (scoped_expressions_of (map scoped_expression args.now)) }
    ensures { IfOk result (λ m. move_of m ≡ spec.handed_move (callee_of callee) (scoped_expressions_of (map scoped_expression args.now)) objects.items at index) }
{
    match callee {
        Callee::Known { .. } => {
            if at < args.len() {
                handed_one(&args[at], objects, at, index)
            } else {
                Ok(stops())
            }
        }
        Callee::Function { .. } | Callee::Nothing => Ok(stops()),
    }
}

/// What a known name does, behind its arguments.
fn known_move(line: u32, name: KnownName, objects: &[u32], values: &[u32], locals: &Locals) -> Move
    ensures { move_of result ≡ spec.known_move line name objects.now values.now (locals_of locals.now) }
{
    let object = word_at(objects, 0);
    let value = word_at(values, 0);
    match name {
        KnownName::Assert => check_move(
            line,
            value,
            BreakKind::Assert,
            Stage::Settled { value: 0 },
        ),
        KnownName::Assume => assume_move(line, value, Stage::Settled { value: 0 }),
        KnownName::NondetInt => asks(line, IntType::Int),
        KnownName::NondetUint => asks(line, IntType::Unsigned),
        KnownName::Error | KnownName::ReachError => Move::Comes {
            came: Came::Fails {
                kind: BreakKind::Reached,
                line,
            },
        },
        KnownName::Abort => Move::Comes {
            came: Came::Refuses { line },
        },
        KnownName::AtomicBegin => does(Action::HoldOn, line, Stage::Settled { value: 0 }),
        KnownName::AtomicEnd => does(Action::HoldOff, line, Stage::Settled { value: 0 }),
        KnownName::Create => Move::Comes {
            came: Came::Creates {
                start: word_at(values, 1),
                value: word_at(values, 2),
                line,
                place: Place::At {
                    stage: Stage::Made { handle: object },
                },
            },
        },
        KnownName::Join => does(
            Action::Join {
                thread: word_at(&locals.handles, object),
            },
            line,
            Stage::Settled { value: 0 },
        ),
        KnownName::Exit => Move::Comes { came: Came::Exits },
        KnownName::MutexInit => does(
            Action::Reset { mutex: object },
            line,
            Stage::Settled { value: 0 },
        ),
        KnownName::MutexLock => does(
            Action::Lock { mutex: object },
            line,
            Stage::Settled { value: 0 },
        ),
        KnownName::MutexUnlock => does(
            Action::Unlock { mutex: object },
            line,
            Stage::Settled { value: 0 },
        ),
        KnownName::CondWait => does(
            Action::Park {
                cond: object,
                mutex: word_at(objects, 1),
            },
            line,
            Stage::Woken {
                cond: object,
                mutex: word_at(objects, 1),
            },
        ),
        KnownName::CondSignal => Move::Comes {
            came: Came::Signals {
                cond: object,
                line,
                place: Place::At {
                    stage: Stage::Given,
                },
            },
        },
        KnownName::CondBroadcast => does(
            Action::Broadcast { cond: object },
            line,
            Stage::Settled { value: 0 },
        ),
        KnownName::MutexDestroy
        | KnownName::CondInit
        | KnownName::CondDestroy
        | KnownName::Printf => settles(0),
    }
}

/// An input of a kind.
fn asks(line: u32, kind: IntType) -> Move
    ensures { move_of result ≡ stages.comes (stages.asks line kind (stages.at_stage stages.given)) }
{
    Move::Comes {
        came: Came::Asks {
            line,
            kind,
            place: Place::At {
                stage: Stage::Given,
            },
        },
    }
}

/// Whether an argument is an object that is handed to a known name.
fn is_object(e: &ScopedExpr) -> bool
    ensures { result ≡ model.is_object_argument (scoped_expression e.now) }
{
    match e {
        ScopedExpr::Object { target, .. } => is_handle(target.object),
        ScopedExpr::Address { .. } => true,
        ScopedExpr::Constant { .. }
        | ScopedExpr::Null { .. }
        | ScopedExpr::Text { .. }
        | ScopedExpr::Paren { .. }
        | ScopedExpr::Unary { .. }
        | ScopedExpr::Cast { .. }
        | ScopedExpr::Binary { .. }
        | ScopedExpr::Choose { .. }
        | ScopedExpr::Assign { .. }
        | ScopedExpr::Step { .. }
        | ScopedExpr::Call { .. } => false,
    }
}

/// An argument of a known name that may be a value.
fn value_so(is_object: bool, objects: Vec<u32>, values: Vec<u32>, at: usize) -> Move
    requires next { at < 18446744073709551615 }
    ensures { move_of result ≡ spec.value_so is_object objects.items values.items at }
{
    if is_object {
        Move::Goes {
            stage: Stage::Arguing {
                objects,
                values,
                at: at + 1,
            },
            value: 0,
        }
    } else {
        Move::Enters {
            stage: Stage::Argued {
                objects,
                values,
                at,
            },
        }
    }
}

/// A call of a known name before an argument that may be a value, or behind all.
pub fn arguing_move(
    callee: Callee,
    args: &[ScopedExpr],
    objects: Vec<u32>,
    values: Vec<u32>,
    at: usize,
    locals: &Locals,
) -> Move
    ensures { move_of result ≡ spec.arguing_move (callee_of callee) (scoped_expressions_of (map scoped_expression args.now)) objects.items values.items at (locals_of locals.now) }
{
    match callee {
        Callee::Known { line, name } => {
            if at < args.len() {
                value_so(is_object(&args[at]), objects, values, at)
            } else {
                known_move(line, name, &objects, &values, locals)
            }
        }
        Callee::Function { .. } | Callee::Nothing => stops(),
    }
}

/// A call of a known name behind an argument that is a value.
pub fn argued_move(
    callee: Callee,
    args: &[ScopedExpr],
    objects: Vec<u32>,
    mut values: Vec<u32>,
    at: usize,
    value: u32,
) -> Result<Move, Memory>
    ensures { IfOk result (λ m. move_of m ≡ spec.argued_move (callee_of callee) (scoped_expressions_of (map scoped_expression args.now)) objects.items values.items at value) }
{
    match callee {
        Callee::Known { .. } => {
            if at < args.len() {
                values.push(value)?;
                Ok(Move::Goes {
                    stage: Stage::Arguing {
                        objects,
                        values,
                        at: at + 1,
                    },
                    value: 0,
                })
            } else {
                Ok(stops())
            }
        }
        Callee::Function { .. } | Callee::Nothing => Ok(stops()),
    }
}

/// The second half of a wait.
pub fn woken_move(callee: Callee, cond: u32, mutex: u32) -> Move
    ensures { move_of result ≡ spec.woken_move (callee_of callee) cond mutex }
{
    match callee {
        Callee::Known { line, .. } => does(
            Action::Wake { cond, mutex },
            line,
            Stage::Settled { value: 0 },
        ),
        Callee::Function { .. } | Callee::Nothing => stops(),
    }
}

/// A creation whose thread's number is kept.
pub fn made_move(callee: Callee) -> Move
    ensures { move_of result ≡ spec.made_move (callee_of callee) }
{
    match callee {
        Callee::Known { .. } => settles(0),
        Callee::Function { .. } | Callee::Nothing => stops(),
    }
}

/// The thread object in which its number is kept.
pub fn made_writes(
    callee: Callee,
    handle: u32,
    thread: u32,
    locals: &mut Locals,
) -> Result<(), Memory>
    ensures { IfOk result (λ _. locals_of locals.new ≡ spec.made_locals (callee_of callee) handle thread (locals_of locals.old)) }
{
    match callee {
        Callee::Known { .. } => set_word(&mut locals.handles, handle, thread),
        Callee::Function { .. } | Callee::Nothing => Ok(()),
    }
}
