ghost use Rattle.std.specs.Prelude.{◌≡◌, IfOk};
ghost use Rattle.lz_tree.specs.ScopedTrees.{scoped_expression, scoped_target};
ghost use Rattle.lz_turns.specs.Stages.{stage_of, move_of, locals_of};
ghost use Rattle.lz_base.specs.Words.{is_true};
ghost use Rattle.lz_turns.specs.Stages as stages;
ghost use Rattle.lz_turns.specs.Moves as spec;
ghost use Rattle.lz_turns.specs.Fits.{IsFit, IsFitPlace};

use crate::moves::{
    divide_move, element_at, index_fits, index_misses, index_move, kind_of_object, read_move,
    settles, stops, write_move,
};
use crate::stage::{Locals, Move, Stage};
use crate::values::{
    assigned, converted, is_division, kind_of, kind_or, operated, right_operand, set_word, stepped,
    unary_operated,
};
use lz_base::{Binary, IntType, Memory};
use lz_tree::{Object, ScopedExpr, ScopedTarget};
use std::alloc::Global;

/// Writes an element that is a local.
fn write_local(object: Object, element: u32, value: u32, locals: &mut Locals) -> Result<(), Memory>
    ensures { IfOk result (λ _. locals_of locals.new ≡ spec.written object element value (locals_of locals.old)) }
{
    match object {
        Object::Local { .. } => set_word(&mut locals.frame, element, value),
        Object::Cell { .. }
        | Object::Handle { .. }
        | Object::Routine { .. }
        | Object::Mutex { .. }
        | Object::Cond { .. }
        | Object::Known { .. } => Ok(()),
    }
}

/// A target before its first action.
fn target_begins(target: &ScopedTarget) -> Move
    ensures { move_of result ≡ spec.target_begins (scoped_target target.now) }
{
    match &target.index {
        None => Move::Goes {
            stage: Stage::Indexed,
            value: 0,
        },
        Some(_) => Move::Enters {
            stage: Stage::Indexed,
        },
    }
}

/// A call before its first action.
fn call_begins(alloc: Global, callee: Object) -> Move
    ensures { move_of result ≡ spec.call_begins callee }
{
    match callee {
        Object::Routine { .. } => Move::Goes {
            stage: Stage::Calling {
                values: Vec::new(alloc),
            },
            value: 0,
        },
        Object::Known { .. } => Move::Goes {
            stage: Stage::Passing {
                objects: Vec::new(alloc),
                at: 0,
            },
            value: 0,
        },
        Object::Local { .. }
        | Object::Cell { .. }
        | Object::Mutex { .. }
        | Object::Cond { .. }
        | Object::Handle { .. } => stops(),
    }
}

/// A node before its first action.
pub fn begin_move(alloc: Global, e: &ScopedExpr) -> Move
    requires { IsFit (scoped_expression e.now) }
    ensures { move_of result ≡ spec.begin_move (scoped_expression e.now) }
{
    match e {
        ScopedExpr::Constant { value, .. } => settles(*value as u32),
        ScopedExpr::Null { .. } | ScopedExpr::Text { .. } => settles(0),
        ScopedExpr::Object { target, .. } => target_begins(target),
        ScopedExpr::Address { target, .. } => target_begins(target),
        ScopedExpr::Assign { target, .. } => target_begins(target),
        ScopedExpr::Step { target, .. } => target_begins(target),
        ScopedExpr::Paren { .. }
        | ScopedExpr::Unary { .. }
        | ScopedExpr::Cast { .. }
        | ScopedExpr::Binary { .. }
        | ScopedExpr::Choose { .. } => Move::Enters {
            stage: Stage::First,
        },
        ScopedExpr::Call { callee, .. } => call_begins(alloc, *callee),
    }
}

/// A target behind its index, where its element is read or written then.
fn ready_target(target: &ScopedTarget, at: u32) -> Move
    requires { IsFitPlace (scoped_target target.now) }
    ensures { move_of result ≡ spec.ready_target (scoped_target target.now) at }
{
    if index_fits(target, at) {
        let element = element_at(target, at);
        index_move(target, at, Stage::Ready { element })
    } else {
        index_misses(target, at)
    }
}

/// A target behind its index, whose value the index is.
fn settled_target(target: &ScopedTarget, at: u32) -> Move
    ensures { move_of result ≡ spec.index_move (scoped_target target.now) at (stages.settled at) }
{
    if index_fits(target, at) {
        index_move(target, at, Stage::Settled { value: at })
    } else {
        index_misses(target, at)
    }
}

/// A node behind its index.
pub fn indexed_move(e: &ScopedExpr, at: u32) -> Move
    requires { IsFit (scoped_expression e.now) }
    ensures { move_of result ≡ spec.indexed_move (scoped_expression e.now) at }
{
    match e {
        ScopedExpr::Object { target, .. } => ready_target(target, at),
        ScopedExpr::Address { target, .. } => settled_target(target, at),
        ScopedExpr::Assign { op, target, .. } => match op {
            None => Move::Enters {
                stage: Stage::Valued { at },
            },
            Some(_) => ready_target(target, at),
        },
        ScopedExpr::Step { target, .. } => ready_target(target, at),
        ScopedExpr::Constant { .. }
        | ScopedExpr::Null { .. }
        | ScopedExpr::Text { .. }
        | ScopedExpr::Paren { .. }
        | ScopedExpr::Unary { .. }
        | ScopedExpr::Cast { .. }
        | ScopedExpr::Binary { .. }
        | ScopedExpr::Choose { .. }
        | ScopedExpr::Call { .. } => stops(),
    }
}

/// A node before the read of an element.
pub fn ready_move(e: &ScopedExpr, element: u32, locals: &Locals) -> Move
    ensures { move_of result ≡ spec.ready_move (scoped_expression e.now) element (locals_of locals.now) }
{
    match e {
        ScopedExpr::Object { target, .. } => {
            read_move(target.object, target.line, element, Stage::Given, locals)
        }
        ScopedExpr::Assign {
            line,
            op,
            target,
            ..
        } => match op {
            None => stops(),
            Some(_) => read_move(
                target.object,
                *line,
                element,
                Stage::Old { element },
                locals,
            ),
        },
        ScopedExpr::Step { line, target, .. } => {
            read_move(
                target.object,
                *line,
                element,
                Stage::Old { element },
                locals,
            )
        }
        ScopedExpr::Address { .. }
        | ScopedExpr::Constant { .. }
        | ScopedExpr::Null { .. }
        | ScopedExpr::Text { .. }
        | ScopedExpr::Paren { .. }
        | ScopedExpr::Unary { .. }
        | ScopedExpr::Cast { .. }
        | ScopedExpr::Binary { .. }
        | ScopedExpr::Choose { .. }
        | ScopedExpr::Call { .. } => stops(),
    }
}

/// `++` or `--` behind the read of its element.
fn step_move(line: u32, object: Object, up: bool, before: bool, element: u32, old: u32) -> Move
    ensures { move_of result ≡ spec.step_move line object up before element old }
{
    let new = stepped(up, kind_of_object(object), old);
    if before {
        write_move(object, line, element, new, Stage::Settled { value: new })
    } else {
        write_move(object, line, element, new, Stage::Settled { value: old })
    }
}

/// A node behind the read of an element.
pub fn old_move(e: &ScopedExpr, element: u32, old: u32) -> Move
    ensures { move_of result ≡ spec.old_move (scoped_expression e.now) element old }
{
    match e {
        ScopedExpr::Assign { op, .. } => match op {
            None => stops(),
            Some(_) => Move::Enters {
                stage: Stage::Operand { element, old },
            },
        },
        ScopedExpr::Step {
            line,
            target,
            up,
            before,
            ..
        } => step_move(*line, target.object, *up, *before, element, old),
        ScopedExpr::Object { .. }
        | ScopedExpr::Address { .. }
        | ScopedExpr::Constant { .. }
        | ScopedExpr::Null { .. }
        | ScopedExpr::Text { .. }
        | ScopedExpr::Paren { .. }
        | ScopedExpr::Unary { .. }
        | ScopedExpr::Cast { .. }
        | ScopedExpr::Binary { .. }
        | ScopedExpr::Choose { .. }
        | ScopedExpr::Call { .. } => stops(),
    }
}

/// The write of a local by `++` or `--`, behind the read of it.
pub fn old_writes(e: &ScopedExpr, element: u32, old: u32, locals: &mut Locals) -> Result<(), Memory>
    ensures { IfOk result (λ _. locals_of locals.new ≡ spec.old_locals (scoped_expression e.now) element old (locals_of locals.old)) }
{
    match e {
        ScopedExpr::Step { target, up, .. } => {
            let new = stepped(*up, kind_of_object(target.object), old);
            write_local(target.object, element, new, locals)
        }
        ScopedExpr::Assign { .. }
        | ScopedExpr::Object { .. }
        | ScopedExpr::Address { .. }
        | ScopedExpr::Constant { .. }
        | ScopedExpr::Null { .. }
        | ScopedExpr::Text { .. }
        | ScopedExpr::Paren { .. }
        | ScopedExpr::Unary { .. }
        | ScopedExpr::Cast { .. }
        | ScopedExpr::Binary { .. }
        | ScopedExpr::Choose { .. }
        | ScopedExpr::Call { .. } => Ok(()),
    }
}

/// A target of `=` behind the value, which has its kind.
fn valued_target(target: &ScopedTarget, at: u32, value: u32) -> Move
    requires { IsFitPlace (scoped_target target.now) }
    ensures { move_of result ≡ spec.valued_target (scoped_target target.now) at value }
{
    if index_fits(target, at) {
        let element = element_at(target, at);
        index_move(target, at, Stage::Writing { element, value })
    } else {
        index_misses(target, at)
    }
}

/// `=` behind its value.
pub fn valued_move(e: &ScopedExpr, at: u32, v: u32) -> Move
    requires { IsFit (scoped_expression e.now) }
    ensures { move_of result ≡ spec.valued_move (scoped_expression e.now) at v }
{
    match e {
        ScopedExpr::Assign {
            op,
            target,
            value,
            ..
        } => match op {
            None => {
                let value = converted(v, kind_of(value), kind_of_object(target.object));
                valued_target(target, at, value)
            }
            Some(_) => stops(),
        },
        ScopedExpr::Step { .. }
        | ScopedExpr::Object { .. }
        | ScopedExpr::Address { .. }
        | ScopedExpr::Constant { .. }
        | ScopedExpr::Null { .. }
        | ScopedExpr::Text { .. }
        | ScopedExpr::Paren { .. }
        | ScopedExpr::Unary { .. }
        | ScopedExpr::Cast { .. }
        | ScopedExpr::Binary { .. }
        | ScopedExpr::Choose { .. }
        | ScopedExpr::Call { .. } => stops(),
    }
}

/// An assignment before its write.
pub fn writing_move(e: &ScopedExpr, element: u32, value: u32) -> Move
    ensures { move_of result ≡ spec.writing_move (scoped_expression e.now) element value }
{
    match e {
        ScopedExpr::Assign { line, target, .. } => {
            write_move(
                target.object,
                *line,
                element,
                value,
                Stage::Settled { value },
            )
        }
        ScopedExpr::Step { .. }
        | ScopedExpr::Object { .. }
        | ScopedExpr::Address { .. }
        | ScopedExpr::Constant { .. }
        | ScopedExpr::Null { .. }
        | ScopedExpr::Text { .. }
        | ScopedExpr::Paren { .. }
        | ScopedExpr::Unary { .. }
        | ScopedExpr::Cast { .. }
        | ScopedExpr::Binary { .. }
        | ScopedExpr::Choose { .. }
        | ScopedExpr::Call { .. } => stops(),
    }
}

/// The write of a local by an assignment.
pub fn writing_writes(
    e: &ScopedExpr,
    element: u32,
    value: u32,
    locals: &mut Locals,
) -> Result<(), Memory>
    ensures { IfOk result (λ _. locals_of locals.new ≡ spec.writing_locals (scoped_expression e.now) element value (locals_of locals.old)) }
{
    match e {
        ScopedExpr::Assign { target, .. } => write_local(target.object, element, value, locals),
        ScopedExpr::Step { .. }
        | ScopedExpr::Object { .. }
        | ScopedExpr::Address { .. }
        | ScopedExpr::Constant { .. }
        | ScopedExpr::Null { .. }
        | ScopedExpr::Text { .. }
        | ScopedExpr::Paren { .. }
        | ScopedExpr::Unary { .. }
        | ScopedExpr::Cast { .. }
        | ScopedExpr::Binary { .. }
        | ScopedExpr::Choose { .. }
        | ScopedExpr::Call { .. } => Ok(()),
    }
}

/// An assignment with an operator behind its operand.
pub fn operand_move(e: &ScopedExpr, element: u32, old: u32, b: u32) -> Move
    ensures { move_of result ≡ spec.operand_move (scoped_expression e.now) element old b }
{
    match e {
        ScopedExpr::Assign {
            line,
            op,
            target,
            value,
            ..
        } => match op {
            None => stops(),
            Some(op) => {
                let kind = kind_of_object(target.object);
                let right = kind_of(value);
                let divisor = right_operand(*op, kind, right, b);
                let value = assigned(*op, kind, right, old, b);
                divide_move(
                    is_division(*op),
                    *line,
                    divisor,
                    Stage::Writing { element, value },
                )
            }
        },
        ScopedExpr::Step { .. }
        | ScopedExpr::Object { .. }
        | ScopedExpr::Address { .. }
        | ScopedExpr::Constant { .. }
        | ScopedExpr::Null { .. }
        | ScopedExpr::Text { .. }
        | ScopedExpr::Paren { .. }
        | ScopedExpr::Unary { .. }
        | ScopedExpr::Cast { .. }
        | ScopedExpr::Binary { .. }
        | ScopedExpr::Choose { .. }
        | ScopedExpr::Call { .. } => stops(),
    }
}

/// An operator behind its left operand.
fn left_move(op: Binary, a: u32) -> Move
    ensures { move_of result ≡ spec.left_move op a }
{
    match op {
        Binary::Both => {
            if a == 0 {
                settles(0)
            } else {
                Move::Enters {
                    stage: Stage::Second { a },
                }
            }
        }
        Binary::Either => {
            if a == 0 {
                Move::Enters {
                    stage: Stage::Second { a },
                }
            } else {
                settles(1)
            }
        }
        Binary::Mul
        | Binary::Div
        | Binary::Rem
        | Binary::Add
        | Binary::Sub
        | Binary::Shl
        | Binary::Shr
        | Binary::Lt
        | Binary::Gt
        | Binary::Le
        | Binary::Ge
        | Binary::Eq
        | Binary::Ne
        | Binary::BitAnd
        | Binary::BitXor
        | Binary::BitOr => Move::Enters {
            stage: Stage::Second { a },
        },
    }
}

/// The branch of a test with this value.
fn chosen_move(a: u32) -> Move
    ensures { move_of result ≡ spec.chosen_move (is_true a) }
{
    if a == 0 {
        Move::Enters {
            stage: Stage::Other,
        }
    } else {
        Move::Enters {
            stage: Stage::Taken,
        }
    }
}

/// A node behind its first operand.
pub fn first_move(e: &ScopedExpr, a: u32) -> Move
    ensures { move_of result ≡ spec.first_move (scoped_expression e.now) a }
{
    match e {
        ScopedExpr::Paren { .. } => settles(a),
        ScopedExpr::Unary { op, of, kind, .. } => {
            settles(unary_operated(*op, kind_of(of), kind_or(*kind), a))
        }
        ScopedExpr::Cast { of, kind, .. } => settles(converted(a, kind_of(of), kind_or(*kind))),
        ScopedExpr::Binary { op, .. } => left_move(*op, a),
        ScopedExpr::Choose { .. } => chosen_move(a),
        ScopedExpr::Assign { .. }
        | ScopedExpr::Step { .. }
        | ScopedExpr::Object { .. }
        | ScopedExpr::Address { .. }
        | ScopedExpr::Constant { .. }
        | ScopedExpr::Null { .. }
        | ScopedExpr::Text { .. }
        | ScopedExpr::Call { .. } => stops(),
    }
}

/// An operator behind both operands, of these kinds.
fn right_move(op: Binary, line: u32, left: IntType, right: IntType, a: u32, b: u32) -> Move
    ensures { move_of result ≡ spec.right_move op line left right a b }
{
    match op {
        Binary::Both | Binary::Either => settles(u32::from(b != 0)),
        Binary::Mul
        | Binary::Div
        | Binary::Rem
        | Binary::Add
        | Binary::Sub
        | Binary::Shl
        | Binary::Shr
        | Binary::Lt
        | Binary::Gt
        | Binary::Le
        | Binary::Ge
        | Binary::Eq
        | Binary::Ne
        | Binary::BitAnd
        | Binary::BitXor
        | Binary::BitOr => {
            let divisor = right_operand(op, left, right, b);
            let value = operated(op, left, right, a, b);
            divide_move(is_division(op), line, divisor, Stage::Settled { value })
        }
    }
}

/// A node behind both operands.
pub fn second_move(e: &ScopedExpr, a: u32, b: u32) -> Move
    ensures { move_of result ≡ spec.second_move (scoped_expression e.now) a b }
{
    match e {
        ScopedExpr::Binary {
            line,
            op,
            left,
            right,
            ..
        } => { right_move(*op, *line, kind_of(left), kind_of(right), a, b) }
        ScopedExpr::Paren { .. }
        | ScopedExpr::Unary { .. }
        | ScopedExpr::Cast { .. }
        | ScopedExpr::Choose { .. }
        | ScopedExpr::Assign { .. }
        | ScopedExpr::Step { .. }
        | ScopedExpr::Object { .. }
        | ScopedExpr::Address { .. }
        | ScopedExpr::Constant { .. }
        | ScopedExpr::Null { .. }
        | ScopedExpr::Text { .. }
        | ScopedExpr::Call { .. } => stops(),
    }
}

/// A node behind the branch that was taken.
pub fn branch_move(taken: bool, e: &ScopedExpr, a: u32) -> Move
    ensures { move_of result ≡ spec.branch_move taken (scoped_expression e.now) a }
{
    match e {
        ScopedExpr::Choose { yes, no, kind, .. } => {
            if taken {
                settles(converted(a, kind_of(yes), kind_or(*kind)))
            } else {
                settles(converted(a, kind_of(no), kind_or(*kind)))
            }
        }
        ScopedExpr::Binary { .. }
        | ScopedExpr::Paren { .. }
        | ScopedExpr::Unary { .. }
        | ScopedExpr::Cast { .. }
        | ScopedExpr::Assign { .. }
        | ScopedExpr::Step { .. }
        | ScopedExpr::Object { .. }
        | ScopedExpr::Address { .. }
        | ScopedExpr::Constant { .. }
        | ScopedExpr::Null { .. }
        | ScopedExpr::Text { .. }
        | ScopedExpr::Call { .. } => stops(),
    }
}
