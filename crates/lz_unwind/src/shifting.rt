ghost use Rattle.std.specs.Prelude.{◌≡◌, ◌+◌, map, IfOk};
ghost use Rattle.lz_tree.specs.ScopedTrees.{scoped_expression, scoped_expressions_of, scoped_index_of, scoped_target};
ghost use Rattle.lz_tree.specs.ScopedTrees as scoped;
ghost use Rattle.lz_unwind.specs.Moved as spec;

use lz_base::{Binary, IntType, Memory};
use lz_tree::{Object, ScopedExpr, ScopedExprs, ScopedTarget};
use std::alloc::Global;

/// A sum that fits.
pub fn sum_of(a: u32, b: u32) -> Result<u32, Memory>
    ensures { IfOk result (λ n. n ≡ a + b) }
{
    match a.checked_add(b) {
        None => Err(Memory),
        Some(sum) => Ok(sum),
    }
}

/// The object, if it is a local so many numbers on.
pub fn moved(by: u32, object: Object) -> Result<Object, Memory>
    ensures { IfOk result (λ x. x ≡ spec.moved by object) }
{
    match object {
        Object::Local { first, len, kind } => {
            let first = sum_of(by, first)?;
            Ok(Object::Local { first, len, kind })
        }
        Object::Cell { first, len, kind } => Ok(Object::Cell { first, len, kind }),
        Object::Mutex { first, len } => Ok(Object::Mutex { first, len }),
        Object::Cond { first, len } => Ok(Object::Cond { first, len }),
        Object::Handle { first, len } => Ok(Object::Handle { first, len }),
        Object::Routine { function } => Ok(Object::Routine { function }),
        Object::Known { name } => Ok(Object::Known { name }),
    }
}

/// A read of an object.
pub fn object_of(target: ScopedTarget, kind: Option<IntType>) -> ScopedExpr
    ensures { scoped_expression result ≡ scoped.object (scoped_target target) kind }
{
    ScopedExpr::Object { target, kind }
}

/// The address of an object.
pub fn address_of(line: u32, target: ScopedTarget, kind: Option<IntType>) -> ScopedExpr
    ensures { scoped_expression result ≡ scoped.address line (scoped_target target) kind }
{
    ScopedExpr::Address { line, target, kind }
}

/// An assignment to an object.
pub fn assign_of(
    line: u32,
    op: Option<Binary>,
    target: ScopedTarget,
    value: Box<ScopedExpr>,
    kind: Option<IntType>,
) -> ScopedExpr
    ensures { scoped_expression result ≡ scoped.assign line op (scoped_target target) (scoped_expression value.value) kind }
{
    ScopedExpr::Assign {
        line,
        op,
        target,
        value,
        kind,
    }
}

/// A step of an object.
pub fn step_of(
    line: u32,
    target: ScopedTarget,
    up: bool,
    before: bool,
    kind: Option<IntType>,
) -> ScopedExpr
    ensures { scoped_expression result ≡ scoped.step line (scoped_target target) up before kind }
{
    ScopedExpr::Step {
        line,
        target,
        up,
        before,
        kind,
    }
}

/// A call.
pub fn call_of(line: u32, callee: Object, args: ScopedExprs, kind: Option<IntType>) -> ScopedExpr
    ensures { scoped_expression result ≡ scoped.call line callee (scoped_expressions_of (map scoped_expression args.items)) kind }
{
    ScopedExpr::Call {
        line,
        callee,
        args,
        kind,
    }
}

#[cycle(shift)]
fn shift_target(alloc: Global, by: u32, target: &ScopedTarget) -> Result<ScopedTarget, Memory>
    ensures { IfOk result (λ t. scoped_target t ≡ scoped.lvalue target.now.line (spec.moved by target.now.object) (spec.shift_index by (scoped_index_of target.now.index)) target.now.checked) }
{
    let line = target.line;
    let checked = target.checked;
    let object = moved(by, target.object)?;
    match &target.index {
        None => Ok(ScopedTarget {
            line,
            object,
            index: None,
            checked,
        }),
        Some(index) => {
            let index = shift_boxed(alloc, by, index)?;
            Ok(ScopedTarget {
                line,
                object,
                index: Some(index),
                checked,
            })
        }
    }
}

/// Expressions in a list, each with its locals so many numbers on.
#[cycle(shift)]
pub fn shift_all(alloc: Global, by: u32, args: &[ScopedExpr]) -> Result<ScopedExprs, Memory>
    ensures { IfOk result (λ all. scoped_expressions_of (map scoped_expression all.items) ≡ spec.shift_all by (scoped_expressions_of (map scoped_expression args.now))) }
{
    let mut all = Vec::new(alloc);
    for e in args {
        let shifted = shift(alloc, by, e)?;
        all.push(shifted)?;
    }
    Ok(all)
}

/// The same in a box of its own, as a part of another one.
#[cycle(shift)]
fn shift_boxed(alloc: Global, by: u32, e: &ScopedExpr) -> Result<Box<ScopedExpr>, Memory>
    ensures { IfOk result (λ s. scoped_expression s.value ≡ spec.shift by (scoped_expression e.now)) }
{
    let shifted = shift(alloc, by, e)?;
    let boxed = Box::new(alloc, shifted)?;
    Ok(boxed)
}

/// The expression, with its locals so many numbers on.
#[cycle(shift)]
pub fn shift(alloc: Global, by: u32, e: &ScopedExpr) -> Result<ScopedExpr, Memory>
    ensures { IfOk result (λ s. scoped_expression s ≡ spec.shift by (scoped_expression e.now)) }
{
    match e {
        ScopedExpr::Constant {
            line,
            value,
            form,
            kind,
        } => Ok(ScopedExpr::Constant {
            line: *line,
            value: *value,
            form: *form,
            kind: *kind,
        }),
        ScopedExpr::Null { line, kind } => Ok(ScopedExpr::Null {
            line: *line,
            kind: *kind,
        }),
        ScopedExpr::Text { line, kind } => Ok(ScopedExpr::Text {
            line: *line,
            kind: *kind,
        }),
        ScopedExpr::Object { target, kind } => {
            let target = shift_target(alloc, by, target)?;
            Ok(object_of(target, *kind))
        }
        ScopedExpr::Address { line, target, kind } => {
            let target = shift_target(alloc, by, target)?;
            Ok(address_of(*line, target, *kind))
        }
        ScopedExpr::Paren { line, inner, kind } => {
            let inner = shift_boxed(alloc, by, inner)?;
            Ok(ScopedExpr::Paren {
                line: *line,
                inner,
                kind: *kind,
            })
        }
        ScopedExpr::Unary { line, op, of, kind } => {
            let of = shift_boxed(alloc, by, of)?;
            Ok(ScopedExpr::Unary {
                line: *line,
                op: *op,
                of,
                kind: *kind,
            })
        }
        ScopedExpr::Cast { line, to, of, kind } => {
            let of = shift_boxed(alloc, by, of)?;
            Ok(ScopedExpr::Cast {
                line: *line,
                to: *to,
                of,
                kind: *kind,
            })
        }
        ScopedExpr::Binary {
            line,
            op,
            left,
            right,
            kind,
        } => {
            let left = shift_boxed(alloc, by, left)?;
            let right = shift_boxed(alloc, by, right)?;
            Ok(ScopedExpr::Binary {
                line: *line,
                op: *op,
                left,
                right,
                kind: *kind,
            })
        }
        ScopedExpr::Choose {
            line,
            test,
            yes,
            no,
            kind,
        } => {
            let test = shift_boxed(alloc, by, test)?;
            let yes = shift_boxed(alloc, by, yes)?;
            let no = shift_boxed(alloc, by, no)?;
            Ok(ScopedExpr::Choose {
                line: *line,
                test,
                yes,
                no,
                kind: *kind,
            })
        }
        ScopedExpr::Assign {
            line,
            op,
            target,
            value,
            kind,
        } => {
            let target = shift_target(alloc, by, target)?;
            let value = shift_boxed(alloc, by, value)?;
            Ok(assign_of(*line, *op, target, value, *kind))
        }
        ScopedExpr::Step {
            line,
            target,
            up,
            before,
            kind,
        } => {
            let target = shift_target(alloc, by, target)?;
            Ok(step_of(*line, target, *up, *before, *kind))
        }
        ScopedExpr::Call {
            line,
            callee,
            args,
            kind,
        } => {
            let args = shift_all(alloc, by, args)?;
            Ok(call_of(*line, *callee, args, *kind))
        }
    }
}
