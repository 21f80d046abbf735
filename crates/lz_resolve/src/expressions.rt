ghost use Rattle.std.specs.Prelude.{◌≡◌, false, map, None, IfOk};
ghost use Rattle.lz_tree.specs.Trees.{expression, expressions_of, index_of};
ghost use Rattle.lz_tree.specs.ScopedTrees as scoped;
ghost use Rattle.lz_tree.specs.ScopedTrees.{scoped_expression, scoped_expressions_of, scoped_target};
ghost use Rattle.lz_scopes.specs.Names.{nearest};
ghost use Rattle.lz_scopes.specs.ExpressionTypes as types;
ghost use Rattle.lz_resolve.specs.ScopedPrograms as spec;

use lz_base::{IntType, Memory};
use lz_scopes::{Place, ValueType, WholeFile, callee, type_of};
use lz_tree::{Binary, Expr, KnownName, Object, ScopedExpr, ScopedExprs, ScopedTarget, Target};
use std::alloc::Global;

/// The kind of a value, where it is one: a `void *` has the widest unsigned kind.
pub fn value_kind(of: ValueType) -> Option<IntType>
    ensures { result ≡ spec.value_kind of }
{
    match of {
        ValueType::Integer { kind } => Some(kind),
        ValueType::Pointer => Some(IntType::Unsigned),
        _ => None,
    }
}

/// The kind of the value of an expression at the place.
fn kind_at(file: &WholeFile, place: &Place, e: &Expr) -> Option<IntType>
    ensures { result ≡ spec.kind_at file.now place.now (expression e.now) }
{
    value_kind(type_of(file, place, e))
}

/// What stands for a called name, also for one that means nothing.
fn or_nothing(meant: Option<Object>) -> Object
    ensures { result ≡ spec.or_nothing meant }
{
    match meant {
        None => Object::Known {
            name: KnownName::Abort,
        },
        Some(object) => object,
    }
}

/// What stands for a called name at the place.
fn called(file: &WholeFile, place: &Place, name: u32) -> Object
    ensures { result ≡ spec.or_nothing (types.callee file.now place.now name) }
{
    or_nothing(callee(file, place, name))
}

/// What a name means at the place: the nearest object, or the function or known name.
fn meant(file: &WholeFile, place: &Place, name: u32) -> Object
    ensures { result ≡ spec.meant file.now place.now name }
{
    match place.names.nearest(name) {
        None => called(file, place, name),
        Some(entry) => entry.object,
    }
}

/// The kind of a name that is read, which a function has none of.
fn kind_read(file: &WholeFile, place: &Place, name: u32, e: &Expr) -> Option<IntType>
    ensures { result ≡ spec.kind_if (nearest place.now.names name) (spec.kind_at file.now place.now (expression e.now)) }
{
    match place.names.nearest(name) {
        None => None,
        Some(_) => kind_at(file, place, e),
    }
}

/// A read of an object.
fn object_of(target: ScopedTarget, kind: Option<IntType>) -> ScopedExpr
    ensures { scoped_expression result ≡ scoped.object (scoped_target target) kind }
{
    ScopedExpr::Object { target, kind }
}

/// The address of an object.
fn address_of(line: u32, target: ScopedTarget) -> ScopedExpr
    ensures { scoped_expression result ≡ scoped.address line (scoped_target target) None }
{
    ScopedExpr::Address {
        line,
        target,
        kind: None,
    }
}

/// An assignment to an object.
fn assign_of(
    line: u32,
    op: Option<Binary>,
    target: ScopedTarget,
    value: Box<ScopedExpr>,
    kind: Option<IntType>,
) -> ScopedExpr
    ensures { scoped_expression result ≡ scoped.assign line op (scoped_target target) (scoped_expression value.value) kind }
{
    ScopedExpr::Assign {
        line,
        op,
        target,
        value,
        kind,
    }
}

/// A step of an object.
fn step_of(
    line: u32,
    target: ScopedTarget,
    up: bool,
    before: bool,
    kind: Option<IntType>,
) -> ScopedExpr
    ensures { scoped_expression result ≡ scoped.step line (scoped_target target) up before kind }
{
    ScopedExpr::Step {
        line,
        target,
        up,
        before,
        kind,
    }
}

/// A call.
fn call_of(line: u32, callee: Object, args: ScopedExprs, kind: Option<IntType>) -> ScopedExpr
    ensures { scoped_expression result ≡ scoped.call line callee (scoped_expressions_of (map scoped_expression args.items)) kind }
{
    ScopedExpr::Call {
        line,
        callee,
        args,
        kind,
    }
}

/// The object or element that a target is.
#[cycle(resolve)]
#[tactic(auto, unfolding(crate::specs::ScopedPrograms::scope))]
fn resolve_target(
    alloc: Global,
    file: &WholeFile,
    place: &Place,
    target: &Target,
) -> Result<ScopedTarget, Memory>
    ensures { IfOk result (λ t. scoped_target t ≡ scoped.lvalue target.now.line (spec.meant file.now place.now target.now.name) (spec.scope_index file.now place.now (index_of target.now.index)) false) }
{
    let line = target.line;
    let object = meant(file, place, target.name);
    match &target.index {
        None => Ok(ScopedTarget {
            line,
            object,
            index: None,
            checked: false,
        }),
        Some(index) => {
            let index = resolve_boxed(alloc, file, place, index)?;
            Ok(ScopedTarget {
                line,
                object,
                index: Some(index),
                checked: false,
            })
        }
    }
}

/// Expressions at one place, in their order.
#[cycle(resolve)]
#[tactic(auto, unfolding(crate::specs::ScopedPrograms::scope))]
pub fn resolve_all(
    alloc: Global,
    file: &WholeFile,
    place: &Place,
    args: &[Expr],
) -> Result<ScopedExprs, Memory>
    ensures { IfOk result (λ all. scoped_expressions_of (map scoped_expression all.items) ≡ spec.scope_all file.now place.now (expressions_of (map expression args.now))) }
{
    let mut all = Vec::new(alloc);
    for e in args {
        let scoped = resolve_expr(alloc, file, place, e)?;
        all.push(scoped)?;
    }
    Ok(all)
}

/// The same in a box of its own, as a part of another one.
#[cycle(resolve)]
fn resolve_boxed(
    alloc: Global,
    file: &WholeFile,
    place: &Place,
    e: &Expr,
) -> Result<Box<ScopedExpr>, Memory>
    ensures { IfOk result (λ s. scoped_expression s.value ≡ spec.scope file.now place.now (expression e.now)) }
{
    let scoped = resolve_expr(alloc, file, place, e)?;
    let boxed = Box::new(alloc, scoped)?;
    Ok(boxed)
}

/// The expression in which each name is what it means at the place. The kind of a node is found from its parts, as
/// the walk over the rules finds it: the work is the size of the tree times its height at most.
#[cycle(resolve)]
#[tactic(auto, unfolding(crate::specs::ScopedPrograms::scope))]
pub fn resolve_expr(
    alloc: Global,
    file: &WholeFile,
    place: &Place,
    e: &Expr,
) -> Result<ScopedExpr, Memory>
    ensures { IfOk result (λ s. scoped_expression s ≡ spec.scope file.now place.now (expression e.now)) }
{
    let kind = kind_at(file, place, e);
    match e {
        Expr::Constant { line, value, form } => Ok(ScopedExpr::Constant {
            line: *line,
            value: *value,
            form: *form,
            kind,
        }),
        Expr::Null { line } => Ok(ScopedExpr::Null { line: *line, kind }),
        Expr::Text { line } => Ok(ScopedExpr::Text {
            line: *line,
            kind: None,
        }),
        Expr::Object { target } => {
            let read = kind_read(file, place, target.name, e);
            let target = resolve_target(alloc, file, place, target)?;
            Ok(object_of(target, read))
        }
        Expr::Address { line, target } => {
            let target = resolve_target(alloc, file, place, target)?;
            Ok(address_of(*line, target))
        }
        Expr::Paren { line, inner } => {
            let inner = resolve_boxed(alloc, file, place, inner)?;
            Ok(ScopedExpr::Paren {
                line: *line,
                inner,
                kind,
            })
        }
        Expr::Unary { line, op, of } => {
            let of = resolve_boxed(alloc, file, place, of)?;
            Ok(ScopedExpr::Unary {
                line: *line,
                op: *op,
                of,
                kind,
            })
        }
        Expr::Cast { line, to, of } => {
            let of = resolve_boxed(alloc, file, place, of)?;
            Ok(ScopedExpr::Cast {
                line: *line,
                to: *to,
                of,
                kind,
            })
        }
        Expr::Binary {
            line,
            op,
            left,
            right,
        } => {
            let left = resolve_boxed(alloc, file, place, left)?;
            let right = resolve_boxed(alloc, file, place, right)?;
            Ok(ScopedExpr::Binary {
                line: *line,
                op: *op,
                left,
                right,
                kind,
            })
        }
        Expr::Choose {
            line,
            test,
            yes,
            no,
        } => {
            let test = resolve_boxed(alloc, file, place, test)?;
            let yes = resolve_boxed(alloc, file, place, yes)?;
            let no = resolve_boxed(alloc, file, place, no)?;
            Ok(ScopedExpr::Choose {
                line: *line,
                test,
                yes,
                no,
                kind,
            })
        }
        Expr::Assign {
            line,
            op,
            target,
            value,
        } => {
            let target = resolve_target(alloc, file, place, target)?;
            let value = resolve_boxed(alloc, file, place, value)?;
            Ok(assign_of(*line, *op, target, value, kind))
        }
        Expr::Step {
            line,
            target,
            up,
            before,
        } => {
            let target = resolve_target(alloc, file, place, target)?;
            Ok(step_of(*line, target, *up, *before, kind))
        }
        Expr::Call { line, name, args } => {
            let args = resolve_all(alloc, file, place, args)?;
            Ok(call_of(*line, called(file, place, *name), args, kind))
        }
    }
}
