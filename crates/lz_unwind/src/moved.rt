ghost use Rattle.std.specs.Prelude.{◌≡◌, ◌||◌, map};
ghost use Rattle.lz_tree.specs.ScopedTrees.{scoped_expression, scoped_expressions_of, scoped_index_of};
ghost use Rattle.lz_unwind.specs.Moved as spec;

use lz_tree::{Object, ScopedExpr, ScopedTarget};

/// Whether one of two holds.
fn either(a: bool, b: bool) -> bool
    ensures { result ≡ a || b }
{
    a || b
}

/// Whether it is a function of the file.
fn is_routine(object: Object) -> bool
    ensures { result ≡ spec.is_routine object }
{
    matches!(object, Object::Routine { .. })
}

#[cycle(has_call)]
fn index_has_call(target: &ScopedTarget) -> bool
    ensures { result ≡ spec.index_has_call (scoped_index_of target.now.index) }
{
    match &target.index {
        None => false,
        Some(index) => has_call(index),
    }
}

#[cycle(has_call)]
fn all_have_call(items: &[ScopedExpr]) -> bool
    ensures { result ≡ spec.all_have_call (scoped_expressions_of (map scoped_expression items.now)) }
{
    let mut any = false;
    for item in items {
        any = either(any, has_call(item));
    }
    any
}

/// Whether it calls a function of the file.
#[cycle(has_call)]
pub fn has_call(e: &ScopedExpr) -> bool
    ensures { result ≡ spec.has_call (scoped_expression e.now) }
{
    match e {
        ScopedExpr::Constant { .. } | ScopedExpr::Null { .. } | ScopedExpr::Text { .. } => false,
        ScopedExpr::Object { target, .. }
        | ScopedExpr::Address { target, .. }
        | ScopedExpr::Step { target, .. } => index_has_call(target),
        ScopedExpr::Paren { inner, .. } => has_call(inner),
        ScopedExpr::Unary { of, .. } | ScopedExpr::Cast { of, .. } => has_call(of),
        ScopedExpr::Binary { left, right, .. } => either(has_call(left), has_call(right)),
        ScopedExpr::Choose { test, yes, no, .. } => {
            let branch = either(has_call(yes), has_call(no));
            either(has_call(test), branch)
        }
        ScopedExpr::Assign { target, value, .. } => {
            let index = index_has_call(target);
            either(index, has_call(value))
        }
        ScopedExpr::Call { callee, args, .. } => either(is_routine(*callee), all_have_call(args)),
    }
}
