ghost use Rattle.std.specs.Prelude.{ℕ, ◌≡◌, ◌+◌, map, Option};
ghost use Rattle.lz_tree.specs.ScopedTrees.{scoped_expression, scoped_expressions_of, scoped_index_of};
ghost use Rattle.lz_bound.specs.BoundedTrees.{bounded_statement, bounded_statements_of, bounded_program};
ghost use Rattle.lz_bound.specs.Sizes as sizes;

use crate::tree::{Bounded, BoundedStmt};
use lz_tree::{ScopedExpr, ScopedTarget};

/// A sum that stops at the greatest number.
fn plus(a: u64, b: u64) -> u64
    ensures { result ≡ sizes.saturated (a + b) }
{
    a.saturating_add(b)
}

#[cycle(expression_size)]
fn index_size(target: &ScopedTarget) -> u64
    ensures { result ≡ sizes.saturated (sizes.index_size (scoped_index_of target.now.index)) }
{
    match &target.index {
        None => 0,
        Some(index) => expression_size(index),
    }
}

#[cycle(expression_size)]
fn expressions_size(items: &[ScopedExpr]) -> u64
    ensures { result ≡ sizes.saturated (sizes.expressions_size (scoped_expressions_of (map scoped_expression items.now))) }
{
    let mut sum = 0;
    for item in items {
        sum = plus(sum, expression_size(item));
    }
    sum
}

#[cycle(expression_size)]
fn expression_size(e: &ScopedExpr) -> u64
    ensures { result ≡ sizes.saturated (sizes.expression_size (scoped_expression e.now)) }
{
    match e {
        ScopedExpr::Constant { .. } | ScopedExpr::Null { .. } | ScopedExpr::Text { .. } => 1,
        ScopedExpr::Object { target, .. }
        | ScopedExpr::Address { target, .. }
        | ScopedExpr::Step { target, .. } => plus(index_size(target), 1),
        ScopedExpr::Paren { inner, .. } => plus(expression_size(inner), 1),
        ScopedExpr::Unary { of, .. } | ScopedExpr::Cast { of, .. } => plus(expression_size(of), 1),
        ScopedExpr::Binary { left, right, .. } => {
            plus(plus(expression_size(left), expression_size(right)), 1)
        }
        ScopedExpr::Choose { test, yes, no, .. } => {
            let either = plus(expression_size(yes), expression_size(no));
            plus(plus(expression_size(test), either), 1)
        }
        ScopedExpr::Assign { target, value, .. } => {
            let index = index_size(target);
            plus(plus(index, expression_size(value)), 1)
        }
        ScopedExpr::Call { args, .. } => plus(expressions_size(args), 1),
    }
}

#[cycle(statement_size)]
fn parts_size(parts: &[BoundedStmt]) -> u64
    ensures { result ≡ sizes.saturated (sizes.statement_size (bounded_statements_of (map bounded_statement parts.now))) }
{
    let mut sum = 0;
    for part in parts {
        sum = plus(sum, statement_size(part));
    }
    plus(sum, 1)
}

#[cycle(statement_size)]
fn statement_size(s: &BoundedStmt) -> u64
    ensures { result ≡ sizes.saturated (sizes.statement_size (bounded_statement s.now)) }
{
    match s {
        BoundedStmt::Eval { value, .. } => plus(expression_size(value), 1),
        BoundedStmt::Seq { parts } => parts_size(parts),
        BoundedStmt::If { test, yes, no } => {
            let either = plus(statement_size(yes), statement_size(no));
            plus(plus(expression_size(test), either), 1)
        }
        BoundedStmt::Frame { body, .. } => plus(statement_size(body), 1),
        BoundedStmt::Inside { index, .. } => plus(expression_size(index), 1),
        BoundedStmt::Fresh { .. }
        | BoundedStmt::Clear { .. }
        | BoundedStmt::Leave { .. }
        | BoundedStmt::Exit { .. }
        | BoundedStmt::Stuck => 1,
    }
}

/// The number of nodes of a bounded program, statements and expressions, or the greatest number if there are more. It
/// takes no memory but a stack as deep as the tree.
pub fn size(bounded: &Bounded) -> u64
    ensures { result ≡ sizes.saturated (sizes.program_size (bounded_program bounded.now)) }
{
    let mut sum = statement_size(&bounded.main);
    for routine in bounded.routines.items() {
        sum = plus(sum, statement_size(&routine.body));
    }
    sum
}
