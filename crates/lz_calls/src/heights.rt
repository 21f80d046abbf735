ghost use Rattle.std.specs.Prelude.{ℕ, ◌≡◌, ◌<◌, suc, max, map, length, option_map, slice_index, slice_get, IfOk};
ghost use Rattle.lz_tree.specs.ScopedTrees.{scoped_expression, scoped_expressions_of, scoped_index_of, scoped_initializer, scoped_declarator, scoped_declaration, scoped_statement, scoped_statements_of, scoped_branch_of, scoped_definition};
ghost use Rattle.lz_calls.specs.Calls as spec;
ghost use Rattle.lz_calls.specs.Heights as exact;
ghost use Rattle.lz_calls.specs.Heights.{capped, counts_at, height_at_rank};
ghost use Rattle.lz_calls.specs.Ranks.{IsRanking, IsRankOrder};
ghost use Rattle.lz_calls.specs.Calls.{graph_of};

use crate::ranks::rank_at;
use lz_base::Memory;
use lz_tree::{
    Object, ScopedDeclarator, ScopedExpr, ScopedFirst, ScopedFunction, ScopedObjects, ScopedStmt,
    ScopedTarget,
};
use std::alloc::Global;

/// What the height of a tree is taken with: the ranks of the functions, the rank of the one that it belongs to, and
/// the heights of the bodies that are known.
#[derive(Clone, Copy)]
struct Levels<'a> {
    ranks: &'a [u64],
    own: u64,
    heights: &'a [u32],
}

/// One more, up to the greatest number.
fn above(height: u32) -> u32
    ensures { result ≡ capped (suc height) }
{
    height.saturating_add(1)
}

fn higher(a: u32, b: u32) -> u32
    ensures { result ≡ max a b }
{
    if a < b { b } else { a }
}

/// The height of a function's body, and 0 for a number that no function has.
fn height_at(heights: &[u32], function: u32) -> u32
    ensures { result ≡ slice_index heights.now function }
{
    match heights.get(function as usize) {
        Some(height) => *height,
        None => 0,
    }
}

fn counted(levels: &Levels, function: u32) -> u32
    ensures { result ≡ counts_at levels.now.ranks.now levels.now.own (slice_index levels.now.heights.now) function }
{
    if rank_at(levels.ranks, function) == levels.own {
        0
    } else {
        height_at(levels.heights, function)
    }
}

fn callee_height(levels: &Levels, callee: Object) -> u32
    ensures { result ≡ capped (spec.height_called (counts_at levels.now.ranks.now levels.now.own (slice_index levels.now.heights.now)) callee) }
{
    match callee {
        Object::Routine { function } => counted(levels, function),
        _ => 0,
    }
}

#[cycle(expression_height)]
#[tactic(auto, unfolding(crate::specs::Calls::height_in_index))]
fn index_height(levels: &Levels, target: &ScopedTarget) -> u32
    ensures { result ≡ capped (spec.height_in_index (counts_at levels.now.ranks.now levels.now.own (slice_index levels.now.heights.now)) (scoped_index_of target.now.index)) }
{
    match &target.index {
        None => 0,
        Some(index) => expression_height(levels, index),
    }
}

#[cycle(expression_height)]
#[tactic(auto, unfolding(crate::specs::Calls::height_in_all))]
fn expressions_height(levels: &Levels, items: &[ScopedExpr]) -> u32
    ensures { result ≡ capped (spec.height_in_all (counts_at levels.now.ranks.now levels.now.own (slice_index levels.now.heights.now)) (scoped_expressions_of (map scoped_expression items.now))) }
{
    let mut top = 0;
    for item in items {
        top = higher(top, expression_height(levels, item));
    }
    top
}

#[cycle(expression_height)]
fn call_height(levels: &Levels, callee: Object, args: &[ScopedExpr]) -> u32
    ensures { result ≡ capped (suc (max (spec.height_in_all (counts_at levels.now.ranks.now levels.now.own (slice_index levels.now.heights.now)) (scoped_expressions_of (map scoped_expression args.now))) (spec.height_called (counts_at levels.now.ranks.now levels.now.own (slice_index levels.now.heights.now)) callee))) }
{
    let args = expressions_height(levels, args);
    above(higher(args, callee_height(levels, callee)))
}

#[cycle(expression_height)]
#[tactic(auto, unfolding(crate::specs::Calls::height_in, crate::specs::Calls::height_at, crate::specs::Calls::height_in_index))]
fn expression_height(levels: &Levels, e: &ScopedExpr) -> u32
    ensures { result ≡ capped (spec.height_in (counts_at levels.now.ranks.now levels.now.own (slice_index levels.now.heights.now)) (scoped_expression e.now)) }
{
    match e {
        ScopedExpr::Constant { .. } | ScopedExpr::Null { .. } | ScopedExpr::Text { .. } => 1,
        ScopedExpr::Object { target, .. } => above(index_height(levels, target)),
        ScopedExpr::Address { target, .. } => above(index_height(levels, target)),
        ScopedExpr::Step { target, .. } => above(index_height(levels, target)),
        ScopedExpr::Paren { inner, .. } => above(expression_height(levels, inner)),
        ScopedExpr::Unary { of, .. } => above(expression_height(levels, of)),
        ScopedExpr::Cast { of, .. } => above(expression_height(levels, of)),
        ScopedExpr::Binary { left, right, .. } => {
            let left = expression_height(levels, left);
            above(higher(left, expression_height(levels, right)))
        }
        ScopedExpr::Choose { test, yes, no, .. } => {
            let test = expression_height(levels, test);
            let yes = expression_height(levels, yes);
            above(higher(test, higher(yes, expression_height(levels, no))))
        }
        ScopedExpr::Assign { target, value, .. } => {
            let index = index_height(levels, target);
            above(higher(index, expression_height(levels, value)))
        }
        ScopedExpr::Call { callee, args, .. } => call_height(levels, *callee, args),
    }
}

fn optional_height(levels: &Levels, e: &Option<ScopedExpr>) -> u32
    ensures { result ≡ capped (spec.height_in_optional (counts_at levels.now.ranks.now levels.now.own (slice_index levels.now.heights.now)) (option_map scoped_expression e.now)) }
{
    match e {
        None => 0,
        Some(e) => expression_height(levels, e),
    }
}

fn initializer_height(levels: &Levels, first: &ScopedFirst) -> u32
    ensures { result ≡ capped (spec.height_in_initializer (counts_at levels.now.ranks.now levels.now.own (slice_index levels.now.heights.now)) (scoped_initializer first.now)) }
{
    match first {
        ScopedFirst::Nothing => 0,
        ScopedFirst::Value { value } => expression_height(levels, value),
        ScopedFirst::Listed { values } => above(expressions_height(levels, values)),
    }
}

fn declarator_height(levels: &Levels, declarator: &ScopedDeclarator) -> u32
    ensures { result ≡ capped (max (spec.height_in_optional (counts_at levels.now.ranks.now levels.now.own (slice_index levels.now.heights.now)) (scoped_declarator declarator.now).length) (spec.height_in_initializer (counts_at levels.now.ranks.now levels.now.own (slice_index levels.now.heights.now)) (scoped_declarator declarator.now).first)) }
{
    let length = optional_height(levels, &declarator.length);
    higher(length, initializer_height(levels, &declarator.first))
}

fn declaration_height(levels: &Levels, objects: &ScopedObjects) -> u32
    ensures { result ≡ capped (spec.height_in_declarators (counts_at levels.now.ranks.now levels.now.own (slice_index levels.now.heights.now)) (scoped_declaration objects.now).declarators) }
{
    let items = objects.declarators.items();
    let mut top = 0;
    for item in items {
        top = higher(top, declarator_height(levels, item));
    }
    top
}

#[cycle(statement_height)]
#[tactic(auto, unfolding(crate::specs::Calls::height_of_branch))]
fn branch_height(levels: &Levels, branch: &Option<Box<ScopedStmt>>) -> u32
    ensures { result ≡ capped (spec.height_of_branch (counts_at levels.now.ranks.now levels.now.own (slice_index levels.now.heights.now)) (scoped_branch_of branch.now)) }
{
    match branch {
        None => 0,
        Some(s) => statement_height(levels, s),
    }
}

#[cycle(statement_height)]
#[tactic(auto, unfolding(crate::specs::Calls::height_of_all))]
fn parts_height(levels: &Levels, items: &[ScopedStmt]) -> u32
    ensures { result ≡ capped (spec.height_of_all (counts_at levels.now.ranks.now levels.now.own (slice_index levels.now.heights.now)) (scoped_statements_of (map scoped_statement items.now))) }
{
    let mut top = 0;
    for item in items {
        top = higher(top, statement_height(levels, item));
    }
    top
}

/// The height of a statement with the bodies that its calls count.
#[cycle(statement_height)]
#[tactic(auto, unfolding(crate::specs::Calls::height_of))]
fn statement_height(levels: &Levels, s: &ScopedStmt) -> u32
    ensures { result ≡ capped (spec.height_of (counts_at levels.now.ranks.now levels.now.own (slice_index levels.now.heights.now)) (scoped_statement s.now)) }
{
    match s {
        ScopedStmt::Empty | ScopedStmt::Break { .. } | ScopedStmt::Continue { .. } => 1,
        ScopedStmt::Eval { value } => above(expression_height(levels, value)),
        ScopedStmt::Block { parts } => above(parts_height(levels, parts)),
        ScopedStmt::Declare { of } => above(declaration_height(levels, of)),
        ScopedStmt::If { test, yes, no, .. } => {
            let test = expression_height(levels, test);
            let yes = statement_height(levels, yes);
            above(higher(test, higher(yes, branch_height(levels, no))))
        }
        ScopedStmt::While { test, body, .. } => {
            let test = expression_height(levels, test);
            above(higher(test, statement_height(levels, body)))
        }
        ScopedStmt::Do { body, test, .. } => {
            let body = statement_height(levels, body);
            above(higher(body, expression_height(levels, test)))
        }
        ScopedStmt::For {
            first,
            test,
            step,
            body,
            ..
        } => {
            let first = statement_height(levels, first);
            let test = optional_height(levels, test);
            let step = optional_height(levels, step);
            let turn = higher(step, statement_height(levels, body));
            above(higher(first, higher(test, turn)))
        }
        ScopedStmt::Return { value, .. } => above(optional_height(levels, value)),
        ScopedStmt::Label { of, .. } => above(statement_height(levels, of)),
    }
}

/// The height of one function's body, from those of the functions that it calls.
fn body_height(functions: &[ScopedFunction], function: u32, ranks: &[u64], heights: &[u32]) -> u32
    ensures { result ≡ capped (exact.body_height ranks.now (slice_index heights.now) function (slice_get (map scoped_definition functions.now) function)) }
{
    match functions.get(function as usize) {
        None => 0,
        Some(f) => statement_height(
            &Levels {
                ranks,
                own: rank_at(ranks, function),
                heights,
            },
            &f.body,
        ),
    }
}

/// The height of each function's body with those that it calls, each walked once, in an order of ranks. Heights stop at
/// the greatest number.
pub fn heights(
    alloc: Global,
    functions: &[ScopedFunction],
    ranks: &[u64],
    order: &[u32],
) -> Result<Vec<u32>, Memory>
    requires ranking { IsRanking (graph_of (map scoped_definition functions.now)) ranks.now }
    requires order { IsRankOrder (length (map scoped_definition functions.now)) ranks.now order.now }
    ensures { IfOk result (λ v. (length v.items ≡ length functions.now) × ((f : ℕ) → f < length (map scoped_definition functions.now) → slice_index v.items f ≡ capped (height_at_rank (map scoped_definition functions.now) ranks.now f))) }
{
    let mut heights = vec![in alloc; 0; functions.len()]?;
    for function in order {
        let height = body_height(functions, *function, ranks, &heights);
        heights[*function as usize] = height;
    }
    Ok(heights)
}
