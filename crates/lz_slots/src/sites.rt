ghost use Rattle.std.specs.Prelude.{ℕ, ◌≡◌, ◌+◌, ◌*◌, ◌<◌, ◌^◌, Option, option_map, map, slice_index};
ghost use Rattle.lz_tree.specs.ScopedTrees.{scoped_expression, scoped_expressions_of, scoped_index_of, scoped_initializer, scoped_declarator, scoped_declaration, scoped_statement, scoped_statements_of, scoped_branch_of};
ghost use Rattle.lz_slots.specs.Nesting.{saturated};
ghost use Rattle.lz_slots.specs.Slots as slots;
ghost use Rattle.lz_slots.specs.Walking.{weight_of, site_rates_of};

use crate::costs::number_at;
use crate::saturate::{plus, times};
use crate::table::THREAD;
use lz_tree::{
    KnownName, Object, ScopedDeclarator, ScopedExpr, ScopedFirst, ScopedObjects, ScopedStmt,
    ScopedTarget,
};

/// What a create site counts.
#[derive(Clone, Copy, Debug, PartialEq, Eq)]
pub enum SiteWeight {
    /// 1.
    One,
    /// The cost of the thread that it starts.
    Thread,
}

/// What the create sites of a tree are counted with: the turns of a loop, what a site counts, the cost of each
/// function's body, and the sites in each function's body.
#[derive(Clone, Copy)]
pub struct SiteRates<'a> {
    pub turns: u64,
    pub weight: SiteWeight,
    pub costs: &'a [u64],
    pub bodies: &'a [u64],
}

/// The number of a site that starts a function.
fn site_number(weight: SiteWeight, costs: &[u64], function: u32) -> u64
    ensures { result ≡ saturated (weight_of weight costs.now function) }
{
    match weight {
        SiteWeight::One => 1,
        SiteWeight::Thread => plus(THREAD, number_at(costs, function)),
    }
}

/// The function that an argument names.
fn named_function(argument: &ScopedExpr) -> u32
    ensures { result ≡ slots.named_function (scoped_expression argument.now) }
{
    match argument {
        ScopedExpr::Object { target, .. } => function_of(target.object),
        _ => 0,
    }
}

fn function_of(object: Object) -> u32
    ensures { result ≡ slots.function_of object }
{
    match object {
        Object::Routine { function } => function,
        _ => 0,
    }
}

/// The function that a create starts, which is its third argument.
fn start_of(args: &[ScopedExpr]) -> u32
    ensures { result ≡ slots.start_of (scoped_expressions_of (map scoped_expression args.now)) }
{
    match args {
        [_, _, start, ..] => named_function(start),
        _ => 0,
    }
}

fn known_sites(rates: &SiteRates, name: KnownName, args: &[ScopedExpr]) -> u64
    ensures { result ≡ saturated (slots.known_sites (site_rates_of rates.now.turns rates.now.weight rates.now.costs.now rates.now.bodies.now) name (scoped_expressions_of (map scoped_expression args.now))) }
{
    match name {
        KnownName::Create => site_number(rates.weight, rates.costs, start_of(args)),
        _ => 0,
    }
}

fn callee_sites(rates: &SiteRates, callee: Object, args: &[ScopedExpr]) -> u64
    ensures { result ≡ saturated (slots.callee_sites (site_rates_of rates.now.turns rates.now.weight rates.now.costs.now rates.now.bodies.now) callee (scoped_expressions_of (map scoped_expression args.now))) }
{
    match callee {
        Object::Routine { function } => plus(0, number_at(rates.bodies, function)),
        Object::Known { name } => known_sites(rates, name, args),
        _ => 0,
    }
}

#[cycle(expression_sites)]
fn index_sites(rates: &SiteRates, target: &ScopedTarget) -> u64
    ensures { result ≡ saturated (slots.index_sites (site_rates_of rates.now.turns rates.now.weight rates.now.costs.now rates.now.bodies.now) (scoped_index_of target.now.index)) }
{
    match &target.index {
        None => 0,
        Some(index) => expression_sites(rates, index),
    }
}

#[cycle(expression_sites)]
fn expressions_sites(rates: &SiteRates, items: &[ScopedExpr]) -> u64
    ensures { result ≡ saturated (slots.expressions_sites (site_rates_of rates.now.turns rates.now.weight rates.now.costs.now rates.now.bodies.now) (scoped_expressions_of (map scoped_expression items.now))) }
{
    let mut sum = 0;
    for item in items {
        sum = plus(sum, expression_sites(rates, item));
    }
    sum
}

#[cycle(expression_sites)]
fn call_sites(rates: &SiteRates, callee: Object, args: &[ScopedExpr]) -> u64
    ensures { result ≡ saturated (slots.callee_sites (site_rates_of rates.now.turns rates.now.weight rates.now.costs.now rates.now.bodies.now) callee (scoped_expressions_of (map scoped_expression args.now)) + slots.expressions_sites (site_rates_of rates.now.turns rates.now.weight rates.now.costs.now rates.now.bodies.now) (scoped_expressions_of (map scoped_expression args.now))) }
{
    plus(
        callee_sites(rates, callee, args),
        expressions_sites(rates, args),
    )
}

#[cycle(expression_sites)]
fn expression_sites(rates: &SiteRates, e: &ScopedExpr) -> u64
    ensures { result ≡ saturated (slots.expression_sites (site_rates_of rates.now.turns rates.now.weight rates.now.costs.now rates.now.bodies.now) (scoped_expression e.now)) }
{
    match e {
        ScopedExpr::Constant { .. } | ScopedExpr::Null { .. } | ScopedExpr::Text { .. } => 0,
        ScopedExpr::Object { target, .. }
        | ScopedExpr::Address { target, .. }
        | ScopedExpr::Step { target, .. } => { index_sites(rates, target) }
        ScopedExpr::Paren { inner, .. } => expression_sites(rates, inner),
        ScopedExpr::Unary { of, .. } | ScopedExpr::Cast { of, .. } => expression_sites(rates, of),
        ScopedExpr::Binary { left, right, .. } => plus(
            expression_sites(rates, left),
            expression_sites(rates, right),
        ),
        ScopedExpr::Choose { test, yes, no, .. } => {
            let either = plus(expression_sites(rates, yes), expression_sites(rates, no));
            plus(expression_sites(rates, test), either)
        }
        ScopedExpr::Assign { target, value, .. } => {
            let index = index_sites(rates, target);
            plus(index, expression_sites(rates, value))
        }
        ScopedExpr::Call { callee, args, .. } => call_sites(rates, *callee, args),
    }
}

fn optional_sites(rates: &SiteRates, e: &Option<ScopedExpr>) -> u64
    ensures { result ≡ saturated (slots.optional_sites (site_rates_of rates.now.turns rates.now.weight rates.now.costs.now rates.now.bodies.now) (option_map scoped_expression e.now)) }
{
    match e {
        None => 0,
        Some(e) => expression_sites(rates, e),
    }
}

fn initializer_sites(rates: &SiteRates, first: &ScopedFirst) -> u64
    ensures { result ≡ saturated (slots.initializer_sites (site_rates_of rates.now.turns rates.now.weight rates.now.costs.now rates.now.bodies.now) (scoped_initializer first.now)) }
{
    match first {
        ScopedFirst::Nothing => 0,
        ScopedFirst::Value { value } => expression_sites(rates, value),
        ScopedFirst::Listed { values } => expressions_sites(rates, values),
    }
}

fn declarator_sites(rates: &SiteRates, declarator: &ScopedDeclarator) -> u64
    ensures { result ≡ saturated (slots.declarator_sites (site_rates_of rates.now.turns rates.now.weight rates.now.costs.now rates.now.bodies.now) (scoped_declarator declarator.now)) }
{
    plus(
        optional_sites(rates, &declarator.length),
        initializer_sites(rates, &declarator.first),
    )
}

fn declaration_sites(rates: &SiteRates, objects: &ScopedObjects) -> u64
    ensures { result ≡ saturated (slots.declarators_sites (site_rates_of rates.now.turns rates.now.weight rates.now.costs.now rates.now.bodies.now) (scoped_declaration objects.now).declarators) }
{
    let items = objects.declarators.items();
    let mut sum = 0;
    for item in items {
        sum = plus(sum, declarator_sites(rates, item));
    }
    sum
}

/// The sites of so many turns.
fn turns_sites(turns: u64, turn: u64) -> u64
    ensures { (exact : ℕ) → turn ≡ saturated exact → result ≡ saturated (turns * exact) }
{
    times(turns, turn)
}

#[cycle(statement_sites)]
fn branch_sites(rates: &SiteRates, branch: &Option<Box<ScopedStmt>>) -> u64
    ensures { result ≡ saturated (slots.branch_sites (site_rates_of rates.now.turns rates.now.weight rates.now.costs.now rates.now.bodies.now) (scoped_branch_of branch.now)) }
{
    match branch {
        None => 0,
        Some(s) => statement_sites(rates, s),
    }
}

#[cycle(statement_sites)]
fn parts_sites(rates: &SiteRates, items: &[ScopedStmt]) -> u64
    ensures { result ≡ saturated (slots.statements_sites (site_rates_of rates.now.turns rates.now.weight rates.now.costs.now rates.now.bodies.now) (scoped_statements_of (map scoped_statement items.now))) }
{
    let mut sum = 0;
    for item in items {
        sum = plus(sum, statement_sites(rates, item));
    }
    sum
}

/// The create sites in a statement: a loop counts its test, body and step once a turn, and the test of a `while` or
/// `for` once more.
#[cycle(statement_sites)]
pub fn statement_sites(rates: &SiteRates, s: &ScopedStmt) -> u64
    ensures { result ≡ saturated (slots.statement_sites (site_rates_of rates.now.turns rates.now.weight rates.now.costs.now rates.now.bodies.now) (scoped_statement s.now)) }
{
    match s {
        ScopedStmt::Empty | ScopedStmt::Break { .. } | ScopedStmt::Continue { .. } => 0,
        ScopedStmt::Eval { value } => expression_sites(rates, value),
        ScopedStmt::Block { parts } => parts_sites(rates, parts),
        ScopedStmt::Declare { of } => declaration_sites(rates, of),
        ScopedStmt::If { test, yes, no, .. } => {
            let either = plus(statement_sites(rates, yes), branch_sites(rates, no));
            plus(expression_sites(rates, test), either)
        }
        ScopedStmt::While { test, body, .. } => {
            let test = expression_sites(rates, test);
            plus(
                turns_sites(rates.turns, plus(test, statement_sites(rates, body))),
                test,
            )
        }
        ScopedStmt::Do { body, test, .. } => {
            let turn = plus(statement_sites(rates, body), expression_sites(rates, test));
            turns_sites(rates.turns, turn)
        }
        ScopedStmt::For {
            first,
            test,
            step,
            body,
            ..
        } => {
            let test = optional_sites(rates, test);
            let turn = plus(
                test,
                plus(statement_sites(rates, body), optional_sites(rates, step)),
            );
            plus(
                statement_sites(rates, first),
                plus(turns_sites(rates.turns, turn), test),
            )
        }
        ScopedStmt::Return { value, .. } => optional_sites(rates, value),
        ScopedStmt::Label { of, .. } => statement_sites(rates, of),
    }
}
