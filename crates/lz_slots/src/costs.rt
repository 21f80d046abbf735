ghost use Rattle.std.specs.Prelude.{ℕ, ◌≡◌, ◌+◌, ◌*◌, ◌<◌, ◌^◌, Option, option_map, map, slice_index};
ghost use Rattle.lz_tree.specs.ScopedTrees.{scoped_expression, scoped_expressions_of, scoped_index_of, scoped_initializer, scoped_declarator, scoped_declaration, scoped_statement, scoped_statements_of, scoped_branch_of};
ghost use Rattle.lz_slots.specs.Nesting.{saturated};
ghost use Rattle.lz_slots.specs.Costs as costs;
ghost use Rattle.lz_slots.specs.Walking.{rates_of};

use crate::saturate::{plus, times};
use crate::table::{
    CAST, CHOOSE, IF, JUMP, TURN, assignment_number, binary_number, call_number, declarator_number,
    known_number, length_of, object_number, step_number, unary_number,
};
use lz_tree::{
    Object, ScopedDeclarator, ScopedExpr, ScopedFirst, ScopedObjects, ScopedStmt, ScopedTarget,
};

/// What the cost of a tree is taken with: the turns of a loop, the number of threads, and the cost of each
/// function's body.
#[derive(Clone, Copy)]
pub struct Rates<'a> {
    pub turns: u64,
    pub threads: u64,
    pub bodies: &'a [u64],
}

/// The number of a function, and 0 for a number that no function has.
pub fn number_at(numbers: &[u64], function: u32) -> u64
    ensures { result ≡ slice_index numbers.now function }
{
    match numbers.get(function as usize) {
        Some(number) => *number,
        None => 0,
    }
}

/// The elements of the object that an argument is, or is the address of.
fn argument_length(argument: &ScopedExpr) -> u32
    ensures { result ≡ costs.argument_length (scoped_expression argument.now) }
{
    match argument {
        ScopedExpr::Object { target, .. } | ScopedExpr::Address { target, .. } => length_of(
            target.object,
        ),
        _ => 1,
    }
}

fn first_length(args: &[ScopedExpr]) -> u32
    ensures { result ≡ costs.first_length (scoped_expressions_of (map scoped_expression args.now)) }
{
    match args {
        [first, ..] => argument_length(first),
        [] => 1,
    }
}

fn second_length(args: &[ScopedExpr]) -> u32
    ensures { result ≡ costs.second_length (scoped_expressions_of (map scoped_expression args.now)) }
{
    match args {
        [_, second, ..] => argument_length(second),
        _ => 1,
    }
}

fn callee_cost(rates: &Rates, callee: Object, args: &[ScopedExpr]) -> u64
    ensures { result ≡ saturated (costs.callee_cost (rates_of rates.now.turns rates.now.threads rates.now.bodies.now) callee (scoped_expressions_of (map scoped_expression args.now))) }
{
    match callee {
        Object::Routine { function } => plus(
            call_number(args.len() as u64),
            number_at(rates.bodies, function),
        ),
        Object::Known { name } => known_number(
            name,
            rates.threads,
            first_length(args),
            second_length(args),
        ),
        _ => 0,
    }
}

#[cycle(expression_cost)]
fn index_cost(rates: &Rates, target: &ScopedTarget) -> u64
    ensures { result ≡ saturated (costs.index_cost (rates_of rates.now.turns rates.now.threads rates.now.bodies.now) (scoped_index_of target.now.index)) }
{
    match &target.index {
        None => 0,
        Some(index) => expression_cost(rates, index),
    }
}

#[cycle(expression_cost)]
fn expressions_cost(rates: &Rates, items: &[ScopedExpr]) -> u64
    ensures { result ≡ saturated (costs.expressions_cost (rates_of rates.now.turns rates.now.threads rates.now.bodies.now) (scoped_expressions_of (map scoped_expression items.now))) }
{
    let mut sum = 0;
    for item in items {
        sum = plus(sum, expression_cost(rates, item));
    }
    sum
}

#[cycle(expression_cost)]
fn call_cost(rates: &Rates, callee: Object, args: &[ScopedExpr]) -> u64
    ensures { result ≡ saturated (costs.callee_cost (rates_of rates.now.turns rates.now.threads rates.now.bodies.now) callee (scoped_expressions_of (map scoped_expression args.now)) + costs.expressions_cost (rates_of rates.now.turns rates.now.threads rates.now.bodies.now) (scoped_expressions_of (map scoped_expression args.now))) }
{
    plus(
        callee_cost(rates, callee, args),
        expressions_cost(rates, args),
    )
}

#[cycle(expression_cost)]
fn expression_cost(rates: &Rates, e: &ScopedExpr) -> u64
    ensures { result ≡ saturated (costs.expression_cost (rates_of rates.now.turns rates.now.threads rates.now.bodies.now) (scoped_expression e.now)) }
{
    match e {
        ScopedExpr::Constant { .. } | ScopedExpr::Null { .. } | ScopedExpr::Text { .. } => 0,
        ScopedExpr::Object { target, .. } => plus(object_number(target), index_cost(rates, target)),
        ScopedExpr::Address { target, .. } => index_cost(rates, target),
        ScopedExpr::Paren { inner, .. } => expression_cost(rates, inner),
        ScopedExpr::Unary { op, of, .. } => plus(unary_number(*op), expression_cost(rates, of)),
        ScopedExpr::Cast { of, .. } => plus(CAST, expression_cost(rates, of)),
        ScopedExpr::Binary {
            op,
            left,
            right,
            ..
        } => {
            let both = plus(expression_cost(rates, left), expression_cost(rates, right));
            plus(binary_number(*op), both)
        }
        ScopedExpr::Choose { test, yes, no, .. } => {
            let either = plus(expression_cost(rates, yes), expression_cost(rates, no));
            plus(CHOOSE, plus(expression_cost(rates, test), either))
        }
        ScopedExpr::Assign {
            op,
            target,
            value,
            ..
        } => {
            let parts = plus(index_cost(rates, target), expression_cost(rates, value));
            plus(assignment_number(*op, target), parts)
        }
        ScopedExpr::Step { target, .. } => plus(step_number(target), index_cost(rates, target)),
        ScopedExpr::Call { callee, args, .. } => call_cost(rates, *callee, args),
    }
}

fn optional_cost(rates: &Rates, e: &Option<ScopedExpr>) -> u64
    ensures { result ≡ saturated (costs.optional_cost (rates_of rates.now.turns rates.now.threads rates.now.bodies.now) (option_map scoped_expression e.now)) }
{
    match e {
        None => 0,
        Some(e) => expression_cost(rates, e),
    }
}

fn initializer_cost(rates: &Rates, first: &ScopedFirst) -> u64
    ensures { result ≡ saturated (costs.initializer_cost (rates_of rates.now.turns rates.now.threads rates.now.bodies.now) (scoped_initializer first.now)) }
{
    match first {
        ScopedFirst::Nothing => 0,
        ScopedFirst::Value { value } => expression_cost(rates, value),
        ScopedFirst::Listed { values } => expressions_cost(rates, values),
    }
}

fn declarator_cost(rates: &Rates, declarator: &ScopedDeclarator) -> u64
    ensures { result ≡ saturated (costs.declarator_cost (rates_of rates.now.turns rates.now.threads rates.now.bodies.now) (scoped_declarator declarator.now)) }
{
    let parts = plus(
        optional_cost(rates, &declarator.length),
        initializer_cost(rates, &declarator.first),
    );
    plus(declarator_number(declarator.object), parts)
}

fn declaration_cost(rates: &Rates, objects: &ScopedObjects) -> u64
    ensures { result ≡ saturated (costs.declarators_cost (rates_of rates.now.turns rates.now.threads rates.now.bodies.now) (scoped_declaration objects.now).declarators) }
{
    let items = objects.declarators.items();
    let mut sum = 0;
    for item in items {
        sum = plus(sum, declarator_cost(rates, item));
    }
    sum
}

/// A loop, from the cost of its test, which stands once more behind the turns, and of its body and step.
fn loop_cost(rates: &Rates, test: u64, body: u64) -> u64
    ensures { (exact_test exact_body : ℕ) → test ≡ saturated exact_test → body ≡ saturated exact_body → result ≡ saturated (costs.loop_cost (rates_of rates.now.turns rates.now.threads rates.now.bodies.now) exact_test exact_body) }
{
    let turns = times(rates.turns, plus(TURN, plus(test, body)));
    plus(turns, plus(TURN, test))
}

#[cycle(statement_cost)]
fn branch_cost(rates: &Rates, branch: &Option<Box<ScopedStmt>>) -> u64
    ensures { result ≡ saturated (costs.branch_cost (rates_of rates.now.turns rates.now.threads rates.now.bodies.now) (scoped_branch_of branch.now)) }
{
    match branch {
        None => 0,
        Some(s) => statement_cost(rates, s),
    }
}

#[cycle(statement_cost)]
fn parts_cost(rates: &Rates, items: &[ScopedStmt]) -> u64
    ensures { result ≡ saturated (costs.statements_cost (rates_of rates.now.turns rates.now.threads rates.now.bodies.now) (scoped_statements_of (map scoped_statement items.now))) }
{
    let mut sum = 0;
    for item in items {
        sum = plus(sum, statement_cost(rates, item));
    }
    sum
}

/// The cost of a statement: its own number and the cost of its parts, those of a loop once a turn.
#[cycle(statement_cost)]
pub fn statement_cost(rates: &Rates, s: &ScopedStmt) -> u64
    ensures { result ≡ saturated (costs.statement_cost (rates_of rates.now.turns rates.now.threads rates.now.bodies.now) (scoped_statement s.now)) }
{
    match s {
        ScopedStmt::Empty => 0,
        ScopedStmt::Break { .. } | ScopedStmt::Continue { .. } => JUMP,
        ScopedStmt::Eval { value } => expression_cost(rates, value),
        ScopedStmt::Block { parts } => parts_cost(rates, parts),
        ScopedStmt::Declare { of } => declaration_cost(rates, of),
        ScopedStmt::If { test, yes, no, .. } => {
            let either = plus(statement_cost(rates, yes), branch_cost(rates, no));
            plus(IF, plus(expression_cost(rates, test), either))
        }
        ScopedStmt::While { test, body, .. } | ScopedStmt::Do { body, test, .. } => {
            loop_cost(
                rates,
                expression_cost(rates, test),
                statement_cost(rates, body),
            )
        }
        ScopedStmt::For {
            first,
            test,
            step,
            body,
            ..
        } => {
            let turn = plus(statement_cost(rates, body), optional_cost(rates, step));
            plus(
                statement_cost(rates, first),
                loop_cost(rates, optional_cost(rates, test), turn),
            )
        }
        ScopedStmt::Return { value, .. } => plus(JUMP, optional_cost(rates, value)),
        ScopedStmt::Label { of, .. } => statement_cost(rates, of),
    }
}
