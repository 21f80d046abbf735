ghost use Rattle.std.specs.Prelude.{◌≡◌, option_map, map};
ghost use Rattle.lz_tree.specs.ScopedTrees.{scoped_expression, scoped_target, scoped_expressions_of};
ghost use Rattle.lz_turns.specs.Stages.{stage_of};
ghost use Rattle.lz_turns.specs.Moves as spec;

use crate::calls::arguments;
use crate::stage::Stage;
use lz_tree::{ScopedExpr, ScopedTarget};

/// The index of a target, where one is written.
fn target_index(target: &ScopedTarget) -> Option<&ScopedExpr>
    ensures { option_map (λ e. scoped_expression e.now) result ≡ spec.target_index (scoped_target target.now) }
{
    match &target.index {
        None => None,
        Some(index) => Some(index),
    }
}

/// The index of a node's target.
fn index_of(e: &ScopedExpr) -> Option<&ScopedExpr>
    ensures { option_map (λ e. scoped_expression e.now) result ≡ spec.index_of (scoped_expression e.now) }
{
    match e {
        ScopedExpr::Object { target, .. } => target_index(target),
        ScopedExpr::Address { target, .. } => target_index(target),
        ScopedExpr::Assign { target, .. } => target_index(target),
        ScopedExpr::Step { target, .. } => target_index(target),
        ScopedExpr::Constant { .. }
        | ScopedExpr::Null { .. }
        | ScopedExpr::Text { .. }
        | ScopedExpr::Paren { .. }
        | ScopedExpr::Unary { .. }
        | ScopedExpr::Cast { .. }
        | ScopedExpr::Binary { .. }
        | ScopedExpr::Choose { .. }
        | ScopedExpr::Call { .. } => None,
    }
}

/// The first operand of a node.
fn first_of(e: &ScopedExpr) -> Option<&ScopedExpr>
    ensures { option_map (λ e. scoped_expression e.now) result ≡ spec.first_of_node (scoped_expression e.now) }
{
    match e {
        ScopedExpr::Paren { inner, .. } => Some(inner),
        ScopedExpr::Unary { of, .. } => Some(of),
        ScopedExpr::Cast { of, .. } => Some(of),
        ScopedExpr::Binary { left, .. } => Some(left),
        ScopedExpr::Choose { test, .. } => Some(test),
        ScopedExpr::Assign { value, .. } => Some(value),
        ScopedExpr::Constant { .. }
        | ScopedExpr::Null { .. }
        | ScopedExpr::Text { .. }
        | ScopedExpr::Object { .. }
        | ScopedExpr::Address { .. }
        | ScopedExpr::Step { .. }
        | ScopedExpr::Call { .. } => None,
    }
}

/// The second operand of a node, or the branch of a test that holds.
fn second_of(e: &ScopedExpr) -> Option<&ScopedExpr>
    ensures { option_map (λ e. scoped_expression e.now) result ≡ spec.second_of_node (scoped_expression e.now) }
{
    match e {
        ScopedExpr::Binary { right, .. } => Some(right),
        ScopedExpr::Choose { yes, .. } => Some(yes),
        ScopedExpr::Constant { .. }
        | ScopedExpr::Null { .. }
        | ScopedExpr::Text { .. }
        | ScopedExpr::Object { .. }
        | ScopedExpr::Address { .. }
        | ScopedExpr::Paren { .. }
        | ScopedExpr::Unary { .. }
        | ScopedExpr::Cast { .. }
        | ScopedExpr::Assign { .. }
        | ScopedExpr::Step { .. }
        | ScopedExpr::Call { .. } => None,
    }
}

/// The branch of a test that does not hold.
fn third_of(e: &ScopedExpr) -> Option<&ScopedExpr>
    ensures { option_map (λ e. scoped_expression e.now) result ≡ spec.third_of_node (scoped_expression e.now) }
{
    match e {
        ScopedExpr::Choose { no, .. } => Some(no),
        ScopedExpr::Constant { .. }
        | ScopedExpr::Null { .. }
        | ScopedExpr::Text { .. }
        | ScopedExpr::Object { .. }
        | ScopedExpr::Address { .. }
        | ScopedExpr::Paren { .. }
        | ScopedExpr::Unary { .. }
        | ScopedExpr::Cast { .. }
        | ScopedExpr::Binary { .. }
        | ScopedExpr::Assign { .. }
        | ScopedExpr::Step { .. }
        | ScopedExpr::Call { .. } => None,
    }
}

/// The argument at a place.
fn argument_at(args: &[ScopedExpr], at: usize) -> Option<&ScopedExpr>
    ensures { option_map (λ e. scoped_expression e.now) result ≡ spec.argument_at (scoped_expressions_of (map scoped_expression args.now)) at }
{
    if at < args.len() {
        Some(&args[at])
    } else {
        None
    }
}

/// The index of an argument.
fn index_of_argument(argument: Option<&ScopedExpr>) -> Option<&ScopedExpr>
    ensures { option_map (λ e. scoped_expression e.now) result ≡ spec.index_of_argument (option_map (λ e. scoped_expression e.now) argument.entry) }
{
    match argument {
        None => None,
        Some(e) => index_of(e),
    }
}

/// The argument of a node at a place.
fn argument_of(e: &ScopedExpr, at: usize) -> Option<&ScopedExpr>
    ensures { option_map (λ e. scoped_expression e.now) result ≡ spec.argument_at (spec.arguments_of (scoped_expression e.now)) at }
{
    argument_at(arguments(e), at)
}

/// The index of the argument of a node at a place.
fn handed_of(e: &ScopedExpr, at: usize) -> Option<&ScopedExpr>
    ensures { option_map (λ e. scoped_expression e.now) result ≡ spec.index_of_argument (spec.argument_at (spec.arguments_of (scoped_expression e.now)) at) }
{
    index_of_argument(argument_of(e, at))
}

/// The part of a node behind which it comes to a stage.
pub fn part_at<'a>(e: &'a ScopedExpr, stage: &Stage) -> Option<&'a ScopedExpr>
    ensures { option_map (λ e. scoped_expression e.now) result ≡ spec.part_of (scoped_expression e.now) (spec.slot_of (stage_of stage.now)) }
{
    match stage {
        Stage::Indexed => index_of(e),
        Stage::Valued { .. } => first_of(e),
        Stage::Operand { .. } => first_of(e),
        Stage::First => first_of(e),
        Stage::Second { .. } => second_of(e),
        Stage::Taken => second_of(e),
        Stage::Other => third_of(e),
        Stage::Argument { values } => argument_of(e, values.len()),
        Stage::Handed { at, .. } => handed_of(e, *at),
        Stage::Argued { at, .. } => argument_of(e, *at),
        Stage::Start
        | Stage::Given
        | Stage::Settled { .. }
        | Stage::Ready { .. }
        | Stage::Old { .. }
        | Stage::Writing { .. }
        | Stage::Calling { .. }
        | Stage::Passing { .. }
        | Stage::Arguing { .. }
        | Stage::Woken { .. }
        | Stage::Made { .. } => None,
    }
}
