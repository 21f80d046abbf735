ghost use Rattle.std.specs.Prelude.{◌≡◌, option_map, map};
ghost use Rattle.lz_tree.specs.ScopedTrees.{scoped_expression, scoped_expressions_of, scoped_statement, scoped_statements_of, scoped_declarator, scoped_initializer};
ghost use Rattle.lz_turns.specs.Moves.{argument_at};
ghost use Rattle.lz_stations.specs.StationMoves as spec;
ghost use Rattle.lz_stations.specs.StationsHeld.{station_of};

use crate::statements::{declarators, parts};
use crate::station::Station;
use lz_tree::{ScopedDeclarator, ScopedExpr, ScopedFirst, ScopedStmt};

/// An expression that may be missing.
fn written(value: &Option<ScopedExpr>) -> Option<&ScopedExpr>
    ensures { option_map (λ e. scoped_expression e.now) result ≡ option_map scoped_expression value.now }
{
    match value {
        None => None,
        Some(value) => Some(value),
    }
}

/// The expression of a statement by itself, of `if` and of `return`.
fn value_of(s: &ScopedStmt) -> Option<&ScopedExpr>
    ensures { option_map (λ e. scoped_expression e.now) result ≡ spec.value_of (scoped_statement s.now) }
{
    match s {
        ScopedStmt::Eval { value } => Some(value),
        ScopedStmt::If { test, .. } => Some(test),
        ScopedStmt::Return { value, .. } => written(value),
        ScopedStmt::Empty
        | ScopedStmt::Block { .. }
        | ScopedStmt::Declare { .. }
        | ScopedStmt::While { .. }
        | ScopedStmt::Do { .. }
        | ScopedStmt::For { .. }
        | ScopedStmt::Break { .. }
        | ScopedStmt::Continue { .. }
        | ScopedStmt::Label { .. } => None,
    }
}

/// The test of a loop.
fn test_of(s: &ScopedStmt) -> Option<&ScopedExpr>
    ensures { option_map (λ e. scoped_expression e.now) result ≡ spec.test_of (spec.loop_of (scoped_statement s.now)) }
{
    match s {
        ScopedStmt::While { test, .. } => Some(test),
        ScopedStmt::Do { test, .. } => Some(test),
        ScopedStmt::For { test, .. } => written(test),
        ScopedStmt::Empty
        | ScopedStmt::Eval { .. }
        | ScopedStmt::Block { .. }
        | ScopedStmt::Declare { .. }
        | ScopedStmt::If { .. }
        | ScopedStmt::Break { .. }
        | ScopedStmt::Continue { .. }
        | ScopedStmt::Return { .. }
        | ScopedStmt::Label { .. } => None,
    }
}

/// The step of a loop.
fn change_of(s: &ScopedStmt) -> Option<&ScopedExpr>
    ensures { option_map (λ e. scoped_expression e.now) result ≡ spec.change_of (spec.loop_of (scoped_statement s.now)) }
{
    match s {
        ScopedStmt::For { step, .. } => written(step),
        ScopedStmt::Empty
        | ScopedStmt::Eval { .. }
        | ScopedStmt::Block { .. }
        | ScopedStmt::Declare { .. }
        | ScopedStmt::If { .. }
        | ScopedStmt::While { .. }
        | ScopedStmt::Do { .. }
        | ScopedStmt::Break { .. }
        | ScopedStmt::Continue { .. }
        | ScopedStmt::Return { .. }
        | ScopedStmt::Label { .. } => None,
    }
}

/// The value of an element in a list.
fn value_in(values: &[ScopedExpr], element: u32) -> Option<&ScopedExpr>
    ensures { option_map (λ e. scoped_expression e.now) result ≡ argument_at (scoped_expressions_of (map scoped_expression values.now)) element }
{
    let at = element as usize;
    if at < values.len() {
        Some(&values[at])
    } else {
        None
    }
}

/// The value of an element of an object.
fn element_of(first: &ScopedFirst, element: u32) -> Option<&ScopedExpr>
    ensures { option_map (λ e. scoped_expression e.now) result ≡ spec.element_value (scoped_initializer first.now) element }
{
    match first {
        ScopedFirst::Nothing | ScopedFirst::Value { .. } => None,
        ScopedFirst::Listed { values } => value_in(values, element),
    }
}

/// The one value of an object.
fn single_of(first: &ScopedFirst) -> Option<&ScopedExpr>
    ensures { option_map (λ e. scoped_expression e.now) result ≡ spec.single_value (scoped_initializer first.now) }
{
    match first {
        ScopedFirst::Value { value } => Some(value),
        ScopedFirst::Nothing | ScopedFirst::Listed { .. } => None,
    }
}

/// The value of an element of the object of a declarator.
fn element_at(declarators: &[ScopedDeclarator], at: usize, element: u32) -> Option<&ScopedExpr>
    ensures { option_map (λ e. scoped_expression e.now) result ≡ spec.element_value (spec.initializer_of (spec.declarator_at (map scoped_declarator declarators.now) at)) element }
{
    if at < declarators.len() {
        let d = &declarators[at];
        element_of(&d.first, element)
    } else {
        None
    }
}

/// The one value of the object of a declarator.
fn single_at(declarators: &[ScopedDeclarator], at: usize) -> Option<&ScopedExpr>
    ensures { option_map (λ e. scoped_expression e.now) result ≡ spec.single_value (spec.initializer_of (spec.declarator_at (map scoped_declarator declarators.now) at)) }
{
    if at < declarators.len() {
        let d = &declarators[at];
        single_of(&d.first)
    } else {
        None
    }
}

/// The expression behind which a statement comes to a station.
pub fn value_at(s: &ScopedStmt, station: Station) -> Option<&ScopedExpr>
    ensures { option_map (λ e. scoped_expression e.now) result ≡ spec.value_at (scoped_statement s.now) (station_of station) }
{
    match station {
        Station::Evaluated => value_of(s),
        Station::Tested => value_of(s),
        Station::Returned => value_of(s),
        Station::Filled { at, element } => element_at(declarators(s), at, element),
        Station::Initialized { at } => single_at(declarators(s), at),
        Station::Turned { .. } => test_of(s),
        Station::Changed { .. } => change_of(s),
        Station::Start
        | Station::Led { .. }
        | Station::Listing { .. }
        | Station::Listed { .. }
        | Station::Declaring { .. }
        | Station::Filling { .. }
        | Station::Arbitrary { .. }
        | Station::Taken
        | Station::Other
        | Station::Opened
        | Station::Turning { .. }
        | Station::Bodied { .. }
        | Station::Doing { .. }
        | Station::Labelled => None,
    }
}

/// A part of a block.
fn listed_part(parts: &[ScopedStmt], at: usize) -> Option<&ScopedStmt>
    ensures { option_map (λ s. scoped_statement s.now) result ≡ spec.statement_at (scoped_statements_of (map scoped_statement parts.now)) at }
{
    if at < parts.len() {
        Some(&parts[at])
    } else {
        None
    }
}

/// The branch of a test that holds, the first part of `for`, or the statement of a label.
fn first_part(s: &ScopedStmt) -> Option<&ScopedStmt>
    ensures { option_map (λ s. scoped_statement s.now) result ≡ spec.first_part (scoped_statement s.now) }
{
    match s {
        ScopedStmt::If { yes, .. } => Some(yes),
        ScopedStmt::For { first, .. } => Some(first),
        ScopedStmt::Label { of, .. } => Some(of),
        ScopedStmt::Empty
        | ScopedStmt::Eval { .. }
        | ScopedStmt::Block { .. }
        | ScopedStmt::Declare { .. }
        | ScopedStmt::While { .. }
        | ScopedStmt::Do { .. }
        | ScopedStmt::Break { .. }
        | ScopedStmt::Continue { .. }
        | ScopedStmt::Return { .. } => None,
    }
}

/// The branch of a test that does not hold.
fn second_part(s: &ScopedStmt) -> Option<&ScopedStmt>
    ensures { option_map (λ s. scoped_statement s.now) result ≡ spec.second_part (scoped_statement s.now) }
{
    match s {
        ScopedStmt::If { no, .. } => match no {
            None => None,
            Some(no) => Some(no),
        },
        ScopedStmt::Empty
        | ScopedStmt::Eval { .. }
        | ScopedStmt::Block { .. }
        | ScopedStmt::Declare { .. }
        | ScopedStmt::While { .. }
        | ScopedStmt::Do { .. }
        | ScopedStmt::For { .. }
        | ScopedStmt::Break { .. }
        | ScopedStmt::Continue { .. }
        | ScopedStmt::Return { .. }
        | ScopedStmt::Label { .. } => None,
    }
}

/// The body of a loop.
fn body_of(s: &ScopedStmt) -> Option<&ScopedStmt>
    ensures { option_map (λ s. scoped_statement s.now) result ≡ spec.body_of (spec.loop_of (scoped_statement s.now)) }
{
    match s {
        ScopedStmt::While { body, .. } => Some(body),
        ScopedStmt::Do { body, .. } => Some(body),
        ScopedStmt::For { body, .. } => Some(body),
        ScopedStmt::Empty
        | ScopedStmt::Eval { .. }
        | ScopedStmt::Block { .. }
        | ScopedStmt::Declare { .. }
        | ScopedStmt::If { .. }
        | ScopedStmt::Break { .. }
        | ScopedStmt::Continue { .. }
        | ScopedStmt::Return { .. }
        | ScopedStmt::Label { .. } => None,
    }
}

/// The statement behind which a statement comes to a station.
pub fn statement_part_at(s: &ScopedStmt, station: Station) -> Option<&ScopedStmt>
    ensures { option_map (λ s. scoped_statement s.now) result ≡ spec.part_at (scoped_statement s.now) (station_of station) }
{
    match station {
        Station::Listed { at } => listed_part(parts(s), at),
        Station::Taken => first_part(s),
        Station::Opened => first_part(s),
        Station::Labelled => first_part(s),
        Station::Other => second_part(s),
        Station::Bodied { .. } => body_of(s),
        Station::Start
        | Station::Led { .. }
        | Station::Evaluated
        | Station::Listing { .. }
        | Station::Declaring { .. }
        | Station::Filling { .. }
        | Station::Arbitrary { .. }
        | Station::Filled { .. }
        | Station::Initialized { .. }
        | Station::Tested
        | Station::Turning { .. }
        | Station::Turned { .. }
        | Station::Changed { .. }
        | Station::Doing { .. }
        | Station::Returned => None,
    }
}
