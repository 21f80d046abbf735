ghost use Rattle.std.specs.Prelude.{◌≡◌, ◌++◌, map, option_map, OnOk, IfOk};
ghost use Rattle.lz_tree.specs.ScopedTrees.{scoped_expression, scoped_expressions_of, scoped_index_of, scoped_initializer, scoped_declarator, scoped_declaration, scoped_statement, scoped_statements_of, scoped_branch_of, scoped_definition};
ghost use Rattle.lz_tree.specs.Calls as spec;
ghost use Rattle.lz_calls.specs.Calls.{graph_of};

use lz_base::{Memory, Sequence};
use lz_tree::{
    Object, ScopedDeclarator, ScopedExpr, ScopedFirst, ScopedFunction, ScopedObjects, ScopedStmt,
    ScopedTarget,
};
use std::alloc::Global;

fn list_callee(callee: Object, calls: &mut Sequence<u32>) -> Result<(), Memory>
    ensures { OnOk result (calls.new ≡ calls.old ++ spec.called callee) }
{
    match callee {
        Object::Routine { function } => {
            calls.push(function)?;
            Ok(())
        }
        _ => Ok(()),
    }
}

#[cycle(list_expression)]
fn list_index(target: &ScopedTarget, calls: &mut Sequence<u32>) -> Result<(), Memory>
    ensures { OnOk result (calls.new ≡ calls.old ++ spec.index_calls (scoped_index_of target.now.index)) }
{
    match &target.index {
        None => Ok(()),
        Some(index) => list_expression(index, calls),
    }
}

#[cycle(list_expression)]
fn list_expressions(items: &[ScopedExpr], calls: &mut Sequence<u32>) -> Result<(), Memory>
    ensures { OnOk result (calls.new ≡ calls.old ++ spec.expressions_calls (scoped_expressions_of (map scoped_expression items.now))) }
{
    for item in items {
        list_expression(item, calls)?;
    }
    Ok(())
}

#[cycle(list_expression)]
fn list_call(callee: Object, args: &[ScopedExpr], calls: &mut Sequence<u32>) -> Result<(), Memory>
    ensures { OnOk result (calls.new ≡ calls.old ++ (spec.expressions_calls (scoped_expressions_of (map scoped_expression args.now)) ++ spec.called callee)) }
{
    list_expressions(args, calls)?;
    list_callee(callee, calls)?;
    Ok(())
}

/// The functions that an expression calls, added in the order of the text.
#[cycle(list_expression)]
fn list_expression(e: &ScopedExpr, calls: &mut Sequence<u32>) -> Result<(), Memory>
    ensures { OnOk result (calls.new ≡ calls.old ++ spec.expression_calls (scoped_expression e.now)) }
{
    match e {
        ScopedExpr::Constant { .. } | ScopedExpr::Null { .. } | ScopedExpr::Text { .. } => Ok(()),
        ScopedExpr::Object { target, .. } => list_index(target, calls),
        ScopedExpr::Address { target, .. } => list_index(target, calls),
        ScopedExpr::Step { target, .. } => list_index(target, calls),
        ScopedExpr::Paren { inner, .. } => list_expression(inner, calls),
        ScopedExpr::Unary { of, .. } => list_expression(of, calls),
        ScopedExpr::Cast { of, .. } => list_expression(of, calls),
        ScopedExpr::Binary { left, right, .. } => {
            list_expression(left, calls)?;
            list_expression(right, calls)?;
            Ok(())
        }
        ScopedExpr::Choose { test, yes, no, .. } => {
            list_expression(test, calls)?;
            list_expression(yes, calls)?;
            list_expression(no, calls)?;
            Ok(())
        }
        ScopedExpr::Assign { target, value, .. } => {
            list_index(target, calls)?;
            list_expression(value, calls)?;
            Ok(())
        }
        ScopedExpr::Call { callee, args, .. } => {
            list_call(*callee, args, calls)?;
            Ok(())
        }
    }
}

fn list_optional(e: &Option<ScopedExpr>, calls: &mut Sequence<u32>) -> Result<(), Memory>
    ensures { OnOk result (calls.new ≡ calls.old ++ spec.optional_calls (option_map scoped_expression e.now)) }
{
    match e {
        None => Ok(()),
        Some(e) => list_expression(e, calls),
    }
}

fn list_initializer(first: &ScopedFirst, calls: &mut Sequence<u32>) -> Result<(), Memory>
    ensures { OnOk result (calls.new ≡ calls.old ++ spec.initializer_calls (scoped_initializer first.now)) }
{
    match first {
        ScopedFirst::Nothing => Ok(()),
        ScopedFirst::Value { value } => list_expression(value, calls),
        ScopedFirst::Listed { values } => list_expressions(values, calls),
    }
}

fn list_declarator(declarator: &ScopedDeclarator, calls: &mut Sequence<u32>) -> Result<(), Memory>
    ensures { OnOk result (calls.new ≡ calls.old ++ (spec.optional_calls (scoped_declarator declarator.now).length ++ spec.initializer_calls (scoped_declarator declarator.now).first)) }
{
    list_optional(&declarator.length, calls)?;
    list_initializer(&declarator.first, calls)?;
    Ok(())
}

fn list_declaration(objects: &ScopedObjects, calls: &mut Sequence<u32>) -> Result<(), Memory>
    ensures { OnOk result (calls.new ≡ calls.old ++ spec.declarators_calls (scoped_declaration objects.now).declarators) }
{
    let items = objects.declarators.items();
    for item in items {
        list_declarator(item, calls)?;
    }
    Ok(())
}

#[cycle(list_statement)]
fn list_branch(branch: &Option<Box<ScopedStmt>>, calls: &mut Sequence<u32>) -> Result<(), Memory>
    ensures { OnOk result (calls.new ≡ calls.old ++ spec.branch_calls (scoped_branch_of branch.now)) }
{
    match branch {
        None => Ok(()),
        Some(s) => list_statement(s, calls),
    }
}

#[cycle(list_statement)]
fn list_parts(items: &[ScopedStmt], calls: &mut Sequence<u32>) -> Result<(), Memory>
    ensures { OnOk result (calls.new ≡ calls.old ++ spec.statements_calls (scoped_statements_of (map scoped_statement items.now))) }
{
    for item in items {
        list_statement(item, calls)?;
    }
    Ok(())
}

/// The functions that a statement calls, added in the order of the text.
#[cycle(list_statement)]
fn list_statement(s: &ScopedStmt, calls: &mut Sequence<u32>) -> Result<(), Memory>
    ensures { OnOk result (calls.new ≡ calls.old ++ spec.statement_calls (scoped_statement s.now)) }
{
    match s {
        ScopedStmt::Empty | ScopedStmt::Break { .. } | ScopedStmt::Continue { .. } => Ok(()),
        ScopedStmt::Eval { value } => list_expression(value, calls),
        ScopedStmt::Block { parts } => {
            list_parts(parts, calls)?;
            Ok(())
        }
        ScopedStmt::Declare { of } => list_declaration(of, calls),
        ScopedStmt::If { test, yes, no, .. } => {
            list_expression(test, calls)?;
            list_statement(yes, calls)?;
            list_branch(no, calls)?;
            Ok(())
        }
        ScopedStmt::While { test, body, .. } => {
            list_expression(test, calls)?;
            list_statement(body, calls)?;
            Ok(())
        }
        ScopedStmt::Do { body, test, .. } => {
            list_statement(body, calls)?;
            list_expression(test, calls)?;
            Ok(())
        }
        ScopedStmt::For {
            first,
            test,
            step,
            body,
            ..
        } => {
            list_statement(first, calls)?;
            list_optional(test, calls)?;
            list_optional(step, calls)?;
            list_statement(body, calls)?;
            Ok(())
        }
        ScopedStmt::Return { value, .. } => list_optional(value, calls),
        ScopedStmt::Label { of, .. } => list_statement(of, calls),
    }
}

/// The functions that one function calls, in the order of the text.
fn calls_of(alloc: Global, function: &ScopedFunction) -> Result<Sequence<u32>, Memory>
    ensures { IfOk result (λ row. row ≡ spec.statement_calls (scoped_definition function.now).body) }
{
    let mut row = Sequence::new(alloc);
    list_statement(&function.body, &mut row)?;
    Ok(row)
}

/// For each function those that it calls, in the order of the text. Each body is walked once.
pub fn graph(alloc: Global, functions: &[ScopedFunction]) -> Result<Vec<Sequence<u32>>, Memory>
    ensures { IfOk result (λ g. g.items ≡ graph_of (map scoped_definition functions.now)) }
{
    let mut graph = Vec::new(alloc);
    for function in functions {
        graph.push(calls_of(alloc, function)?)?;
    }
    Ok(graph)
}
