ghost use Rattle.std.specs.Prelude.{◌≡◌, false, map, option_map, OnOk, IfOk};
ghost use Rattle.lz_tree.specs.Trees.{expression, statement, statements_of, branch_of};
ghost use Rattle.lz_tree.specs.ScopedTrees as scoped;
ghost use Rattle.lz_tree.specs.ScopedTrees.{scoped_expression, scoped_statement, scoped_statements_of, scoped_branch_of};
ghost use Rattle.lz_scopes.specs.Scopes as scopes;
ghost use Rattle.lz_scopes.specs.Views.{within};
ghost use Rattle.lz_resolve.specs.ScopedPrograms as spec;

use crate::declarations::{resolve_declaration, resolve_optional};
use crate::expressions::resolve_expr;
use lz_base::Memory;
use lz_scopes::{Place, WholeFile, begin, end};
use lz_tree::{Expr, ScopedExpr, ScopedStmt, ScopedStmts, Stmt};
use std::alloc::{AllocError, Global};

/// A block.
pub fn block_of(parts: ScopedStmts) -> ScopedStmt
    ensures { scoped_statement result ≡ scoped.block (scoped_statements_of (map scoped_statement parts.items)) }
{
    ScopedStmt::Block { parts }
}

/// A statement under a test, and that behind `else`.
fn if_of(
    line: u32,
    test: ScopedExpr,
    yes: Box<ScopedStmt>,
    no: Option<Box<ScopedStmt>>,
) -> ScopedStmt
    ensures { scoped_statement result ≡ scoped.when line (scoped_expression test) (scoped_statement yes.value) (scoped_branch_of no) }
{
    ScopedStmt::If {
        line,
        test,
        yes,
        no,
    }
}

/// A loop whose test stands before its body.
fn while_of(line: u32, test: ScopedExpr, body: Box<ScopedStmt>) -> ScopedStmt
    ensures { scoped_statement result ≡ scoped.while line (scoped_expression test) (scoped_statement body.value) }
{
    ScopedStmt::While { line, test, body }
}

/// A loop whose test stands behind its body, and is looked up at the place.
fn do_of(
    alloc: Global,
    file: &WholeFile,
    place: &Place,
    line: u32,
    body: Box<ScopedStmt>,
    test: &Expr,
) -> Result<ScopedStmt, Memory>
    ensures { IfOk result (λ s. scoped_statement s ≡ scoped.do_while line (scoped_statement body.value) (spec.scope file.now place.now (expression test.now))) }
{
    let test = resolve_expr(alloc, file, place, test)?;
    Ok(ScopedStmt::Do { line, body, test })
}

/// The head of a loop: what stands first in it, its test and its step.
#[derive(Drop)]
struct Head {
    first: Box<ScopedStmt>,
    test: Option<ScopedExpr>,
    step: Option<ScopedExpr>,
}

/// The head of a loop whose first part is done; the others are looked up at the place.
fn head_of(
    alloc: Global,
    file: &WholeFile,
    place: &Place,
    first: ScopedStmt,
    test: &Option<Expr>,
    step: &Option<Expr>,
) -> Result<Head, Memory>
    ensures first { IfOk result (λ h. scoped_statement h.first.value ≡ scoped_statement first) }
    ensures test { IfOk result (λ h. option_map scoped_expression h.test ≡ spec.scope_optional file.now place.now (option_map expression test.now)) }
    ensures step { IfOk result (λ h. option_map scoped_expression h.step ≡ spec.scope_optional file.now place.now (option_map expression step.now)) }
{
    let first = Box::new(alloc, first)?;
    let test = resolve_optional(alloc, file, place, test)?;
    let step = resolve_optional(alloc, file, place, step)?;
    Ok(Head { first, test, step })
}

/// A loop with a head.
fn for_of(line: u32, head: Head, body: Box<ScopedStmt>) -> ScopedStmt
    ensures { scoped_statement result ≡ scoped.for line (scoped_statement head.first.value) (option_map scoped_expression head.test) (option_map scoped_expression head.step) (scoped_statement body.value) }
{
    let Head { first, test, step } = head;
    ScopedStmt::For {
        line,
        first,
        test,
        step,
        body,
    }
}

/// A statement behind a label.
fn label_of(alloc: Global, name: u32, of: ScopedStmt) -> Result<ScopedStmt, AllocError>
    ensures { IfOk result (λ s. scoped_statement s ≡ scoped.label name (scoped_statement of)) }
{
    let of = Box::new(alloc, of)?;
    Ok(ScopedStmt::Label { name, of })
}

/// A statement in a scope of its own, which is the body of a loop or not.
#[cycle(resolve)]
fn resolve_within(
    alloc: Global,
    file: &WholeFile,
    place: &mut Place,
    in_loop: bool,
    s: &Stmt,
) -> Result<Box<ScopedStmt>, Memory>
    ensures place { OnOk result (place.new ≡ scopes.behind place.old (scopes.after (within in_loop place.old) (statement s.now))) }
    ensures tree { IfOk result (λ t. scoped_statement t.value ≡ spec.scope_statement file.now (within in_loop place.old) (statement s.now)) }
{
    let was = place.in_loop;
    let mark = begin(place, in_loop)?;
    let scoped = resolve_stmt(alloc, file, place, s)?;
    end(place, mark, was);
    let boxed = Box::new(alloc, scoped)?;
    Ok(boxed)
}

/// A test, and what stands under it in a scope of its own, which is the body of a loop or not.
#[cycle(resolve)]
fn resolve_tested(
    alloc: Global,
    file: &WholeFile,
    place: &mut Place,
    in_loop: bool,
    s: &Stmt,
    test: &Expr,
) -> Result<(ScopedExpr, Box<ScopedStmt>), Memory>
    ensures place { OnOk result (place.new ≡ scopes.behind place.old (scopes.after (within in_loop place.old) (statement s.now))) }
    ensures test { IfOk result (λ t. scoped_expression t.0 ≡ spec.scope file.now place.old (expression test.now)) }
    ensures tree { IfOk result (λ t. scoped_statement t.1.value ≡ spec.scope_statement file.now (within in_loop place.old) (statement s.now)) }
{
    let test = resolve_expr(alloc, file, place, test)?;
    let body = resolve_within(alloc, file, place, in_loop, s)?;
    Ok((test, body))
}

/// What stands behind `else`, if anything.
#[cycle(resolve)]
#[tactic(auto, unfolding(crate::specs::ScopedPrograms::scope_statement, lz_scopes::specs::Scopes::after))]
fn resolve_branch(
    alloc: Global,
    file: &WholeFile,
    place: &mut Place,
    no: &Option<Box<Stmt>>,
) -> Result<Option<Box<ScopedStmt>>, Memory>
    ensures place { OnOk result (place.new ≡ scopes.after_branch place.old (branch_of no.now)) }
    ensures tree { IfOk result (λ t. scoped_branch_of t ≡ spec.scope_branch file.now place.old (branch_of no.now)) }
{
    match no {
        None => Ok(None),
        Some(no) => {
            let no = resolve_within(alloc, file, place, false, no)?;
            Ok(Some(no))
        }
    }
}

/// Statements in their order.
#[cycle(resolve)]
#[tactic(auto, unfolding(crate::specs::ScopedPrograms::scope_statement, lz_scopes::specs::Scopes::after))]
pub fn resolve_parts(
    alloc: Global,
    file: &WholeFile,
    place: &mut Place,
    parts: &[Stmt],
) -> Result<ScopedStmts, Memory>
    ensures place { OnOk result (place.new ≡ scopes.after_all place.old (statements_of (map statement parts.now))) }
    ensures tree { IfOk result (λ all. scoped_statements_of (map scoped_statement all.items) ≡ spec.scope_statements file.now place.old (statements_of (map statement parts.now))) }
{
    let mut all = Vec::new(alloc);
    for s in parts {
        let scoped = resolve_stmt(alloc, file, place, s)?;
        all.push(scoped)?;
    }
    Ok(all)
}

/// Statements in a scope of their own.
#[cycle(resolve)]
#[tactic(auto, unfolding(crate::specs::ScopedPrograms::scope_statement, lz_scopes::specs::Scopes::after))]
fn resolve_block(
    alloc: Global,
    file: &WholeFile,
    place: &mut Place,
    parts: &[Stmt],
) -> Result<ScopedStmts, Memory>
    ensures place { OnOk result (place.new ≡ scopes.behind place.old (scopes.after_all (within false place.old) (statements_of (map statement parts.now)))) }
    ensures tree { IfOk result (λ all. scoped_statements_of (map scoped_statement all.items) ≡ spec.scope_statements file.now (within false place.old) (statements_of (map statement parts.now))) }
{
    let was = place.in_loop;
    let mark = begin(place, false)?;
    let scoped = resolve_parts(alloc, file, place, parts)?;
    end(place, mark, was);
    Ok(scoped)
}

/// The statement in which each name but a label's is what it means.
#[cycle(resolve)]
#[tactic(auto, unfolding(crate::specs::ScopedPrograms::scope_statement, lz_scopes::specs::Scopes::after))]
pub fn resolve_stmt(
    alloc: Global,
    file: &WholeFile,
    place: &mut Place,
    s: &Stmt,
) -> Result<ScopedStmt, Memory>
    ensures place { OnOk result (place.new ≡ scopes.after place.old (statement s.now)) }
    ensures tree { IfOk result (λ t. scoped_statement t ≡ spec.scope_statement file.now place.old (statement s.now)) }
{
    match s {
        Stmt::Empty => Ok(ScopedStmt::Empty),
        Stmt::Eval { value } => {
            let value = resolve_expr(alloc, file, place, value)?;
            Ok(ScopedStmt::Eval { value })
        }
        Stmt::Block { parts } => {
            let parts = resolve_block(alloc, file, place, parts)?;
            Ok(block_of(parts))
        }
        Stmt::Declare { of } => {
            let of = resolve_declaration(alloc, file, place, of)?;
            Ok(ScopedStmt::Declare { of })
        }
        Stmt::If {
            line,
            test,
            yes,
            no,
        } => {
            let tested = resolve_tested(alloc, file, place, false, yes, test)?;
            let no = resolve_branch(alloc, file, place, no)?;
            Ok(if_of(*line, tested.0, tested.1, no))
        }
        Stmt::While { line, test, body } => {
            let tested = resolve_tested(alloc, file, place, true, body, test)?;
            Ok(while_of(*line, tested.0, tested.1))
        }
        Stmt::Do { line, body, test } => {
            let body = resolve_within(alloc, file, place, true, body)?;
            let scoped = do_of(alloc, file, place, *line, body, test)?;
            Ok(scoped)
        }
        Stmt::For {
            line,
            first,
            test,
            step,
            body,
        } => {
            let was = place.in_loop;
            let mark = begin(place, false)?;
            let first = resolve_stmt(alloc, file, place, first)?;
            let head = head_of(alloc, file, place, first, test, step)?;
            let inner = resolve_within(alloc, file, place, true, body)?;
            end(place, mark, was);
            Ok(for_of(*line, head, inner))
        }
        Stmt::Break { line } => Ok(ScopedStmt::Break { line: *line }),
        Stmt::Continue { line } => Ok(ScopedStmt::Continue { line: *line }),
        Stmt::Return { line, value } => {
            let value = resolve_optional(alloc, file, place, value)?;
            Ok(ScopedStmt::Return { line: *line, value })
        }
        Stmt::Label { name, of } => {
            let of = resolve_stmt(alloc, file, place, of)?;
            let scoped = label_of(alloc, *name, of)?;
            Ok(scoped)
        }
    }
}
