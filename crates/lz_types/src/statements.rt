ghost use Rattle.std.specs.Prelude.{◌≡◌, ◌++◌, map, option_map, OnOk};
ghost use Rattle.lz_tree.specs.Trees.{expression, statement, statements_of, branch_of};
ghost use Rattle.lz_scopes.specs.Scopes as scopes;
ghost use Rattle.lz_scopes.specs.Views.{within};
ghost use Rattle.lz_types.specs.Faults as spec;

use crate::declarations::{walk_declaration, walk_optional};
use crate::note::push_when;
use crate::walk::walk;
use lz_base::Memory;
use lz_scopes::{Fault, Place, Rule, Want, WholeFile, begin, end, value_type};
use lz_tree::{Expr, Stmt, TypeName};

/// Whether a `return` does not fit the result of its function.
fn is_bad_return(gives: TypeName, value: &Option<Expr>) -> bool
    ensures { result ≡ spec.is_bad_return gives (option_map expression value.now) }
{
    match value {
        None => !value_type(gives).is_nothing(),
        Some(_) => value_type(gives).is_nothing(),
    }
}

/// Notes the faults of a statement that has a scope of its own, in a loop or not.
#[cycle(statement)]
fn walk_inside(
    file: &WholeFile,
    place: &mut Place,
    in_loop: bool,
    s: &Stmt,
    faults: &mut Vec<Fault>,
) -> Result<(), Memory>
    ensures place { OnOk result (place.new ≡ scopes.behind place.old (scopes.after (within in_loop place.old) (statement s.now))) }
    ensures faults { OnOk result (faults.new.items ≡ faults.old.items ++ spec.statement_faults file.now (within in_loop place.old) (statement s.now)) }
{
    let outer = place.in_loop;
    let mark = begin(place, in_loop)?;
    walk_statement(file, place, s, faults)?;
    end(place, mark, outer);
    Ok(())
}

/// Notes the faults of the statements of a block.
#[cycle(statement)]
fn walk_block(
    file: &WholeFile,
    place: &mut Place,
    parts: &[Stmt],
    faults: &mut Vec<Fault>,
) -> Result<(), Memory>
    ensures place { OnOk result (place.new ≡ scopes.behind place.old (scopes.after_all (scopes.inside place.old) (statements_of (map statement parts.now)))) }
    ensures faults { OnOk result (faults.new.items ≡ faults.old.items ++ spec.statements_faults file.now (scopes.inside place.old) (statements_of (map statement parts.now))) }
{
    let outer = place.in_loop;
    let mark = begin(place, false)?;
    walk_statements(file, place, parts, faults)?;
    end(place, mark, outer);
    Ok(())
}

/// Notes the faults of what stands behind `else`.
#[cycle(statement)]
#[tactic(auto, unfolding(lz_scopes::specs::Scopes::after, crate::specs::Faults::statement_faults))]
fn walk_branch(
    file: &WholeFile,
    place: &mut Place,
    branch: &Option<Box<Stmt>>,
    faults: &mut Vec<Fault>,
) -> Result<(), Memory>
    ensures place { OnOk result (place.new ≡ scopes.after_branch place.old (branch_of branch.now)) }
    ensures faults { OnOk result (faults.new.items ≡ faults.old.items ++ spec.branch_faults file.now place.old (branch_of branch.now)) }
{
    match branch {
        None => Ok(()),
        Some(s) => walk_inside(file, place, false, s, faults),
    }
}

/// Notes the faults of statements in the order of the text.
#[cycle(statement)]
pub fn walk_statements(
    file: &WholeFile,
    place: &mut Place,
    parts: &[Stmt],
    faults: &mut Vec<Fault>,
) -> Result<(), Memory>
    ensures place { OnOk result (place.new ≡ scopes.after_all place.old (statements_of (map statement parts.now))) }
    ensures faults { OnOk result (faults.new.items ≡ faults.old.items ++ spec.statements_faults file.now place.old (statements_of (map statement parts.now))) }
{
    for s in parts {
        walk_statement(file, place, s, faults)?;
    }
    Ok(())
}

/// Notes the faults of a statement, and goes behind it.
#[cycle(statement)]
#[tactic(auto, unfolding(lz_scopes::specs::Scopes::after, crate::specs::Faults::statement_faults))]
pub fn walk_statement(
    file: &WholeFile,
    place: &mut Place,
    s: &Stmt,
    faults: &mut Vec<Fault>,
) -> Result<(), Memory>
    ensures place { OnOk result (place.new ≡ scopes.after place.old (statement s.now)) }
    ensures faults { OnOk result (faults.new.items ≡ faults.old.items ++ spec.statement_faults file.now place.old (statement s.now)) }
{
    match s {
        Stmt::Empty => Ok(()),
        Stmt::Eval { value } => {
            walk(file, place, Want::Unneeded, value, faults)?;
            Ok(())
        }
        Stmt::Block { parts } => {
            walk_block(file, place, parts, faults)?;
            Ok(())
        }
        Stmt::Declare { of } => {
            walk_declaration(file, place, of, faults)?;
            Ok(())
        }
        Stmt::If { test, yes, no, .. } => {
            walk(file, place, Want::Integer, test, faults)?;
            walk_inside(file, place, false, yes, faults)?;
            walk_branch(file, place, no, faults)?;
            Ok(())
        }
        Stmt::While { test, body, .. } => {
            walk(file, place, Want::Integer, test, faults)?;
            walk_inside(file, place, true, body, faults)?;
            Ok(())
        }
        Stmt::Do { body, test, .. } => {
            walk_inside(file, place, true, body, faults)?;
            walk(file, place, Want::Integer, test, faults)?;
            Ok(())
        }
        Stmt::For {
            first,
            test,
            step,
            body,
            ..
        } => {
            let outer = place.in_loop;
            let mark = begin(place, false)?;
            walk_statement(file, place, first, faults)?;
            walk_optional(file, place, Want::Integer, test, faults)?;
            walk_optional(file, place, Want::Unneeded, step, faults)?;
            walk_inside(file, place, true, body, faults)?;
            end(place, mark, outer);
            Ok(())
        }
        Stmt::Break { line } | Stmt::Continue { line } => {
            push_when(faults, *line, !place.in_loop, Rule::OutsideLoop)?;
            Ok(())
        }
        Stmt::Return { line, value } => {
            let bad = is_bad_return(place.gives, value);
            push_when(faults, *line, bad, Rule::BadReturn)?;
            let want = value_type(place.gives).want();
            walk_optional(file, place, want, value, faults)?;
            Ok(())
        }
        Stmt::Label { of, .. } => {
            walk_statement(file, place, of, faults)?;
            Ok(())
        }
    }
}

/// Notes the faults of a function's body, whose outermost block is in one scope with the parameters, and goes behind
/// it.
pub fn walk_body(
    file: &WholeFile,
    place: &mut Place,
    s: &Stmt,
    faults: &mut Vec<Fault>,
) -> Result<(), Memory>
    ensures place { OnOk result (place.new ≡ scopes.after_body place.old (statement s.now)) }
    ensures faults { OnOk result (faults.new.items ≡ faults.old.items ++ spec.body_faults file.now place.old (statement s.now)) }
{
    match s {
        Stmt::Block { parts: outermost } => {
            walk_statements(file, place, outermost, faults)?;
            Ok(())
        }
        Stmt::Empty | Stmt::Eval { .. } | Stmt::Declare { .. } | Stmt::If { .. } => {
            walk_statement(file, place, s, faults)
        }
        Stmt::While { .. } | Stmt::Do { .. } | Stmt::For { .. } | Stmt::Label { .. } => {
            walk_statement(file, place, s, faults)
        }
        Stmt::Break { .. } | Stmt::Continue { .. } | Stmt::Return { .. } => {
            walk_statement(file, place, s, faults)
        }
    }
}
