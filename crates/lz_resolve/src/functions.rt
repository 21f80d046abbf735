ghost use Rattle.std.specs.Prelude.{◌≡◌, ◌++◌, ◌&&◌, map, OnOk, IfOk};
ghost use Rattle.lz_tree.specs.Trees.{statement, init_declarator, declaration, external_declaration};
ghost use Rattle.lz_tree.specs.ScopedTrees.{scoped_statement, scoped_definition};
ghost use Rattle.lz_scopes.specs.Scopes as scopes;
ghost use Rattle.lz_scopes.specs.ValueTypes as values;
ghost use Rattle.lz_resolve.specs.ScopedPrograms as spec;

use crate::expressions::value_kind;
use crate::statements::{block_of, resolve_parts, resolve_stmt};
use lz_base::{Memory, Sequence};
use lz_scopes::{Place, WholeFile, declare_one, declare_param, enter, leave_function, value_type};
use lz_tree::{
    Declarator, External, Kinds, Objects, Param, ScopedFunction, ScopedFunctions, ScopedStmt, Stmt,
    TypeName,
};
use std::alloc::Global;

/// Whether a function has the form of a start routine.
fn is_start_form(gives: TypeName, params: &[Param]) -> bool
    ensures { result ≡ (values.is_pointer (values.value_type gives) && scopes.is_one_pointer (scopes.bases params.now)) }
{
    match params {
        [param] => value_type(gives).is_pointer() && value_type(param.base).is_pointer(),
        _ => false,
    }
}

/// The kinds of parameters.
fn param_kinds(alloc: Global, params: &[Param]) -> Result<Kinds, Memory>
    ensures { IfOk result (λ kinds. kinds ≡ spec.param_kinds params.now) }
{
    let mut kinds = Sequence::new(alloc);
    for param in params {
        kinds.push(value_type(param.base).kind())?;
    }
    Ok(kinds)
}

/// Declares parameters in their order.
fn declare_params(place: &mut Place, params: &[Param]) -> Result<(), Memory>
    ensures { OnOk result (place.new ≡ scopes.with_params place.old params.now) }
{
    for param in params {
        declare_param(place, param)?;
    }
    Ok(())
}

/// The body of a function, whose outermost block is in one scope with the parameters.
#[tactic(auto, unfolding(crate::specs::ScopedPrograms::scope_statement, lz_scopes::specs::Scopes::after))]
fn resolve_body(
    alloc: Global,
    file: &WholeFile,
    place: &mut Place,
    body: &Stmt,
) -> Result<ScopedStmt, Memory>
    ensures place { OnOk result (place.new ≡ scopes.after_body place.old (statement body.now)) }
    ensures tree { IfOk result (λ t. scoped_statement t ≡ spec.scope_body file.now place.old (statement body.now)) }
{
    match body {
        Stmt::Block { parts } => {
            let parts = resolve_parts(alloc, file, place, parts)?;
            Ok(block_of(parts))
        }
        Stmt::Empty | Stmt::Eval { .. } | Stmt::Declare { .. } | Stmt::If { .. } => {
            resolve_stmt(alloc, file, place, body)
        }
        Stmt::While { .. } | Stmt::Do { .. } | Stmt::For { .. } | Stmt::Label { .. } => {
            resolve_stmt(alloc, file, place, body)
        }
        Stmt::Break { .. } | Stmt::Continue { .. } | Stmt::Return { .. } => {
            resolve_stmt(alloc, file, place, body)
        }
    }
}

/// A function with its body, and the place behind it.
fn resolve_function(
    alloc: Global,
    file: &WholeFile,
    place: &mut Place,
    gives: TypeName,
    name: u32,
    params: &[Param],
    body: &Stmt,
) -> Result<ScopedFunction, Memory>
    ensures place { OnOk result (place.new ≡ scopes.past place.old name (scopes.after_body (scopes.into_body place.old gives name params.now) (statement body.now))) }
    ensures tree { IfOk result (λ f. scoped_definition f ≡ spec.scope_function file.now place.old gives name params.now (statement body.now)) }
{
    let kinds = param_kinds(alloc, params)?;
    let outer = enter(place, name, gives)?;
    declare_params(place, params)?;
    let body = resolve_body(alloc, file, place, body)?;
    let locals = place.counts.locals;
    leave_function(place, outer)?;
    Ok(ScopedFunction {
        start: is_start_form(gives, params),
        locals,
        params: kinds,
        gives: value_kind(value_type(gives)),
        body,
    })
}

/// Declares the objects of declarators in their order.
fn declare_all(place: &mut Place, base: TypeName, declarators: &[Declarator]) -> Result<(), Memory>
    ensures { OnOk result (place.new ≡ scopes.with_declarators place.old base (map init_declarator declarators.now)) }
{
    for d in declarators {
        declare_one(place, base, d)?;
    }
    Ok(())
}

/// Declares the objects of a declaration.
fn declare_objects(place: &mut Place, of: &Objects) -> Result<(), Memory>
    ensures { OnOk result (place.new ≡ scopes.with_declaration place.old (declaration of.now)) }
{
    declare_all(place, of.base, of.declarators.items())
}

/// Adds what an external declaration is to the functions before it, and goes behind it.
#[tactic(auto, unfolding(lz_scopes::specs::Scopes::after_external))]
fn resolve_external(
    alloc: Global,
    file: &WholeFile,
    place: &mut Place,
    external: &External,
    functions: &mut ScopedFunctions,
) -> Result<(), Memory>
    ensures place { OnOk result (place.new ≡ scopes.after_external place.old (external_declaration external.now)) }
    ensures trees { OnOk result (map scoped_definition functions.new ≡ map scoped_definition functions.old ++ spec.scope_external file.now place.old (external_declaration external.now)) }
{
    match external {
        External::Objects { of, .. } => {
            declare_objects(place, of)?;
            Ok(())
        }
        External::Prototype { name, .. } => {
            place.functions.declare(*name)?;
            Ok(())
        }
        External::Function {
            gives,
            name,
            params,
            body,
            ..
        } => {
            let function = resolve_function(
                alloc,
                file,
                place,
                *gives,
                *name,
                params.items(),
                body,
            )?;
            functions.push(function)?;
            Ok(())
        }
    }
}

/// The functions of external declarations in the order of the text, and the place behind them.
pub fn resolve_externals(
    alloc: Global,
    file: &WholeFile,
    place: &mut Place,
    externals: &[External],
) -> Result<ScopedFunctions, Memory>
    ensures place { OnOk result (place.new ≡ spec.after_externals place.old (map external_declaration externals.now)) }
    ensures trees { IfOk result (λ functions. map scoped_definition functions ≡ spec.scope_externals file.now place.old (map external_declaration externals.now)) }
{
    let mut functions = Sequence::new(alloc);
    for external in externals {
        resolve_external(alloc, file, place, external, &mut functions)?;
    }
    Ok(functions)
}
