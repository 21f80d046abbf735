ghost use Rattle.std.specs.Prelude.{◌≡◌, map, option_map, OnOk, IfOk};
ghost use Rattle.lz_tree.specs.Trees.{expression, initializer, init_declarator, declaration};
ghost use Rattle.lz_tree.specs.ScopedTrees.{scoped_expression, scoped_initializer, scoped_declarator, scoped_declaration};
ghost use Rattle.lz_scopes.specs.Scopes as scopes;
ghost use Rattle.lz_resolve.specs.ScopedPrograms as spec;

use crate::expressions::{resolve_all, resolve_expr};
use lz_base::{Memory, Sequence};
use lz_scopes::{Place, WholeFile, declare_one, elements, object_from, value_type};
use lz_tree::{
    Declarator, Expr, First, Objects, ScopedDeclarator, ScopedDeclarators, ScopedExpr, ScopedFirst,
    ScopedObjects, TypeName,
};
use std::alloc::Global;

/// An expression that may be left out.
pub fn resolve_optional(
    alloc: Global,
    file: &WholeFile,
    place: &Place,
    e: &Option<Expr>,
) -> Result<Option<ScopedExpr>, Memory>
    ensures { IfOk result (λ s. option_map scoped_expression s ≡ spec.scope_optional file.now place.now (option_map expression e.now)) }
{
    match e {
        None => Ok(None),
        Some(e) => {
            let scoped = resolve_expr(alloc, file, place, e)?;
            Ok(Some(scoped))
        }
    }
}

/// An initializer.
fn resolve_initializer(
    alloc: Global,
    file: &WholeFile,
    place: &Place,
    first: &First,
) -> Result<ScopedFirst, Memory>
    ensures { IfOk result (λ s. scoped_initializer s ≡ spec.scope_initializer file.now place.now (initializer first.now)) }
{
    match first {
        First::Nothing | First::Mutex | First::Cond => Ok(ScopedFirst::Nothing),
        First::Value { value } => {
            let value = resolve_expr(alloc, file, place, value)?;
            Ok(ScopedFirst::Value { value })
        }
        First::Listed { values, .. } => {
            let values = resolve_all(alloc, file, place, values)?;
            Ok(ScopedFirst::Listed { values })
        }
    }
}

/// A declarator, whose object is declared: its length stands before that, and its initializer behind it.
fn resolve_declarator(
    alloc: Global,
    file: &WholeFile,
    place: &mut Place,
    base: TypeName,
    d: &Declarator,
) -> Result<ScopedDeclarator, Memory>
    ensures place { OnOk result (place.new ≡ scopes.with_declarator place.old base (init_declarator d.now)) }
    ensures tree { IfOk result (λ s. scoped_declarator s ≡ spec.scope_declarator file.now place.old base (init_declarator d.now)) }
{
    let object = object_from(place, value_type(base), elements(&d.length));
    let length = resolve_optional(alloc, file, place, &d.length)?;
    declare_one(place, base, d)?;
    let first = resolve_initializer(alloc, file, place, &d.first)?;
    Ok(ScopedDeclarator {
        line: d.line,
        object,
        length,
        first,
    })
}

/// Declarators in their order, whose objects are declared.
fn resolve_declarators(
    alloc: Global,
    file: &WholeFile,
    place: &mut Place,
    base: TypeName,
    declarators: &[Declarator],
) -> Result<ScopedDeclarators, Memory>
    ensures place { OnOk result (place.new ≡ scopes.with_declarators place.old base (map init_declarator declarators.now)) }
    ensures tree { IfOk result (λ s. map scoped_declarator s ≡ spec.scope_declarators file.now place.old base (map init_declarator declarators.now)) }
{
    let mut all = Sequence::new(alloc);
    for d in declarators {
        let scoped = resolve_declarator(alloc, file, place, base, d)?;
        all.push(scoped)?;
    }
    Ok(all)
}

/// A declaration, whose objects are declared.
pub fn resolve_declaration(
    alloc: Global,
    file: &WholeFile,
    place: &mut Place,
    of: &Objects,
) -> Result<ScopedObjects, Memory>
    ensures place { OnOk result (place.new ≡ scopes.with_declaration place.old (declaration of.now)) }
    ensures tree { IfOk result (λ s. scoped_declaration s ≡ spec.scope_declaration file.now place.old (declaration of.now)) }
{
    let declarators = resolve_declarators(alloc, file, place, of.base, of.declarators.items())?;
    Ok(ScopedObjects {
        line: of.line,
        declarators,
    })
}
