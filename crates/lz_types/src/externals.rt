ghost use Rattle.std.specs.Prelude.{◌≡◌, ◌++◌, not, ◌&&◌, ◌||◌, map, slice_get, IfOk, OnOk};
ghost use Rattle.lz_tree.specs.Trees.{statement, external_declaration};
ghost use Rattle.lz_scopes.specs.Scopes as scopes;
ghost use Rattle.lz_scopes.specs.Files.{function_named};
ghost use Rattle.lz_scopes.specs.ValueTypes.{is_pointer, value_type};
ghost use Rattle.lz_types.specs.Faults as spec;
ghost use Rattle.lz_types.specs.Parts.{has_start_form, prototype_faults, function_faults, behind_function};

use crate::declarations::{is_declared_here, walk_declaration};
use crate::note::push_when;
use crate::params::{is_other, is_start_form, walk_params};
use crate::statements::walk_body;
use lz_base::Memory;
use lz_scopes::{
    Fault, Place, Rule, WholeFile, are_one_type, enter, is_refused, is_taken, leave_function,
    leave_prototype, opening, value_type,
};
use lz_tree::{External, Param, Stmt, TypeName};
use std::alloc::Global;

/// Whether a prototype differs from the function of its name, if the file has one with a body.
fn differs(file: &WholeFile, gives: TypeName, name: u32, params: &[Param], void_word: bool) -> bool
    ensures { result ≡ spec.is_other gives (scopes.bases params.now) void_word (spec.definition file.now name) }
{
    match file.function_named(name) {
        None => false,
        Some(function) => is_other(file, gives, params, void_word, function),
    }
}

/// Whether the result is a `void *` of a function that has not the form of a start routine.
fn is_stray_pointer(gives: TypeName, params: &[Param]) -> bool
    ensures { result ≡ (is_pointer (value_type gives) && not (has_start_form gives params.now)) }
{
    value_type(gives).is_pointer() && !is_start_form(gives, params)
}

/// Notes the rules that a prototype breaks by itself.
#[tactic(auto, using(crate::proofs::WalkLemmas::at_append))]
fn note_prototype(
    file: &WholeFile,
    place: &Place,
    line: u32,
    gives: TypeName,
    name: u32,
    params: &[Param],
    void_word: bool,
    faults: &mut Vec<Fault>,
) -> Result<(), Memory>
    ensures { OnOk result (faults.new.items ≡ faults.old.items ++ spec.at line (spec.prototype_rules file.now place.now gives name params.now void_word)) }
{
    let of = value_type(gives);
    push_when(
        faults,
        line,
        is_declared_here(place, name),
        Rule::DeclaredTwice,
    )?;
    push_when(faults, line, of.is_no_operand(), Rule::TypeMisfit)?;
    let pointer = is_stray_pointer(gives, params);
    push_when(faults, line, pointer, Rule::PointerOutsideStart)?;
    push_when(faults, line, is_refused(gives), Rule::RefusedType)?;
    let other = file.known(name).is_none() && differs(file, gives, name, params, void_word);
    push_when(faults, line, other, Rule::OtherPrototype)?;
    Ok(())
}

/// Notes the faults of a prototype, and goes behind it.
fn walk_prototype(
    file: &WholeFile,
    place: &mut Place,
    line: u32,
    gives: TypeName,
    name: u32,
    params: &[Param],
    void_word: bool,
    faults: &mut Vec<Fault>,
) -> Result<(), Memory>
    ensures place { OnOk result (place.new ≡ scopes.with_function place.old name) }
    ensures faults { OnOk result (faults.new.items ≡ faults.old.items ++ prototype_faults file.now place.old line gives name params.now void_word) }
{
    note_prototype(file, place, line, gives, name, params, void_word, faults)?;
    let outer = enter(place, name, gives)?;
    walk_params(file, place, is_start_form(gives, params), params, faults)?;
    leave_prototype(place, outer);
    Ok(())
}

/// Whether a function of the name is defined before the one of the place.
fn is_defined_before(file: &WholeFile, place: &Place, name: u32) -> bool
    ensures { result ≡ spec.is_defined_before (function_named file.now.functions name) place.now.function }
{
    match file.function_named(name) {
        None => false,
        Some(function) => function < place.function,
    }
}

/// Whether an object or an earlier function has the name.
fn is_defined_twice(file: &WholeFile, place: &Place, name: u32) -> bool
    ensures { result ≡ (scopes.has_object place.now name || spec.is_defined_before (function_named file.now.functions name) place.now.function) }
{
    is_declared_here(place, name) || is_defined_before(file, place, name)
}

/// Notes the rules that a function with a body breaks by itself.
#[tactic(auto, using(crate::proofs::WalkLemmas::at_append))]
fn note_function(
    file: &WholeFile,
    place: &Place,
    line: u32,
    gives: TypeName,
    name: u32,
    params: &[Param],
    faults: &mut Vec<Fault>,
) -> Result<(), Memory>
    ensures { OnOk result (faults.new.items ≡ faults.old.items ++ spec.at line (spec.function_rules file.now place.now gives name params.now)) }
{
    let of = value_type(gives);
    let twice = is_defined_twice(file, place, name);
    push_when(faults, line, twice, Rule::DeclaredTwice)?;
    let taken = is_taken(file.known(name));
    push_when(faults, line, taken, Rule::KnownNameTaken)?;
    push_when(faults, line, of.is_no_operand(), Rule::TypeMisfit)?;
    let pointer = is_stray_pointer(gives, params);
    push_when(faults, line, pointer, Rule::PointerOutsideStart)?;
    push_when(faults, line, is_refused(gives), Rule::RefusedType)?;
    push_when(faults, line, file.is_high(place.function), Rule::TooHigh)?;
    Ok(())
}

/// Notes the faults of a function with a body, and goes behind it.
fn walk_function(
    file: &WholeFile,
    place: &mut Place,
    line: u32,
    gives: TypeName,
    name: u32,
    params: &[Param],
    body: &Stmt,
    faults: &mut Vec<Fault>,
) -> Result<(), Memory>
    ensures place { OnOk result (place.new ≡ behind_function place.old gives name params.now (statement body.now)) }
    ensures faults { OnOk result (faults.new.items ≡ faults.old.items ++ function_faults file.now place.old line gives name params.now (statement body.now)) }
{
    note_function(file, place, line, gives, name, params, faults)?;
    let outer = enter(place, name, gives)?;
    walk_params(file, place, is_start_form(gives, params), params, faults)?;
    walk_body(file, place, body, faults)?;
    leave_function(place, outer)?;
    Ok(())
}

/// Notes the faults of an external declaration, and goes behind it.
#[tactic(auto, unfolding(crate::specs::Faults::external_faults, lz_scopes::specs::Scopes::after_external))]
fn walk_external(
    file: &WholeFile,
    place: &mut Place,
    e: &External,
    faults: &mut Vec<Fault>,
) -> Result<(), Memory>
    ensures place { OnOk result (place.new ≡ scopes.after_external place.old (external_declaration e.now)) }
    ensures faults { OnOk result (faults.new.items ≡ faults.old.items ++ spec.external_faults file.now place.old (external_declaration e.now)) }
{
    match e {
        External::Objects { of, .. } => walk_declaration(file, place, of, faults),
        External::Prototype {
            line,
            gives,
            name,
            params,
            void_word,
            ..
        } => {
            let params = params.items();
            walk_prototype(
                file, place, *line, *gives, *name, params, *void_word, faults,
            )
        }
        External::Function {
            line,
            gives,
            name,
            params,
            body,
            ..
        } => {
            let params = params.items();
            walk_function(file, place, *line, *gives, *name, params, body, faults)
        }
    }
}

/// Notes the faults of external declarations in the order of the text, and goes behind them.
fn walk_externals(
    file: &WholeFile,
    place: &mut Place,
    externals: &[External],
    faults: &mut Vec<Fault>,
) -> Result<(), Memory>
    ensures { OnOk result (faults.new.items ≡ faults.old.items ++ spec.externals_faults file.now place.old (map external_declaration externals.now)) }
{
    for e in externals {
        walk_external(file, place, e, faults)?;
    }
    Ok(())
}

/// Whether the file defines `int main(void)`.
fn has_main(file: &WholeFile) -> bool
    ensures { result ≡ spec.has_main file.now }
{
    match file.main_function() {
        None => false,
        Some(function) => is_right_main(file, function),
    }
}

/// Whether a function is `int main(void)`.
fn is_right_main(file: &WholeFile, function: u32) -> bool
    ensures { result ≡ spec.main_in file.now (slice_get file.now.functions function) }
{
    match file.gives(function) {
        None => false,
        Some(gives) => are_one_type(gives, TypeName::Int) && file.params(function).is_empty(),
    }
}

/// All faults of the external declarations of a file, in order.
#[tactic(auto, unfolding(crate::specs::Faults::file_faults))]
pub fn file_faults(
    alloc: Global,
    file: &WholeFile,
    externals: &[External],
) -> Result<Vec<Fault>, Memory>
    ensures { IfOk result (λ faults. faults.items ≡ spec.file_faults file.now (map external_declaration externals.now)) }
{
    let mut faults = Vec::new(alloc);
    let mut place = opening(alloc);
    walk_externals(file, &mut place, externals, &mut faults)?;
    let none = !has_main(file);
    push_when(&mut faults, 0, none, Rule::NoMain)?;
    Ok(faults)
}
