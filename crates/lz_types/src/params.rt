ghost use Rattle.std.specs.Prelude.{◌≡◌, ◌++◌, not, OnOk, slice_get};
ghost use Rattle.lz_scopes.specs.Scopes as scopes;
ghost use Rattle.lz_scopes.specs.ValueTypes as values;
ghost use Rattle.lz_types.specs.Faults as spec;
ghost use Rattle.lz_types.specs.Parts.{params_differ, has_start_form, is_one_at};

use crate::declarations::is_declared_here;
use crate::note::push_when;
use lz_base::Memory;
use lz_scopes::{
    Fault, Place, Rule, ValueType, WholeFile, are_one_type, declare_param, is_refused, is_taken,
    value_type,
};
use lz_tree::{Param, TypeName};

/// Whether a parameter of the name is declared before.
fn is_repeated(place: &Place, name: Option<u32>) -> bool
    ensures { result ≡ spec.is_repeated place.now name }
{
    match name {
        None => false,
        Some(name) => is_declared_here(place, name),
    }
}

/// Whether a parameter's name may not be taken.
fn takes_known(file: &WholeFile, name: Option<u32>) -> bool
    ensures { result ≡ spec.takes_known_if file.now name }
{
    match name {
        None => false,
        Some(name) => is_taken(file.known(name)),
    }
}

/// Notes the rules that a parameter breaks by itself.
#[tactic(auto, using(crate::proofs::WalkLemmas::at_append))]
fn note_param(
    file: &WholeFile,
    place: &Place,
    start: bool,
    p: &Param,
    faults: &mut Vec<Fault>,
) -> Result<(), Memory>
    ensures { OnOk result (faults.new.items ≡ faults.old.items ++ spec.at p.now.line (spec.param_rules file.now place.now start p.now)) }
{
    let of = value_type(p.base);
    let twice = is_repeated(place, p.name);
    push_when(faults, p.line, twice, Rule::DeclaredTwice)?;
    let taken = takes_known(file, p.name);
    push_when(faults, p.line, taken, Rule::KnownNameTaken)?;
    let misfit = of.is_nothing() || matches!(of, ValueType::Thread);
    push_when(faults, p.line, misfit, Rule::TypeMisfit)?;
    let outside = of.is_pointer() && !start;
    push_when(faults, p.line, outside, Rule::PointerOutsideStart)?;
    push_when(faults, p.line, of.is_lock(), Rule::LocalMutex)?;
    push_when(faults, p.line, is_refused(p.base), Rule::RefusedType)?;
    Ok(())
}

/// Notes the faults of a parameter, and declares it.
fn walk_param(
    file: &WholeFile,
    place: &mut Place,
    start: bool,
    p: &Param,
    faults: &mut Vec<Fault>,
) -> Result<(), Memory>
    ensures place { OnOk result (place.new ≡ scopes.with_param place.old p.now.base p.now.name) }
    ensures faults { OnOk result (faults.new.items ≡ faults.old.items ++ spec.at p.now.line (spec.param_rules file.now place.old start p.now)) }
{
    note_param(file, place, start, p, faults)?;
    declare_param(place, p)?;
    Ok(())
}

/// Notes the faults of parameters in their order, and declares them, in a function that has the form of a start
/// routine or not.
#[tactic(auto, unfolding(crate::specs::Faults::params_faults))]
pub fn walk_params(
    file: &WholeFile,
    place: &mut Place,
    start: bool,
    params: &[Param],
    faults: &mut Vec<Fault>,
) -> Result<(), Memory>
    ensures place { OnOk result (place.new ≡ scopes.with_params place.old params.now) }
    ensures faults { OnOk result (faults.new.items ≡ faults.old.items ++ spec.params_faults file.now place.old start params.now) }
{
    for p in params {
        walk_param(file, place, start, p, faults)?;
    }
    Ok(())
}

/// Whether there is one parameter, a `void *`.
fn is_one_pointer(params: &[Param]) -> bool
    ensures { result ≡ scopes.is_one_pointer (scopes.bases params.now) }
{
    match params {
        [p] => value_type(p.base).is_pointer(),
        _ => false,
    }
}

/// Whether a function has the form of a start routine.
pub fn is_start_form(gives: TypeName, params: &[Param]) -> bool
    ensures { result ≡ has_start_form gives params.now }
{
    value_type(gives).is_pointer() && is_one_pointer(params)
}

/// Whether a type is not the one at a place of a list.
fn differs_at(base: TypeName, others: &[TypeName], at: usize) -> bool
    ensures { result ≡ not (is_one_at base (slice_get others.now at)) }
{
    match others.get(at) {
        None => true,
        Some(other) => !are_one_type(base, *other),
    }
}

/// Whether parameters have these types.
fn are_one_list(params: &[Param], others: &[TypeName]) -> bool
    ensures { result ≡ values.are_one_list (scopes.bases params.now) others.now }
{
    let mut at = 0;
    for p in params {
        if differs_at(p.base, others, at) {
            return false;
        }
        at += 1;
    }
    others.get(at).is_none()
}

/// Whether parameters differ from these types, where an empty list fits every one.
fn differ(params: &[Param], void_word: bool, others: &[TypeName]) -> bool
    ensures { result ≡ params_differ (scopes.bases params.now) void_word others.now }
{
    if params.is_empty() && !void_word {
        return false;
    }
    let same = are_one_list(params, others);
    !same
}

/// Whether a prototype differs from a function with a body.
pub fn is_other(
    file: &WholeFile,
    gives: TypeName,
    params: &[Param],
    void_word: bool,
    function: u32,
) -> bool
    ensures { result ≡ spec.is_other gives (scopes.bases params.now) void_word (slice_get file.now.functions function) }
{
    match file.gives(function) {
        None => false,
        Some(other) => {
            let same = are_one_type(gives, other);
            !same || differ(params, void_word, file.params(function))
        }
    }
}
