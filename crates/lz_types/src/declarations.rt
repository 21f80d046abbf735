ghost use Rattle.std.specs.Prelude.{◌≡◌, ◌++◌, [], map, not, option_map, OnOk};
ghost use Rattle.lz_tree.specs.Trees.{expression, expressions_of, initializer, init_declarator, declaration};
ghost use Rattle.lz_scopes.specs.ValueTypes.{want_of, value_type};
ghost use Rattle.lz_scopes.specs.ExpressionTypes.{count};
ghost use Rattle.lz_scopes.specs.Constants as constants;
ghost use Rattle.lz_scopes.specs.Scopes as scopes;
ghost use Rattle.lz_types.specs.Faults as spec;

use crate::note::push_when;
use crate::walk::walk;
use lz_base::Memory;
use lz_scopes::{
    Fault, Place, Rule, ValueType, Want, WholeFile, constant_value, declare_one, elements_behind,
    is_bad_length, is_in_thread, is_outside, is_refused, is_taken, length_in, value_type,
};
use lz_tree::{Declarator, Expr, First, Objects, TypeName};

/// The most elements at file scope.
const ELEMENT_LIMIT: u32 = 65_536;

/// Notes the faults of an expression that may be left out.
#[tactic(auto, unfolding(crate::specs::Faults::faults))]
pub fn walk_optional(
    file: &WholeFile,
    place: &Place,
    want: Want,
    e: &Option<Expr>,
    faults: &mut Vec<Fault>,
) -> Result<(), Memory>
    ensures { OnOk result (faults.new.items ≡ faults.old.items ++ spec.optional_faults file.now place.now want (option_map expression e.now)) }
{
    match e {
        None => Ok(()),
        Some(e) => walk(file, place, want, e, faults),
    }
}

/// Notes the faults of the values of an array, each wanted as the same.
fn walk_values(
    file: &WholeFile,
    place: &Place,
    want: Want,
    values: &[Expr],
    faults: &mut Vec<Fault>,
) -> Result<(), Memory>
    ensures { OnOk result (faults.new.items ≡ faults.old.items ++ spec.all_faults file.now place.now [] want (expressions_of (map expression values.now))) }
{
    for e in values {
        walk(file, place, want, e, faults)?;
    }
    Ok(())
}

/// Notes the faults of an initializer's values.
#[tactic(auto, unfolding(crate::specs::Faults::faults))]
fn walk_initializer(
    file: &WholeFile,
    place: &Place,
    base: TypeName,
    first: &First,
    faults: &mut Vec<Fault>,
) -> Result<(), Memory>
    ensures { OnOk result (faults.new.items ≡ faults.old.items ++ spec.initializer_faults file.now place.now base (initializer first.now)) }
{
    match first {
        First::Nothing | First::Mutex | First::Cond => Ok(()),
        First::Value { value } => walk(file, place, value_type(base).want(), value, faults),
        First::Listed { values, .. } => {
            walk_values(file, place, value_type(base).want(), values, faults)
        }
    }
}

/// Whether the values of a list are more than the length of its array.
#[tactic(auto, using(lz_scopes::proofs::ArgumentsLemmas::count_of))]
fn is_longer(length: &Expr, values: &[Expr]) -> bool
    ensures { result ≡ spec.is_over (constants.length_in (constants.constant_value (expression length.now))) (count (expressions_of (map expression values.now))) }
{
    match length_in(constant_value(length)) {
        None => false,
        Some(most) => (most as usize) < values.len(),
    }
}

/// Whether it is no constant expression.
fn is_changing(e: &Expr) -> bool
    ensures { result ≡ not (constants.is_constant (constants.constant_value (expression e.now))) }
{
    constant_value(e).is_none()
}

/// Whether they are constant expressions.
fn are_constant(values: &[Expr]) -> bool
    ensures { result ≡ constants.are_constant (expressions_of (map expression values.now)) }
{
    for e in values {
        if is_changing(e) {
            return false;
        }
    }
    true
}

/// Whether an initializer is made of constant expressions.
fn is_constant_initializer(first: &First) -> bool
    ensures { result ≡ constants.is_constant_initializer (initializer first.now) }
{
    match first {
        First::Nothing | First::Mutex | First::Cond => true,
        First::Value { value } => {
            let changing = is_changing(value);
            !changing
        }
        First::Listed { values, .. } => are_constant(values),
    }
}

/// Whether the form of an initializer does not fit its object.
fn is_bad_initializer(of: ValueType, length: &Option<Expr>, first: &First) -> bool
    ensures { result ≡ spec.is_bad_initializer of (option_map expression length.now) (initializer first.now) }
{
    match first {
        First::Nothing => false,
        First::Value { .. } => length.is_some() || of.is_no_operand(),
        First::Listed { values, .. } => match length {
            None => true,
            Some(e) => is_longer(e, values) || of.is_no_operand(),
        },
        First::Mutex => length.is_some() || !matches!(of, ValueType::Mutex),
        First::Cond => length.is_some() || !matches!(of, ValueType::Cond),
    }
}

/// Whether the name is declared in the scope of the place.
pub fn is_declared_here(place: &Place, name: u32) -> bool
    ensures { result ≡ scopes.has_object place.now name }
{
    match place.names.nearest(name) {
        None => false,
        Some(e) => e.depth == place.depth,
    }
}

/// Whether a function of the name stands in the same scope.
fn meets_function(place: &Place, name: u32) -> bool
    ensures { result ≡ spec.meets_function place.now name }
{
    is_outside(place) && place.functions.has(name)
}

/// Notes the rules that the name, the type and the length of a declarator break.
#[tactic(auto, using(crate::proofs::WalkLemmas::at_append))]
fn note_declared(
    file: &WholeFile,
    place: &Place,
    base: TypeName,
    d: &Declarator,
    faults: &mut Vec<Fault>,
) -> Result<(), Memory>
    ensures { OnOk result (faults.new.items ≡ faults.old.items ++ spec.at d.now.line (spec.declared_rules file.now place.now base (init_declarator d.now))) }
{
    let twice = is_declared_here(place, d.name) || meets_function(place, d.name);
    push_when(faults, d.line, twice, Rule::DeclaredTwice)?;
    let taken = is_taken(file.known(d.name));
    push_when(faults, d.line, taken, Rule::KnownNameTaken)?;
    let of = value_type(base);
    let misfit = of.is_nothing() || of.is_pointer();
    push_when(faults, d.line, misfit, Rule::TypeMisfit)?;
    push_when(faults, d.line, is_bad_length(&d.length), Rule::BadLength)?;
    Ok(())
}

/// Notes the rules that the initializer of a declarator and its place break.
#[tactic(auto, using(crate::proofs::WalkLemmas::at_append))]
fn note_placed(
    file: &WholeFile,
    place: &Place,
    base: TypeName,
    d: &Declarator,
    faults: &mut Vec<Fault>,
) -> Result<(), Memory>
    ensures { OnOk result (faults.new.items ≡ faults.old.items ++ spec.at d.now.line (spec.placed_rules file.now place.now base (init_declarator d.now))) }
{
    let of = value_type(base);
    let outside = is_outside(place);
    let changing = outside && !is_constant_initializer(&d.first);
    push_when(faults, d.line, changing, Rule::NotConstant)?;
    let bad = is_bad_initializer(of, &d.length, &d.first);
    push_when(faults, d.line, bad, Rule::BadInitializer)?;
    let thread = matches!(of, ValueType::Thread) && is_in_thread(file, place);
    push_when(faults, d.line, thread, Rule::ThreadInThread)?;
    push_when(faults, d.line, !outside && of.is_lock(), Rule::LocalMutex)?;
    let many = outside && ELEMENT_LIMIT < elements_behind(place, base, d)?;
    push_when(faults, d.line, many, Rule::ManyElements)?;
    Ok(())
}

/// Notes the faults of a declarator and of its parts, and declares its object.
#[tactic(auto, using(crate::proofs::WalkLemmas::at_append))]
fn walk_declarator(
    file: &WholeFile,
    place: &mut Place,
    base: TypeName,
    d: &Declarator,
    faults: &mut Vec<Fault>,
) -> Result<(), Memory>
    ensures place { OnOk result (place.new ≡ scopes.with_declarator place.old base (init_declarator d.now)) }
    ensures faults { OnOk result (faults.new.items ≡ faults.old.items ++ spec.whole_declarator_faults file.now place.old base (init_declarator d.now)) }
{
    note_declared(file, place, base, d, faults)?;
    note_placed(file, place, base, d, faults)?;
    walk_optional(file, place, Want::Integer, &d.length, faults)?;
    declare_one(place, base, d)?;
    walk_initializer(file, place, base, &d.first, faults)?;
    Ok(())
}

/// Notes the faults of declarators in their order, and declares their objects.
#[tactic(auto, unfolding(crate::specs::Faults::declarators_faults))]
fn walk_declarators(
    file: &WholeFile,
    place: &mut Place,
    base: TypeName,
    declarators: &[Declarator],
    faults: &mut Vec<Fault>,
) -> Result<(), Memory>
    ensures place { OnOk result (place.new ≡ scopes.with_declarators place.old base (map init_declarator declarators.now)) }
    ensures faults { OnOk result (faults.new.items ≡ faults.old.items ++ spec.declarators_faults file.now place.old base (map init_declarator declarators.now)) }
{
    for d in declarators {
        walk_declarator(file, place, base, d, faults)?;
    }
    Ok(())
}

/// Notes the faults of a declaration, and declares its objects.
pub fn walk_declaration(
    file: &WholeFile,
    place: &mut Place,
    of: &Objects,
    faults: &mut Vec<Fault>,
) -> Result<(), Memory>
    ensures place { OnOk result (place.new ≡ scopes.with_declaration place.old (declaration of.now)) }
    ensures faults { OnOk result (faults.new.items ≡ faults.old.items ++ spec.declaration_faults file.now place.old (declaration of.now)) }
{
    push_when(faults, of.line, is_refused(of.base), Rule::RefusedType)?;
    walk_declarators(file, place, of.base, of.declarators.items(), faults)?;
    Ok(())
}
