ghost use Rattle.std.specs.Prelude.{◌≡◌, ◌++◌, [], ◌∷◌, false, map, replicate, OnOk, IfOk};
ghost use Rattle.lz_tree.specs.Trees.{expression, expressions_of, listed, initializer, init_declarator, declaration, external_declaration};
ghost use Rattle.lz_scopes.specs.Constants as constants;
ghost use Rattle.lz_resolve.specs.ScopedPrograms as spec;

use lz_base::{Memory, Sequence, Value, Values};
use lz_scopes::{ValueType, as_word, constant_value, elements, value_type};
use lz_tree::{Declarator, Expr, External, First, Objects};
use std::alloc::Global;

/// The first word that an expression gives, which is 0 where it is no constant.
fn word_in(e: &Expr) -> Value
    ensures { result ≡ spec.word_in (constants.constant_value (expression e.now)) }
{
    match constant_value(e) {
        None => 0,
        Some(a) => as_word(a.value),
    }
}

/// Adds so many zeros.
fn push_zeros(cells: &mut Values, count: usize) -> Result<(), Memory>
    ensures { OnOk result (cells.new ≡ cells.old ++ replicate count 0) }
{
    for _cell in 0..count {
        cells.push(0)?;
    }
    Ok(())
}

/// Adds the first words that values give.
fn push_words(cells: &mut Values, values: &[Expr]) -> Result<(), Memory>
    ensures { OnOk result (cells.new ≡ cells.old ++ spec.words_in (expressions_of (map expression values.now))) }
{
    for e in values {
        cells.push(word_in(e))?;
    }
    Ok(())
}

/// Adds the first words of so many elements with a list of values.
fn push_listed(cells: &mut Values, count: usize, values: &[Expr]) -> Result<(), Memory>
    ensures { OnOk result (cells.new ≡ cells.old ++ spec.first_words count (listed (expressions_of (map expression values.now)) false)) }
{
    push_words(cells, values)?;
    let zeros = count.saturating_sub(values.len());
    push_zeros(cells, zeros)?;
    Ok(())
}

/// Adds the first words of so many elements.
fn push_first(cells: &mut Values, count: usize, first: &First) -> Result<(), Memory>
    ensures { OnOk result (cells.new ≡ cells.old ++ spec.first_words count (initializer first.now)) }
{
    match first {
        First::Value { value } => {
            cells.push(word_in(value))?;
            push_zeros(cells, count.saturating_sub(1))?;
            Ok(())
        }
        First::Listed { values, .. } => {
            push_listed(cells, count, values)?;
            Ok(())
        }
        First::Nothing | First::Mutex | First::Cond => {
            push_zeros(cells, count)?;
            Ok(())
        }
    }
}

/// Adds the first words of the objects of declarators.
fn push_declarators(cells: &mut Values, declarators: &[Declarator]) -> Result<(), Memory>
    ensures { OnOk result (cells.new ≡ cells.old ++ spec.declarators_words (map init_declarator declarators.now)) }
{
    for d in declarators {
        push_first(cells, elements(&d.length) as usize, &d.first)?;
    }
    Ok(())
}

/// Adds the first words of the objects of a declaration, which are cells where they are integers.
fn push_declaration(cells: &mut Values, of: &Objects) -> Result<(), Memory>
    ensures { OnOk result (cells.new ≡ cells.old ++ spec.declaration_words (declaration of.now)) }
{
    match value_type(of.base) {
        ValueType::Integer { .. } => {
            push_declarators(cells, of.declarators.items())?;
            Ok(())
        }
        _ => Ok(()),
    }
}

/// Adds the first words of an external declaration.
#[tactic(auto, using(crate::proofs::CellsLemmas::words_alone), unfolding(crate::specs::ScopedPrograms::cells_of))]
fn push_external(cells: &mut Values, external: &External) -> Result<(), Memory>
    ensures { OnOk result (cells.new ≡ cells.old ++ spec.cells_of (external_declaration external.now ∷ [])) }
{
    match external {
        External::Objects { of, .. } => {
            push_declaration(cells, of)?;
            Ok(())
        }
        External::Prototype { .. } | External::Function { .. } => Ok(()),
    }
}

/// The first words of the cells of a file.
pub fn cells_of(alloc: Global, externals: &[External]) -> Result<Values, Memory>
    ensures { IfOk result (λ cells. cells ≡ spec.cells_of (map external_declaration externals.now)) }
{
    let mut cells = Sequence::new(alloc);
    for external in externals {
        push_external(&mut cells, external)?;
    }
    Ok(cells)
}
