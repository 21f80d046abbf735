//! Words that are read from the input.
ghost use Rattle.std.specs.Prelude.{◌≡◌, ◌+◌, ◌*◌, ◌<◌, ℕ, List, IfOk, OnOk, length, slice_index_or, slice_set, ◌++◌, ◌∷◌, [], replicate};
ghost use Rattle.std.specs.List.{All};
ghost use Rattle.lz_base.specs.declared.word.IntType.{IntType};
ghost use Rattle.lz_cnf.specs.Models.{variable_bound};
ghost use Rattle.lz_gates.specs.Circuits.{Circuit};
ghost use Rattle.lz_arith.specs.Bits.{AreBits};
ghost use Rattle.lz_arith.specs.Sizes.{word_width};
ghost use Rattle.lz_ssa.specs.declared.node.Node.TheVariants as nodes;
ghost use Rattle.lz_blast.specs.Encoding.{fresh_word, AreInputs};
ghost use Rattle.lz_blast.specs.Steps.{Steps};

use lz_arith::Bits;
use lz_base::{IntType, Memory, Sequence};
use lz_gates::Builder;
use std::alloc::Global;

/// Lists of literals, one for each word.
pub type BitsList = Sequence<Bits>;

/// A word of fresh literals.
fn fresh_bits(alloc: Global, builder: &mut Builder) -> Result<Bits, Memory>
    requires room { builder.old.variables + word_width < variable_bound }
    ensures bits { IfOk result (λ r. r ≡ fresh_word builder.old.variables word_width) }
    ensures variables { OnOk result (builder.new.variables ≡ builder.old.variables + word_width) }
    ensures clauses { OnOk result (builder.new.clauses ≡ builder.old.clauses) }
{
    let mut bits = Bits::new(alloc);
    for _i in 0..32_usize {
        let lit = builder.fresh()?;
        bits.push(lit)?;
    }
    Ok(bits)
}

/// A copy of the literals of a word.
fn copy_of(alloc: Global, bits: &Bits) -> Result<Bits, Memory>
    ensures { IfOk result (λ r. r ≡ bits.now) }
{
    let mut copy = Bits::new(alloc);
    copy.append(bits.items())?;
    Ok(copy)
}

/// So many inputs without literals.
pub(crate) fn unread(alloc: Global, count: u32) -> Result<Vec<Bits>, Memory>
    ensures { IfOk result (λ r. r.items ≡ replicate count []) }
{
    let mut inputs = Vec::new(alloc);
    for _i in 0..count {
        inputs.push(Bits::new(alloc))?;
    }
    Ok(inputs)
}

/// The first node of an input: fresh literals, which the input keeps.
fn add_fresh(
    alloc: Global,
    builder: &mut Builder,
    words: &mut BitsList,
    inputs: &mut Vec<Bits>,
    number: u32,
    kind: IntType,
) -> Result<(), Memory>
    requires number { number < length inputs.old.items }
    requires unread { length (slice_index_or inputs.old.items number []) ≡ 0 }
    requires room { builder.old.variables + word_width < variable_bound }
    ensures steps { OnOk result (Steps builder.old builder.new inputs.old.items inputs.new.items words.old words.new (nodes.Input number kind)) }
    ensures inputs { OnOk result (length inputs.new.items ≡ length inputs.old.items) }
{
    let _ = kind;
    let bits = fresh_bits(alloc, builder)?;
    let copy = copy_of(alloc, &bits)?;
    words.push(bits)?;
    inputs[number as usize] = copy;
    Ok(())
}

/// Another node of an input: its literals once more.
fn add_again(
    alloc: Global,
    words: &mut BitsList,
    inputs: &[Bits],
    number: u32,
    kind: IntType,
) -> Result<(), Memory>
    requires number { number < length inputs.now }
    requires read { 0 < length (slice_index_or inputs.now number []) }
    ensures steps { OnOk result ((circuit : Circuit) → Steps circuit circuit inputs.now inputs.now words.old words.new (nodes.Input number kind)) }
{
    let _ = kind;
    let copy = copy_of(alloc, &inputs[number as usize])?;
    words.push(copy)?;
    Ok(())
}

/// A node of an input.
pub(crate) fn add_input(
    alloc: Global,
    builder: &mut Builder,
    words: &mut BitsList,
    inputs: &mut Vec<Bits>,
    number: u32,
    kind: IntType,
) -> Result<(), Memory>
    requires number { number < length inputs.old.items }
    requires room { builder.old.variables + word_width < variable_bound }
    ensures steps { OnOk result (Steps builder.old builder.new inputs.old.items inputs.new.items words.old words.new (nodes.Input number kind)) }
    ensures inputs { OnOk result (length inputs.new.items ≡ length inputs.old.items) }
{
    if inputs[number as usize].items().len() == 0 {
        add_fresh(alloc, builder, words, inputs, number, kind)?;
        return Ok(());
    }
    add_again(alloc, words, inputs, number, kind)?;
    Ok(())
}

/// The inputs as a list.
pub(crate) fn listed(alloc: Global, inputs: Vec<Bits>) -> Result<BitsList, Memory>
    ensures { IfOk result (λ r. r ≡ inputs.items) }
{
    let mut list = BitsList::new(alloc);
    for bits in inputs {
        list.push(bits)?;
    }
    Ok(list)
}
