//! A choice between words, and a word or 0.
ghost use Rattle.std.specs.Prelude.{◌≡◌, ℕ, ◌+◌, ◌*◌, ◌^◌, ◌%◌, ◌<◌, ◌≤◌, IfOk, OnOk, length, if◌then◌else◌};
ghost use Rattle.lz_cnf.specs.Models.{variable_bound};
ghost use Rattle.lz_gates.specs.Circuits.{Assignment, value, IsLit, AreLits, Makes};
ghost use Rattle.lz_arith.specs.Bits.{bit, word, AreBits};

use crate::lists::Bits;
use lz_base::Memory;
use lz_cnf::Lit;
use lz_gates::Builder;
use std::alloc::Global;

/// One of two words of one width.
pub(crate) fn choose_words(
    alloc: Global,
    builder: &mut Builder,
    test: Lit,
    yes: &[Lit],
    no: &[Lit],
) -> Result<Bits, Memory>
    requires test { IsLit builder.old test }
    requires yes { AreLits builder.old yes.now }
    requires no { AreBits builder.old (length yes.now) no.now }
    requires room { builder.old.variables + length yes.now < variable_bound }
    ensures bits { IfOk result (AreBits builder.new (length yes.now)) }
    ensures made { IfOk result (λ bits. Makes builder.old builder.new (length yes.now) (6 * length yes.now)
        (λ a. word a bits ≡ (if value a test then word a yes.now else word a no.now))) }
{
    let mut bits = Bits::new(alloc);
    for i in 0..yes.len() {
        let lit = builder.choose_gate(test, yes[i], no[i])?;
        bits.push(lit)?;
    }
    Ok(bits)
}

/// The word where the literal is true, and 0 else.
pub(crate) fn mask_word(
    alloc: Global,
    builder: &mut Builder,
    test: Lit,
    lits: &[Lit],
) -> Result<Bits, Memory>
    requires test { IsLit builder.old test }
    requires lits { AreLits builder.old lits.now }
    requires room { builder.old.variables + length lits.now < variable_bound }
    ensures bits { IfOk result (AreBits builder.new (length lits.now)) }
    ensures made { IfOk result (λ bits. Makes builder.old builder.new (length lits.now) (3 * length lits.now)
        (λ a. word a bits ≡ bit (value a test) * word a lits.now)) }
{
    let mut bits = Bits::new(alloc);
    for i in 0..lits.len() {
        let lit = builder.and_gate(test, lits[i])?;
        bits.push(lit)?;
    }
    Ok(bits)
}
