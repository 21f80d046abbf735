//! The truth test of a word.
ghost use Rattle.std.specs.Prelude.{◌≡◌, ◌∷◌, ℕ, ◌+◌, ◌*◌, ◌<◌, ◌≤◌, IfOk, OnOk, length, not, nat_eq, ◌==◌, ◌++◌, [], if◌then◌else◌};
ghost use Rattle.lz_cnf.specs.Models.{variable_bound};
ghost use Rattle.lz_gates.specs.Circuits.{Assignment, value, IsLit, AreLits, Makes};
ghost use Rattle.lz_arith.specs.Bits.{word};
ghost use Rattle.lz_arith.specs.Open.{KeepsTest};

use crate::lists::{Bits, one_before, repeated};
use lz_base::Memory;
use lz_cnf::Lit;
use lz_gates::Builder;
use std::alloc::Global;

/// Adds the literal, unless it is the false one.
fn push_open(kept: &mut Bits, off: Lit, lit: Lit) -> Result<(), Memory>
    ensures { OnOk result (kept.new ≡ (if lit.0 == off.0 then kept.old else kept.old ++ lit ∷ [])) }
{
    if lit.0 == off.0 {
        return Ok(());
    }
    kept.push(lit)?;
    Ok(())
}

/// The literals that a truth test depends on: none that is false, and the true one alone where it is among them.
fn open_literals(alloc: Global, on: Lit, off: Lit, bits: &[Lit]) -> Result<Bits, Memory>
    ensures { IfOk result (KeepsTest on off bits.now) }
{
    let mut kept = Bits::new(alloc);
    for i in 0..bits.len() {
        let lit = bits[i];
        if lit.0 == on.0 {
            let one = repeated(alloc, on, 1)?;
            return Ok(one);
        }
        push_open(&mut kept, off, lit)?;
    }
    Ok(kept)
}

/// Whether the word is not 0, by a new variable: one fresh literal, a clause for each bit, and one that holds them all.
fn new_test(alloc: Global, builder: &mut Builder, bits: &[Lit]) -> Result<Lit, Memory>
    requires bits { AreLits builder.old bits.now }
    requires room { builder.old.variables + 1 < variable_bound }
    ensures lit { IfOk result (IsLit builder.new) }
    ensures made { IfOk result (λ lit. Makes builder.old builder.new 1 (length bits.now + 1)
        (λ a. value a lit ≡ not (nat_eq (word a bits.now) 0))) }
{
    let test = builder.fresh()?;
    for i in 0..bits.len() {
        builder.require(&[bits[i].negated(), test])?;
    }
    let some = one_before(alloc, test.negated(), bits)?;
    builder.require(some.items())?;
    Ok(test)
}

/// Whether the word is not 0. It takes no variable and no clause where at most one literal is open.
pub(crate) fn truth_test(alloc: Global, builder: &mut Builder, bits: &[Lit]) -> Result<Lit, Memory>
    requires bits { AreLits builder.old bits.now }
    requires room { builder.old.variables + 1 < variable_bound }
    ensures lit { IfOk result (IsLit builder.new) }
    ensures made { IfOk result (λ lit. Makes builder.old builder.new 1 (length bits.now + 1)
        (λ a. value a lit ≡ not (nat_eq (word a bits.now) 0))) }
{
    let on = builder.truth();
    let off = builder.falsity();
    let kept = open_literals(alloc, on, off, bits)?;
    let lits = kept.items();
    if lits.len() == 0 {
        return Ok(off);
    }
    if lits.len() == 1 {
        return Ok(lits[0]);
    }
    let test = new_test(alloc, builder, lits)?;
    Ok(test)
}
