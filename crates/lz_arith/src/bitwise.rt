//! Operators that work bit by bit.
ghost use Rattle.std.specs.Prelude.{◌≡◌, ℕ, ◌+◌, ◌*◌, ◌<◌, ◌≤◌, IfOk, length};
ghost use Rattle.lz_cnf.specs.Models.{variable_bound};
ghost use Rattle.lz_gates.specs.Circuits.{Assignment, value, IsLit, AreLits, Makes};
ghost use Rattle.lz_arith.specs.Bits.{word, AreBits};
ghost use Rattle.lz_arith.specs.Bitwise.{bitwise_value, bitwise_number};

use crate::lists::Bits;
use lz_base::Memory;
use lz_cnf::Lit;
use lz_gates::Builder;
use std::alloc::Global;

/// What is made of two bits.
#[derive(Clone, Copy)]
pub(crate) enum Bitwise {
    And,
    Xor,
    Or,
}

/// Whether one of two literals is true: at most one variable and three clauses.
pub(crate) fn or_gate(builder: &mut Builder, left: Lit, right: Lit) -> Result<Lit, Memory>
    requires left { IsLit builder.old left }
    requires right { IsLit builder.old right }
    requires room { builder.old.variables + 1 < variable_bound }
    ensures lit { IfOk result (IsLit builder.new) }
    ensures made { IfOk result (λ lit. Makes builder.old builder.new 1 3 (λ a. value a lit ≡ bitwise_value Bitwise.Or (value a left) (value a right))) }
{
    let neither = builder.and_gate(left.negated(), right.negated())?;
    Ok(neither.negated())
}

/// The gate of one bit.
fn bitwise_gate(builder: &mut Builder, kind: Bitwise, left: Lit, right: Lit) -> Result<Lit, Memory>
    requires left { IsLit builder.old left }
    requires right { IsLit builder.old right }
    requires room { builder.old.variables + 1 < variable_bound }
    ensures lit { IfOk result (IsLit builder.new) }
    ensures made { IfOk result (λ lit. Makes builder.old builder.new 1 4 (λ a. value a lit ≡ bitwise_value kind (value a left) (value a right))) }
{
    match kind {
        Bitwise::And => builder.and_gate(left, right),
        Bitwise::Xor => builder.xor_gate(left, right),
        Bitwise::Or => or_gate(builder, left, right),
    }
}

/// The word made of two words bit by bit.
pub(crate) fn bitwise_words(
    alloc: Global,
    builder: &mut Builder,
    kind: Bitwise,
    left: &[Lit],
    right: &[Lit],
) -> Result<Bits, Memory>
    requires left { AreLits builder.old left.now }
    requires right { AreBits builder.old (length left.now) right.now }
    requires room { builder.old.variables + length left.now < variable_bound }
    ensures bits { IfOk result (AreBits builder.new (length left.now)) }
    ensures made { IfOk result (λ r. Makes builder.old builder.new (length left.now) (4 * length left.now)
        (λ a. word a r ≡ bitwise_number kind (word a left.now) (word a right.now))) }
{
    let mut bits = Bits::new(alloc);
    for i in 0..left.len() {
        let lit = bitwise_gate(builder, kind, left[i], right[i])?;
        bits.push(lit)?;
    }
    Ok(bits)
}
