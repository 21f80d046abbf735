//! Equality and order of words.
ghost use Rattle.std.specs.Prelude.{◌≡◌, ℕ, ◌+◌, ◌*◌, ◌^◌, ◌%◌, ◌<◌, ◌≤◌, IfOk, OnOk, length, nat_lt, not, ◌==◌, int_lt};
ghost use Rattle.lz_base.specs.Words.{signed};
ghost use Rattle.lz_cnf.specs.Models.{variable_bound};
ghost use Rattle.lz_gates.specs.Circuits.{Assignment, value, xor, choice, IsLit, AreLits, Makes};
ghost use Rattle.lz_arith.specs.Bits.{bit, word, AreBits};
ghost use Rattle.lz_arith.specs.Sizes.{word_width};

use crate::bitwise::{Bitwise, bitwise_words};
use crate::lists::flipped;
use crate::nonzero::truth_test;
use lz_base::{IntType, Memory};
use lz_cnf::Lit;
use lz_gates::Builder;
use std::alloc::Global;

/// Whether two words differ: whether their difference bit by bit is not 0.
pub(crate) fn differ(
    alloc: Global,
    builder: &mut Builder,
    left: &[Lit],
    right: &[Lit],
) -> Result<Lit, Memory>
    requires left { AreLits builder.old left.now }
    requires right { AreBits builder.old (length left.now) right.now }
    requires room { builder.old.variables + length left.now + 1 < variable_bound }
    ensures lit { IfOk result (IsLit builder.new) }
    ensures made { IfOk result (λ lit. Makes builder.old builder.new (length left.now + 1) (5 * length left.now + 1)
        (λ a. value a lit ≡ not (word a left.now == word a right.now))) }
{
    let bits = bitwise_words(alloc, builder, Bitwise::Xor, left, right)?;
    let test = truth_test(alloc, builder, bits.items())?;
    Ok(test)
}

/// One bit of a comparison: the right bit where the two differ, and what the lower bits gave else.
fn less_bit(builder: &mut Builder, left: Lit, right: Lit, lower: Lit) -> Result<Lit, Memory>
    requires left { IsLit builder.old left }
    requires right { IsLit builder.old right }
    requires lower { IsLit builder.old lower }
    requires room { builder.old.variables + 2 < variable_bound }
    ensures lit { IfOk result (IsLit builder.new) }
    ensures made { IfOk result (λ lit. Makes builder.old builder.new 2 10 (λ a. value a lit ≡ choice (xor (value a left) (value a right)) (value a right) (value a lower))) }
{
    let differ = builder.xor_gate(left, right)?;
    let less = builder.choose_gate(differ, right, lower)?;
    Ok(less)
}

/// Whether the left word is below the right one, both without sign.
pub(crate) fn less_than(builder: &mut Builder, left: &[Lit], right: &[Lit]) -> Result<Lit, Memory>
    requires left { AreLits builder.old left.now }
    requires right { AreBits builder.old (length left.now) right.now }
    requires room { builder.old.variables + 2 * length left.now < variable_bound }
    ensures lit { IfOk result (IsLit builder.new) }
    ensures made { IfOk result (λ lit. Makes builder.old builder.new (2 * length left.now) (10 * length left.now)
        (λ a. value a lit ≡ nat_lt (word a left.now) (word a right.now))) }
{
    let mut less = builder.falsity();
    for i in 0..left.len() {
        less = less_bit(builder, left[i], right[i], less)?;
    }
    Ok(less)
}

/// Whether the left word is below the right one, both with sign: the order without sign once both top bits are turned.
fn signed_less(
    alloc: Global,
    builder: &mut Builder,
    left: &[Lit],
    right: &[Lit],
) -> Result<Lit, Memory>
    requires left { AreBits builder.old word_width left.now }
    requires right { AreBits builder.old word_width right.now }
    requires room { builder.old.variables + 2 * word_width < variable_bound }
    ensures lit { IfOk result (IsLit builder.new) }
    ensures made { IfOk result (λ lit. Makes builder.old builder.new (2 * word_width) (10 * word_width)
        (λ a. value a lit ≡ int_lt (signed IntType.Int (word a left.now)) (signed IntType.Int (word a right.now)))) }
{
    let low = flipped(alloc, left)?;
    let high = flipped(alloc, right)?;
    let less = less_than(builder, low.items(), high.items())?;
    Ok(less)
}

/// Whether the left word is below the right one, as words of the kind `t`.
pub(crate) fn less(
    alloc: Global,
    builder: &mut Builder,
    t: IntType,
    left: &[Lit],
    right: &[Lit],
) -> Result<Lit, Memory>
    requires left { AreBits builder.old word_width left.now }
    requires right { AreBits builder.old word_width right.now }
    requires room { builder.old.variables + 2 * word_width < variable_bound }
    ensures lit { IfOk result (IsLit builder.new) }
    ensures made { IfOk result (λ lit. Makes builder.old builder.new (2 * word_width) (10 * word_width)
        (λ a. value a lit ≡ int_lt (signed t (word a left.now)) (signed t (word a right.now)))) }
{
    match t {
        IntType::Int => signed_less(alloc, builder, left, right),
        IntType::Unsigned => less_than(builder, left, right),
    }
}
