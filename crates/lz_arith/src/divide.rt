//! Quotients and remainders of words (restoring division), without and with sign.
ghost use Rattle.std.specs.Prelude.{◌≡◌, ◌++◌, ◌∷◌, [], ℕ, ◌+◌, ◌-◌, ◌*◌, ◌^◌, ◌/◌, ◌%◌, ◌<◌, ◌≤◌, IfOk, OnOk, length, ◌==◌, if◌then◌else◌, int_div, int_rem};
ghost use Rattle.lz_base.specs.Words.{signed, wrapped, binary_value};
ghost use Rattle.lz_cnf.specs.Models.{variable_bound};
ghost use Rattle.lz_gates.specs.Circuits.{Assignment, value, IsLit, AreLits, Makes};
ghost use Rattle.lz_arith.specs.Bits.{bit, word, negations, AreBits};
ghost use Rattle.lz_arith.specs.Sizes.{word_width, binary_variables, binary_clauses, division_variables, division_clauses, test_variables, test_clauses};

use crate::add::{add_with_carry, minus_where};
use crate::choose::{choose_words, mask_word};
use crate::lists::{Bits, complement, one_before, repeated};
use crate::nonzero::truth_test;
use lz_base::{Binary, IntType, Memory};
use lz_cnf::Lit;
use lz_gates::Builder;
use std::alloc::Global;

/// One step of a long division: the rest takes in the next digit, and the divisor is taken off where it fits.
fn divide_step(
    alloc: Global,
    builder: &mut Builder,
    rest: &[Lit],
    digit: Lit,
    divisor: &[Lit],
) -> Result<(Lit, Bits), Memory>
    requires rest { AreLits builder.old rest.now }
    requires divisor { AreBits builder.old (length rest.now) divisor.now }
    requires digit { IsLit builder.old digit }
    requires room { builder.old.variables + 4 * length rest.now + 3 < variable_bound }
    ensures fits { IfOk result (λ r. IsLit builder.new r.0) }
    ensures bits { IfOk result (λ r. AreBits builder.new (length rest.now) r.1) }
    ensures made { IfOk result (λ r. Makes builder.old builder.new (4 * length rest.now + 3) (20 * length rest.now + 14)
        (λ a. word a rest.now < word a divisor.now
        → (bit (value a r.0) * word a divisor.now + word a r.1 ≡ bit (value a digit) + 2 * word a rest.now) × (word a r.1 < word a divisor.now))) }
{
    let off = builder.falsity();
    let on = builder.truth();
    let minus = complement(alloc, divisor, off)?;
    let taken = one_before(alloc, digit, rest)?;
    let (less, fits) = add_with_carry(alloc, builder, taken.items(), minus.items(), on)?;
    let low = &less.items()[..rest.len()];
    let same = &taken.items()[..rest.len()];
    let next = choose_words(alloc, builder, fits, low, same)?;
    Ok((fits, next))
}

/// Quotient and remainder of two words of one width, where the divisor is not 0.
pub(crate) fn divide_words(
    alloc: Global,
    builder: &mut Builder,
    left: &[Lit],
    divisor: &[Lit],
) -> Result<(Bits, Bits), Memory>
    requires left { AreLits builder.old left.now }
    requires divisor { AreBits builder.old (length left.now) divisor.now }
    requires room { builder.old.variables + (4 * length left.now + 3) * length left.now < variable_bound }
    ensures quotient { IfOk result (λ r. AreBits builder.new (length left.now) r.0) }
    ensures rest { IfOk result (λ r. AreBits builder.new (length left.now) r.1) }
    ensures made { IfOk result (λ r. Makes builder.old builder.new ((4 * length left.now + 3) * length left.now) ((20 * length left.now + 14) * length left.now)
        (λ a. 0 < word a divisor.now → (word a r.0 ≡ word a left.now / word a divisor.now) × (word a r.1 ≡ word a left.now % word a divisor.now))) }
{
    let off = builder.falsity();
    let mut quotient = Bits::new(alloc);
    let mut rest = repeated(alloc, off, left.len())?;
    for i in 0..left.len() {
        let digit = left[left.len() - 1 - i];
        let (fits, next) = divide_step(alloc, builder, rest.items(), digit, divisor)?;
        let more = one_before(alloc, fits, quotient.items())?;
        quotient = more;
        rest = next;
    }
    Ok((quotient, rest))
}

/// The quotient of two words with sign, where the divisor is not 0: by their sizes, with the sign of both.
fn signed_quotient(
    alloc: Global,
    builder: &mut Builder,
    left: &[Lit],
    divisor: &[Lit],
) -> Result<Bits, Memory>
    requires left { AreBits builder.old word_width left.now }
    requires divisor { AreBits builder.old word_width divisor.now }
    requires room { builder.old.variables + division_variables < variable_bound }
    ensures bits { IfOk result (AreBits builder.new word_width) }
    ensures made { IfOk result (λ r. Makes builder.old builder.new division_variables division_clauses
        (λ a. 0 < word a divisor.now → word a r ≡ wrapped (int_div (signed IntType.Int (word a left.now)) (signed IntType.Int (word a divisor.now))))) }
{
    let size = minus_where(alloc, builder, left[31], left)?;
    let by = minus_where(alloc, builder, divisor[31], divisor)?;
    let (quotient, _) = divide_words(alloc, builder, size.items(), by.items())?;
    let sign = builder.xor_gate(left[31], divisor[31])?;
    let signed = minus_where(alloc, builder, sign, quotient.items())?;
    Ok(signed)
}

/// The remainder of two words with sign, where the divisor is not 0: by their sizes, with the sign of the left word.
fn signed_remainder(
    alloc: Global,
    builder: &mut Builder,
    left: &[Lit],
    divisor: &[Lit],
) -> Result<Bits, Memory>
    requires left { AreBits builder.old word_width left.now }
    requires divisor { AreBits builder.old word_width divisor.now }
    requires room { builder.old.variables + division_variables < variable_bound }
    ensures bits { IfOk result (AreBits builder.new word_width) }
    ensures made { IfOk result (λ r. Makes builder.old builder.new division_variables division_clauses
        (λ a. 0 < word a divisor.now → word a r ≡ wrapped (int_rem (signed IntType.Int (word a left.now)) (signed IntType.Int (word a divisor.now))))) }
{
    let size = minus_where(alloc, builder, left[31], left)?;
    let by = minus_where(alloc, builder, divisor[31], divisor)?;
    let (_, rest) = divide_words(alloc, builder, size.items(), by.items())?;
    let signed = minus_where(alloc, builder, left[31], rest.items())?;
    Ok(signed)
}

/// The word where the divisor is not 0, and 0 else.
fn unless_zero(
    alloc: Global,
    builder: &mut Builder,
    divisor: &[Lit],
    bits: &[Lit],
) -> Result<Bits, Memory>
    requires divisor { AreBits builder.old word_width divisor.now }
    requires bits { AreBits builder.old word_width bits.now }
    requires room { builder.old.variables + test_variables + word_width < variable_bound }
    ensures bits { IfOk result (AreBits builder.new word_width) }
    ensures made { IfOk result (λ r. Makes builder.old builder.new (test_variables + word_width) (test_clauses word_width + 3 * word_width)
        (λ a. word a r ≡ (if word a divisor.now == 0 then 0 else word a bits.now))) }
{
    let test = truth_test(alloc, builder, divisor)?;
    let masked = mask_word(alloc, builder, test, bits)?;
    Ok(masked)
}

/// The quotient of two words without sign, where the divisor is not 0.
fn plain_quotient(
    alloc: Global,
    builder: &mut Builder,
    left: &[Lit],
    divisor: &[Lit],
) -> Result<Bits, Memory>
    requires left { AreBits builder.old word_width left.now }
    requires divisor { AreBits builder.old word_width divisor.now }
    requires room { builder.old.variables + division_variables < variable_bound }
    ensures bits { IfOk result (AreBits builder.new word_width) }
    ensures made { IfOk result (λ r. Makes builder.old builder.new division_variables division_clauses
        (λ a. 0 < word a divisor.now → word a r ≡ wrapped (int_div (signed IntType.Unsigned (word a left.now)) (signed IntType.Unsigned (word a divisor.now))))) }
{
    let (quotient, _) = divide_words(alloc, builder, left, divisor)?;
    Ok(quotient)
}

/// The quotient of two words of the kind `t`, where the divisor is not 0.
fn quotient_of_kind(
    alloc: Global,
    builder: &mut Builder,
    t: IntType,
    left: &[Lit],
    divisor: &[Lit],
) -> Result<Bits, Memory>
    requires left { AreBits builder.old word_width left.now }
    requires divisor { AreBits builder.old word_width divisor.now }
    requires room { builder.old.variables + division_variables < variable_bound }
    ensures bits { IfOk result (AreBits builder.new word_width) }
    ensures made { IfOk result (λ r. Makes builder.old builder.new division_variables division_clauses
        (λ a. 0 < word a divisor.now → word a r ≡ wrapped (int_div (signed t (word a left.now)) (signed t (word a divisor.now))))) }
{
    match t {
        IntType::Int => signed_quotient(alloc, builder, left, divisor),
        IntType::Unsigned => plain_quotient(alloc, builder, left, divisor),
    }
}

/// The quotient of two words of the kind `t`; 0 where the divisor is 0.
pub(crate) fn quotient_word(
    alloc: Global,
    builder: &mut Builder,
    t: IntType,
    left: &[Lit],
    divisor: &[Lit],
) -> Result<Bits, Memory>
    requires left { AreBits builder.old word_width left.now }
    requires divisor { AreBits builder.old word_width divisor.now }
    requires room { builder.old.variables + binary_variables Binary.Div < variable_bound }
    ensures bits { IfOk result (AreBits builder.new word_width) }
    ensures made { IfOk result (λ r. Makes builder.old builder.new (binary_variables Binary.Div) (binary_clauses Binary.Div) (λ a. word a r ≡ binary_value Binary.Div (word a left.now) (word a divisor.now) t)) }
{
    let bits = quotient_of_kind(alloc, builder, t, left, divisor)?;
    let masked = unless_zero(alloc, builder, divisor, bits.items())?;
    Ok(masked)
}

/// The remainder of two words without sign, where the divisor is not 0.
fn plain_remainder(
    alloc: Global,
    builder: &mut Builder,
    left: &[Lit],
    divisor: &[Lit],
) -> Result<Bits, Memory>
    requires left { AreBits builder.old word_width left.now }
    requires divisor { AreBits builder.old word_width divisor.now }
    requires room { builder.old.variables + division_variables < variable_bound }
    ensures bits { IfOk result (AreBits builder.new word_width) }
    ensures made { IfOk result (λ r. Makes builder.old builder.new division_variables division_clauses
        (λ a. 0 < word a divisor.now → word a r ≡ wrapped (int_rem (signed IntType.Unsigned (word a left.now)) (signed IntType.Unsigned (word a divisor.now))))) }
{
    let (_, rest) = divide_words(alloc, builder, left, divisor)?;
    Ok(rest)
}

/// The remainder of two words of the kind `t`, where the divisor is not 0.
fn remainder_of_kind(
    alloc: Global,
    builder: &mut Builder,
    t: IntType,
    left: &[Lit],
    divisor: &[Lit],
) -> Result<Bits, Memory>
    requires left { AreBits builder.old word_width left.now }
    requires divisor { AreBits builder.old word_width divisor.now }
    requires room { builder.old.variables + division_variables < variable_bound }
    ensures bits { IfOk result (AreBits builder.new word_width) }
    ensures made { IfOk result (λ r. Makes builder.old builder.new division_variables division_clauses
        (λ a. 0 < word a divisor.now → word a r ≡ wrapped (int_rem (signed t (word a left.now)) (signed t (word a divisor.now))))) }
{
    match t {
        IntType::Int => signed_remainder(alloc, builder, left, divisor),
        IntType::Unsigned => plain_remainder(alloc, builder, left, divisor),
    }
}

/// The remainder of two words of the kind `t`; 0 where the divisor is 0.
pub(crate) fn remainder_word(
    alloc: Global,
    builder: &mut Builder,
    t: IntType,
    left: &[Lit],
    divisor: &[Lit],
) -> Result<Bits, Memory>
    requires left { AreBits builder.old word_width left.now }
    requires divisor { AreBits builder.old word_width divisor.now }
    requires room { builder.old.variables + binary_variables Binary.Rem < variable_bound }
    ensures bits { IfOk result (AreBits builder.new word_width) }
    ensures made { IfOk result (λ r. Makes builder.old builder.new (binary_variables Binary.Rem) (binary_clauses Binary.Rem) (λ a. word a r ≡ binary_value Binary.Rem (word a left.now) (word a divisor.now) t)) }
{
    let bits = remainder_of_kind(alloc, builder, t, left, divisor)?;
    let masked = unless_zero(alloc, builder, divisor, bits.items())?;
    Ok(masked)
}
