//! Sums of words.
ghost use Rattle.std.specs.Prelude.{◌≡◌, ℕ, ◌+◌, ◌-◌, ◌*◌, ◌^◌, ◌%◌, ◌<◌, ◌≤◌, IfOk, OnOk, length, if◌then◌else◌};
ghost use Rattle.lz_cnf.specs.Models.{variable_bound};
ghost use Rattle.lz_gates.specs.Circuits.{Assignment, value, IsLit, AreLits, Makes};
ghost use Rattle.lz_arith.specs.Bits.{bit, word, AreBits};

use crate::choose::choose_words;
use crate::lists::{Bits, inverted, repeated};
use lz_base::Memory;
use lz_cnf::Lit;
use lz_gates::Builder;
use std::alloc::Global;

/// The sum of three bits, and what it carries.
fn full_add(builder: &mut Builder, left: Lit, right: Lit, carry: Lit) -> Result<(Lit, Lit), Memory>
    requires left { IsLit builder.old left }
    requires right { IsLit builder.old right }
    requires carry { IsLit builder.old carry }
    requires room { builder.old.variables + 3 < variable_bound }
    ensures sum { IfOk result (λ r. IsLit builder.new r.0) }
    ensures carry { IfOk result (λ r. IsLit builder.new r.1) }
    ensures more { OnOk result (builder.old.variables ≤ builder.new.variables) }
    ensures most { OnOk result (builder.new.variables ≤ builder.old.variables + 3) }
    ensures made { IfOk result (λ r. Makes builder.old builder.new 3 14 (λ a. bit (value a r.0) + 2 * bit (value a r.1) ≡ bit (value a left) + bit (value a right) + bit (value a carry))) }
{
    let differ = builder.xor_gate(left, right)?;
    let sum = builder.xor_gate(differ, carry)?;
    let next = builder.choose_gate(differ, carry, left)?;
    Ok((sum, next))
}

/// The sum of two words and a carry, and what it carries.
pub(crate) fn add_with_carry(
    alloc: Global,
    builder: &mut Builder,
    left: &[Lit],
    right: &[Lit],
    carry: Lit,
) -> Result<(Bits, Lit), Memory>
    requires left { AreLits builder.old left.now }
    requires right { AreBits builder.old (length left.now) right.now }
    requires carry { IsLit builder.old carry }
    requires room { builder.old.variables + 3 * length left.now < variable_bound }
    ensures bits { IfOk result (λ r. AreBits builder.new (length left.now) r.0) }
    ensures carry { IfOk result (λ r. IsLit builder.new r.1) }
    ensures more { OnOk result (builder.old.variables ≤ builder.new.variables) }
    ensures made { IfOk result (λ r. Makes builder.old builder.new (3 * length left.now) (14 * length left.now)
        (λ a. word a r.0 + 2 ^ length left.now * bit (value a r.1) ≡ word a left.now + word a right.now + bit (value a carry))) }
{
    let mut bits = Bits::new(alloc);
    let mut carried = carry;
    for i in 0..left.len() {
        let (sum, next) = full_add(builder, left[i], right[i], carried)?;
        bits.push(sum)?;
        carried = next;
    }
    Ok((bits, carried))
}

/// The sum of two words, modulo 2 to their width.
pub(crate) fn add_words(
    alloc: Global,
    builder: &mut Builder,
    left: &[Lit],
    right: &[Lit],
    carry: Lit,
) -> Result<Bits, Memory>
    requires left { AreLits builder.old left.now }
    requires right { AreBits builder.old (length left.now) right.now }
    requires carry { IsLit builder.old carry }
    requires room { builder.old.variables + 3 * length left.now < variable_bound }
    ensures bits { IfOk result (AreBits builder.new (length left.now)) }
    ensures more { OnOk result (builder.old.variables ≤ builder.new.variables) }
    ensures made { IfOk result (λ bits. Makes builder.old builder.new (3 * length left.now) (14 * length left.now)
        (λ a. word a bits ≡ (word a left.now + word a right.now + bit (value a carry)) % 2 ^ length left.now)) }
{
    let (bits, _) = add_with_carry(alloc, builder, left, right, carry)?;
    Ok(bits)
}

/// The difference of two words, modulo 2 to their width: the left word, the complement of the right one, and 1.
pub(crate) fn subtract_words(
    alloc: Global,
    builder: &mut Builder,
    left: &[Lit],
    right: &[Lit],
) -> Result<Bits, Memory>
    requires left { AreLits builder.old left.now }
    requires right { AreBits builder.old (length left.now) right.now }
    requires room { builder.old.variables + 3 * length left.now < variable_bound }
    ensures bits { IfOk result (AreBits builder.new (length left.now)) }
    ensures made { IfOk result (λ r. Makes builder.old builder.new (3 * length left.now) (14 * length left.now)
        (λ a. word a r ≡ (word a left.now + (2 ^ length left.now - word a right.now)) % 2 ^ length left.now)) }
{
    let on = builder.truth();
    let minus = inverted(alloc, right)?;
    let bits = add_words(alloc, builder, left, minus.items(), on)?;
    Ok(bits)
}

/// The word with the other sign, modulo 2 to its width.
pub(crate) fn minus_word(alloc: Global, builder: &mut Builder, bits: &[Lit]) -> Result<Bits, Memory>
    requires bits { AreLits builder.old bits.now }
    requires room { builder.old.variables + 3 * length bits.now < variable_bound }
    ensures bits { IfOk result (AreBits builder.new (length bits.now)) }
    ensures made { IfOk result (λ r. Makes builder.old builder.new (3 * length bits.now) (14 * length bits.now)
        (λ a. word a r ≡ (2 ^ length bits.now - word a bits.now) % 2 ^ length bits.now)) }
{
    let off = builder.falsity();
    let zeros = repeated(alloc, off, bits.len())?;
    let minus = subtract_words(alloc, builder, zeros.items(), bits)?;
    Ok(minus)
}

/// The word with the other sign where the literal is true, and the word itself else.
pub(crate) fn minus_where(
    alloc: Global,
    builder: &mut Builder,
    test: Lit,
    bits: &[Lit],
) -> Result<Bits, Memory>
    requires test { IsLit builder.old test }
    requires bits { AreLits builder.old bits.now }
    requires room { builder.old.variables + 4 * length bits.now < variable_bound }
    ensures bits { IfOk result (AreBits builder.new (length bits.now)) }
    ensures made { IfOk result (λ r. Makes builder.old builder.new (4 * length bits.now) (20 * length bits.now)
        (λ a. word a r ≡ (if value a test then (2 ^ length bits.now - word a bits.now) % 2 ^ length bits.now else word a bits.now))) }
{
    let minus = minus_word(alloc, builder, bits)?;
    let chosen = choose_words(alloc, builder, test, minus.items(), bits)?;
    Ok(chosen)
}
