//! Products of words.
ghost use Rattle.std.specs.Prelude.{◌≡◌, ℕ, ◌+◌, ◌-◌, ◌*◌, ◌^◌, ◌%◌, ◌<◌, ◌≤◌, IfOk, OnOk, length};
ghost use Rattle.lz_cnf.specs.Models.{variable_bound};
ghost use Rattle.lz_gates.specs.Circuits.{Assignment, value, IsLit, AreLits, Makes};
ghost use Rattle.lz_arith.specs.Bits.{bit, word, AreBits};

use crate::add::add_words;
use crate::choose::mask_word;
use crate::lists::{Bits, moved_up, repeated};
use lz_base::Memory;
use lz_cnf::Lit;
use lz_gates::Builder;
use std::alloc::Global;

/// One row of a product: the sum so far, and the left word moved up to this place where this bit is true.
fn product_row(
    alloc: Global,
    builder: &mut Builder,
    left: &[Lit],
    digit: Lit,
    place: usize,
    sum: &[Lit],
) -> Result<Bits, Memory>
    requires left { AreLits builder.old left.now }
    requires sum { AreBits builder.old (length left.now) sum.now }
    requires digit { IsLit builder.old digit }
    requires place { place ≤ length left.now }
    requires room { builder.old.variables + 4 * length left.now < variable_bound }
    ensures bits { IfOk result (AreBits builder.new (length left.now)) }
    ensures made { IfOk result (λ r. Makes builder.old builder.new (4 * length left.now) (17 * length left.now)
        (λ a. word a r ≡ (word a sum.now + bit (value a digit) * (word a left.now * 2 ^ place)) % 2 ^ length left.now)) }
{
    let off = builder.falsity();
    let moved = moved_up(alloc, off, left, place)?;
    let masked = mask_word(alloc, builder, digit, moved.items())?;
    let added = add_words(alloc, builder, sum, masked.items(), off)?;
    Ok(added)
}

/// The product of two words of one width, modulo 2 to that width.
pub(crate) fn multiply(
    alloc: Global,
    builder: &mut Builder,
    left: &[Lit],
    right: &[Lit],
) -> Result<Bits, Memory>
    requires left { AreLits builder.old left.now }
    requires right { AreBits builder.old (length left.now) right.now }
    requires room { builder.old.variables + 4 * length left.now * length left.now < variable_bound }
    ensures bits { IfOk result (AreBits builder.new (length left.now)) }
    ensures made { IfOk result (λ r. Makes builder.old builder.new (4 * length left.now * length left.now) (17 * length left.now * length left.now)
        (λ a. word a r ≡ (word a left.now * word a right.now) % 2 ^ length left.now)) }
{
    let off = builder.falsity();
    let mut sum = repeated(alloc, off, left.len())?;
    for i in 0..left.len() {
        let next = product_row(alloc, builder, left, right[i], i, sum.items())?;
        sum = next;
    }
    Ok(sum)
}
