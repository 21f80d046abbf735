//! Lists of literals that are made without a gate.
ghost use Rattle.std.specs.Prelude.{◌≡◌, ◌∷◌, ◌++◌, [], ℕ, ◌-◌, ◌≤◌, ◌<◌, IfOk, length, take, drop};
ghost use Rattle.lz_arith.specs.Bits.{copies, negations, top_flipped};

use lz_base::{Memory, Sequence};
use lz_cnf::Lit;
use std::alloc::Global;

/// The literals of a word, from the lowest bit.
pub type Bits = Sequence<Lit>;

/// A copy of the literals.
pub(crate) fn copied(alloc: Global, bits: &[Lit]) -> Result<Bits, Memory>
    ensures { IfOk result (λ r. r ≡ bits.now) }
{
    let mut result = Bits::new(alloc);
    result.append(bits)?;
    Ok(result)
}

/// A literal and the others after it.
pub(crate) fn one_before(alloc: Global, first: Lit, others: &[Lit]) -> Result<Bits, Memory>
    ensures { IfOk result (λ r. r ≡ first ∷ others.now) }
{
    let mut result = Bits::new(alloc);
    result.push(first)?;
    result.append(others)?;
    Ok(result)
}

/// So many copies of a literal.
pub(crate) fn repeated(alloc: Global, lit: Lit, count: usize) -> Result<Bits, Memory>
    ensures { IfOk result (λ r. r ≡ copies count lit) }
{
    let mut bits = Bits::new(alloc);
    for _i in 0..count {
        bits.push(lit)?;
    }
    Ok(bits)
}

/// The literals in the other sign.
pub(crate) fn inverted(alloc: Global, bits: &[Lit]) -> Result<Bits, Memory>
    ensures { IfOk result (λ r. r ≡ negations bits.now) }
{
    let mut result = Bits::new(alloc);
    for i in 0..bits.len() {
        result.push(bits[i].negated())?;
    }
    Ok(result)
}

/// The literals and one more, in the other sign.
pub(crate) fn complement(alloc: Global, bits: &[Lit], last: Lit) -> Result<Bits, Memory>
    ensures { IfOk result (λ r. r ≡ negations (bits.now ++ last ∷ [])) }
{
    let mut wide = Bits::new(alloc);
    wide.append(bits)?;
    wide.push(last)?;
    let minus = inverted(alloc, wide.items())?;
    Ok(minus)
}

/// The word with its top bit in the other sign.
pub(crate) fn flipped(alloc: Global, bits: &[Lit]) -> Result<Bits, Memory>
    requires some { 0 < length bits.now }
    ensures { IfOk result (λ r. r ≡ top_flipped bits.now) }
{
    let top = bits.len() - 1;
    let mut result = Bits::new(alloc);
    result.append(&bits[..top])?;
    result.push(bits[top].negated())?;
    Ok(result)
}

/// The word moved up by a fixed number of places, with the literal `off` below.
pub(crate) fn moved_up(alloc: Global, off: Lit, bits: &[Lit], by: usize) -> Result<Bits, Memory>
    requires within { by ≤ length bits.now }
    ensures { IfOk result (λ r. r ≡ copies by off ++ take (length bits.now - by) bits.now) }
{
    let mut result = repeated(alloc, off, by)?;
    result.append(&bits[..bits.len() - by])?;
    Ok(result)
}

/// The word moved down by a fixed number of places, with the literal `fill` above.
pub(crate) fn moved_down(alloc: Global, fill: Lit, bits: &[Lit], by: usize) -> Result<Bits, Memory>
    requires within { by ≤ length bits.now }
    ensures { IfOk result (λ r. r ≡ drop by bits.now ++ copies by fill) }
{
    let above = repeated(alloc, fill, by)?;
    let mut result = copied(alloc, &bits[by..])?;
    result.append(above.items())?;
    Ok(result)
}
