//! Words that are known.
ghost use Rattle.std.specs.Prelude.{◌≡◌, ◌<◌, ℕ, IfOk};
ghost use Rattle.lz_base.specs.Words.{value_bound};
ghost use Rattle.lz_gates.specs.Circuits.{Assignment, Satisfies, value, IsLit, Makes};
ghost use Rattle.lz_arith.specs.Bits.{bit, word, AreBits};
ghost use Rattle.lz_arith.specs.Sizes.{word_width};

use lz_arith::Bits;
use lz_base::{Memory, Value};
use lz_cnf::Lit;
use lz_gates::Builder;
use std::alloc::Global;

/// The literal of a known bit.
fn known(builder: &Builder, one: bool) -> Lit
    ensures lit { IsLit builder.now result }
    ensures says { (a : Assignment) → Satisfies a builder.now.clauses → value a result ≡ one }
{
    if one {
        builder.truth()
    } else {
        builder.falsity()
    }
}

/// The literals of a known word.
pub(crate) fn constant_bits(alloc: Global, builder: &Builder, number: Value) -> Result<Bits, Memory>
    requires small { number < value_bound }
    ensures bits { IfOk result (AreBits builder.now word_width) }
    ensures made { IfOk result (λ r. Makes builder.now builder.now 0 0 (λ a. word a r ≡ number)) }
{
    let mut bits = Bits::new(alloc);
    let mut rest = number;
    for _i in 0..32_usize {
        bits.push(known(builder, rest % 2 == 1))?;
        rest /= 2;
    }
    Ok(bits)
}
