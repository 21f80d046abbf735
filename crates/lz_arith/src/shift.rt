//! Shifts of words by words (barrel shifters).
ghost use Rattle.std.specs.Prelude.{◌≡◌, ℕ, ◌+◌, ◌-◌, ◌*◌, ◌^◌, ◌%◌, ◌<◌, ◌≤◌, ◌++◌, IfOk, OnOk, length, take, if◌then◌else◌};
ghost use Rattle.lz_cnf.specs.Models.{variable_bound};
ghost use Rattle.lz_gates.specs.Circuits.{Assignment, value, IsLit, AreLits, Makes};
ghost use Rattle.lz_arith.specs.Bits.{bit, word, copies, AreBits};
ghost use Rattle.lz_arith.specs.Shifts as moved;

use crate::choose::choose_words;
use crate::lists::{Bits, copied, moved_down, moved_up};
use lz_base::Memory;
use lz_cnf::Lit;
use lz_gates::Builder;
use std::alloc::Global;

/// One stage up: the word, moved up by so many places where the test is true.
fn stage_up(
    alloc: Global,
    builder: &mut Builder,
    test: Lit,
    bits: &[Lit],
    by: usize,
) -> Result<Bits, Memory>
    requires test { IsLit builder.old test }
    requires bits { AreLits builder.old bits.now }
    requires within { by ≤ length bits.now }
    requires room { builder.old.variables + length bits.now < variable_bound }
    ensures bits { IfOk result (AreBits builder.new (length bits.now)) }
    ensures made { IfOk result (λ r. Makes builder.old builder.new (length bits.now) (6 * length bits.now)
        (λ a. word a r ≡ (if value a test then moved.moved_up (2 ^ length bits.now) (word a bits.now) by else word a bits.now))) }
{
    let off = builder.falsity();
    let moved = moved_up(alloc, off, bits, by)?;
    let chosen = choose_words(alloc, builder, test, moved.items(), bits)?;
    Ok(chosen)
}

/// One stage down: the word, moved down by so many places where the test is true, with the literal `fill` above.
fn stage_down(
    alloc: Global,
    builder: &mut Builder,
    test: Lit,
    fill: Lit,
    bits: &[Lit],
    by: usize,
) -> Result<Bits, Memory>
    requires test { IsLit builder.old test }
    requires fill { IsLit builder.old fill }
    requires bits { AreLits builder.old bits.now }
    requires within { by ≤ length bits.now }
    requires room { builder.old.variables + length bits.now < variable_bound }
    ensures bits { IfOk result (AreBits builder.new (length bits.now)) }
    ensures made { IfOk result (λ r. Makes builder.old builder.new (length bits.now) (6 * length bits.now)
        (λ a. word a r ≡ (if value a test then moved.moved_down (2 ^ length bits.now) (value a fill) (word a bits.now) by else word a bits.now))) }
{
    let moved = moved_down(alloc, fill, bits, by)?;
    let chosen = choose_words(alloc, builder, test, moved.items(), bits)?;
    Ok(chosen)
}

/// The word moved up by the number that the literals of `amount` stand for, a stage for each of them.
pub(crate) fn shift_up(
    alloc: Global,
    builder: &mut Builder,
    bits: &[Lit],
    amount: &[Lit],
) -> Result<Bits, Memory>
    requires bits { AreLits builder.old bits.now }
    requires amount { AreLits builder.old amount.now }
    requires within { 2 ^ length amount.now ≤ length bits.now }
    requires room { builder.old.variables + length bits.now * length amount.now < variable_bound }
    ensures bits { IfOk result (AreBits builder.new (length bits.now)) }
    ensures made { IfOk result (λ r. Makes builder.old builder.new (length bits.now * length amount.now) (6 * length bits.now * length amount.now)
        (λ a. word a r ≡ moved.moved_up (2 ^ length bits.now) (word a bits.now) (word a amount.now))) }
{
    let mut moved = copied(alloc, bits)?;
    let mut by = 1;
    for i in 0..amount.len() {
        let next = stage_up(alloc, builder, amount[i], moved.items(), by)?;
        moved = next;
        by *= 2;
    }
    Ok(moved)
}

/// The word moved down by the number that the literals of `amount` stand for, with the literal `fill` above.
pub(crate) fn shift_down(
    alloc: Global,
    builder: &mut Builder,
    fill: Lit,
    bits: &[Lit],
    amount: &[Lit],
) -> Result<Bits, Memory>
    requires fill { IsLit builder.old fill }
    requires bits { AreLits builder.old bits.now }
    requires amount { AreLits builder.old amount.now }
    requires within { 2 ^ length amount.now ≤ length bits.now }
    requires room { builder.old.variables + length bits.now * length amount.now < variable_bound }
    ensures bits { IfOk result (AreBits builder.new (length bits.now)) }
    ensures made { IfOk result (λ r. Makes builder.old builder.new (length bits.now * length amount.now) (6 * length bits.now * length amount.now)
        (λ a. word a r ≡ moved.moved_down (2 ^ length bits.now) (value a fill) (word a bits.now) (word a amount.now))) }
{
    let mut moved = copied(alloc, bits)?;
    let mut by = 1;
    for i in 0..amount.len() {
        let next = stage_down(alloc, builder, amount[i], fill, moved.items(), by)?;
        moved = next;
        by *= 2;
    }
    Ok(moved)
}
