ghost use Rattle.std.specs.Prelude.{ℕ, ◌≡◌, ◌<◌, ◌+◌, ◌^◌, nat_lt, if◌then◌else◌, length, OnOk};
ghost use Rattle.lz_flat.specs.Programs.{location};
ghost use Rattle.lz_flat.specs.WellFormed.{IsLocationOf, AreWithin};
ghost use Rattle.lz_ssa.specs.Construction as spec;
ghost use Rattle.lz_ssa.specs.Drafts.{drawn, HasPlaces};

use crate::decode::{Decoder, at_place, decode};
use crate::draft::{Draft, Held};
use crate::expression::expression;
use lz_base::{Binary, Memory, Value};
use lz_flat::{FlatExpr, Spot};
use std::alloc::Global;

/// A word of the memory becomes the value where the guard is not 0.
#[tactic(auto, unfolding(crate::specs::Construction::write_word))]
fn write_word(draft: &mut Draft, place: u32, guard: u32, value: u32) -> Result<(), Memory>
    requires { place < length draft.old.words.items }
    ensures drawn { OnOk result (drawn draft.new ≡ spec.write_word place guard value (drawn draft.old)) }
    ensures words { length draft.new.words.items ≡ length draft.old.words.items }
{
    let word = draft.word(place)?;
    let node = draft.choose(guard, value, word)?;
    draft.words[place as usize] = Held::Made { node };
    Ok(())
}

/// The word at this place becomes the value where the guard is not 0 and the index is this place.
#[tactic(auto, unfolding(crate::specs::Construction::write_turn))]
fn write_turn(
    draft: &mut Draft,
    decoder: &Decoder,
    first: u32,
    guard: u32,
    value: u32,
    place: u32,
) -> Result<(), Memory>
    requires places { HasPlaces decoder.now place }
    requires word { first + place < length draft.old.words.items }
    requires fits { first + place < 2 ^ 32 }
    ensures drawn { OnOk result (drawn draft.new ≡ spec.write_turn decoder.now first guard value place (drawn draft.old)) }
    ensures words { length draft.new.words.items ≡ length draft.old.words.items }
{
    let test = at_place(draft, decoder, place)?;
    let guard = draft.join(Binary::Both, guard, test)?;
    write_word(draft, first + place, guard, value)
}

/// The word that the index chooses among so many from `first` on becomes the value where the guard is not 0.
fn write_chain(
    draft: &mut Draft,
    decoder: &Decoder,
    first: u32,
    len: u32,
    guard: u32,
    value: u32,
) -> Result<(), Memory>
    requires places { (k : ℕ) → k < len → HasPlaces decoder.now k }
    requires within { AreWithin (length draft.old.words.items) first len }
    requires short { length draft.old.words.items < 2 ^ 32 }
    ensures drawn { OnOk result (drawn draft.new ≡ spec.write_from decoder.now first guard value 0 len (drawn draft.old)) }
    ensures words { length draft.new.words.items ≡ length draft.old.words.items }
{
    for place in 0..len {
        write_turn(draft, decoder, first, guard, value, place)?;
    }
    Ok(())
}

/// A write by a constant index. Past the length it does nothing.
fn write_fixed(
    draft: &mut Draft,
    to: &Spot,
    index: Value,
    guard: u32,
    value: u32,
) -> Result<(), Memory>
    requires within { AreWithin (length draft.old.words.items) to.now.first to.now.len }
    requires short { length draft.old.words.items < 2 ^ 32 }
    ensures drawn { OnOk result (drawn draft.new ≡ (if nat_lt index to.now.len then spec.write_word (to.now.first + index) guard value (drawn draft.old) else drawn draft.old)) }
    ensures words { length draft.new.words.items ≡ length draft.old.words.items }
{
    if index < u64::from(to.len) {
        return write_word(draft, to.first + index as u32, guard, value);
    }
    Ok(())
}

/// A write by the node of an index.
fn write_element(
    alloc: Global,
    draft: &mut Draft,
    to: &Spot,
    index: u32,
    guard: u32,
    value: u32,
) -> Result<(), Memory>
    requires within { AreWithin (length draft.old.words.items) to.now.first to.now.len }
    requires short { length draft.old.words.items < 2 ^ 32 }
    ensures drawn { OnOk result (drawn draft.new ≡ spec.write_element to.now.first to.now.len guard value (record { drawn = drawn draft.old; node = index })) }
    ensures words { length draft.new.words.items ≡ length draft.old.words.items }
{
    let decoder = decode(alloc, draft, index, to.len)?;
    write_chain(draft, &decoder, to.first, to.len, guard, value)
}

/// Where the guard is not 0, the word that the spot names becomes the value.
#[tactic(auto, unfolding(crate::specs::Construction::write_by))]
pub fn write(
    alloc: Global,
    draft: &mut Draft,
    to: &Spot,
    guard: u32,
    value: u32,
) -> Result<(), Memory>
    requires within { IsLocationOf (length draft.old.words.items) (location to.now) }
    requires short { length draft.old.words.items < 2 ^ 32 }
    ensures drawn { OnOk result (drawn draft.new ≡ spec.write (location to.now) guard (record { drawn = drawn draft.old; node = value })) }
    ensures words { length draft.new.words.items ≡ length draft.old.words.items }
{
    if let FlatExpr::Constant { value: index } = &to.index {
        return write_fixed(draft, to, *index, guard, value);
    }
    let index = expression(alloc, draft, &to.index)?;
    write_element(alloc, draft, to, index, guard, value)
}
