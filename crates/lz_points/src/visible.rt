ghost use Rattle.std.specs.Prelude.{◌≡◌, ◌<◌, ◌≤◌, ◌%◌, length, map};
ghost use Rattle.lz_base.specs.Words.{value_bound};
ghost use Rattle.lz_flat.specs.Programs.{flat_program};
ghost use Rattle.lz_flat.specs.WellFormed.{IsWellMarked};
ghost use Rattle.lz_flat.specs.Weight.{flat_weight};
ghost use Rattle.lz_flat.specs.Lengths.{FlatHasLengths};
ghost use Rattle.lz_points.specs.Tags.{shared_tag};
ghost use Rattle.lz_points.specs.Marks.{IsThinnedFrom, BreakAlike, BreaksBefore};

use crate::claim::claim_threads;
use crate::thin::thin_threads;
use lz_base::{VALUE_BOUND, Value};
use lz_flat::Flat;

/// Takes the tags away: the first values alone are left.
fn restore(tags: &mut [Value])
    ensures { tags.new ≡ map (λ v. v % value_bound) tags.old }
{
    for at in 0..tags.len() {
        tags[at] %= VALUE_BOUND;
    }
}

/// Takes the mark from each instruction for which three things hold: it is no assumption; it is not the first of its
/// thread; and neither it nor an instruction that can be reached from it before the next one that was visible names a
/// word that another thread's instructions name. An element names all words that its index may reach.
///
/// Takes no memory: while it runs, the upper half of each first value says which threads name the word. It walks over
/// the words that are named once to claim them and at most twice to test them, and three times over the instructions.
/// At the greatest weight, 10,000,000, these are at most 76,000 instructions and 2,000,000 words, whatever the number
/// of threads, if a spot with a constant index has the length 1: such a spot weighs the same at every length.
pub fn mark(flat: &mut Flat)
    requires marked { IsWellMarked (flat_program flat.old) }
    requires threads { length flat.old.threads < shared_tag }
    ensures marks { IsThinnedFrom (flat_program flat.old) (flat_program flat.new) }
    ensures broken { BreakAlike (flat_program flat.old) (flat_program flat.new) }
    ensures before { BreaksBefore (flat_program flat.old) (flat_program flat.new) }
    ensures weight { flat_weight (flat_program flat.new) ≤ flat_weight (flat_program flat.old) }
    ensures lengths { FlatHasLengths (flat_program flat.old) → FlatHasLengths (flat_program flat.new) }
{
    claim_threads(flat.first.items_mut(), flat.threads.items());
    thin_threads(flat.threads.items_mut(), flat.first.items());
    restore(flat.first.items_mut());
}
