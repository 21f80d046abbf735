ghost use Rattle.std.specs.Prelude.{◌≡◌, ◌<◌, ◌≤◌, ◌+◌, ◌*◌, ◌^◌, length, map, All, OnOk, IfOk, ◌++◌};
ghost use Rattle.lz_base.specs.Limits.{cost_limit};
ghost use Rattle.lz_flat.specs.Programs.{statement, flat_program, straight_program, instructions};
ghost use Rattle.lz_flat.specs.FlatRuns.{threads_from};
ghost use Rattle.lz_flat.specs.WellFormed.{IsWellMarked, IsWellFormed};
ghost use Rattle.lz_flat.specs.Lengths.{FlatHasLengths, StraightHasLengths};
ghost use Rattle.lz_flat.specs.Weight.{flat_weight, straight_weight};
ghost use Rattle.lz_lazy.specs.Encoding as spec;
ghost use Rattle.lz_lazy.specs.Sequential.{FailsAsDriven, FailsWhereBroken};

use crate::encode::push_block;
use lz_base::{Memory, Sequence, Values};
use lz_flat::{Flat, GuardedList, Straight};
use std::alloc::Global;

/// Adds the blocks of a round.
fn push_round(alloc: Global, list: &mut GuardedList, flat: &Flat, words: u32) -> Result<(), Memory>
    requires words { words ≡ length flat.now.first }
    requires fits { words + (2 + length flat.now.threads) < 2 ^ 32 }
    requires places { All (λ code. length code + 1 < 2 ^ 32) flat.now.threads }
    ensures { OnOk result (map statement list.new ≡ map statement list.old ++ spec.encoded_blocks (flat_program flat.now) (threads_from 0 (length flat.now.threads))) }
{
    let threads = flat.threads.items();
    for thread in 0..threads.len() {
        push_block(alloc, list, words, thread as u32, threads[thread].items())?;
    }
    Ok(())
}

/// The first values: those of the program, then 0 for the guess, the flag and the place of each thread.
fn first_values(alloc: Global, flat: &Flat) -> Result<Values, Memory>
    ensures { IfOk result (λ first. first ≡ spec.encoded_first (flat_program flat.now)) }
{
    let mut first = Sequence::new(alloc);
    first.append(flat.first.items())?;
    first.push(0)?;
    first.push(0)?;
    for _ in flat.threads.items() {
        first.push(0)?;
    }
    Ok(first)
}

/// The statements of so many rounds.
fn statements(alloc: Global, flat: &Flat, rounds: u32) -> Result<GuardedList, Memory>
    requires fits { length flat.now.first + (2 + length flat.now.threads) < 2 ^ 32 }
    requires places { All (λ code. length code + 1 < 2 ^ 32) flat.now.threads }
    ensures { IfOk result (λ list. map statement list ≡ spec.encoding (flat_program flat.now) rounds) }
{
    let words = flat.first.items().len() as u32;
    let mut list = Sequence::new(alloc);
    for _ in 0..rounds {
        push_round(alloc, &mut list, flat, words)?;
    }
    Ok(list)
}

/// The straight program of a flat program for so many rounds. It has a word more for each thread and two
/// besides: where they can't be numbered below 2^32 it answers want of memory.
pub fn sequentialize(alloc: Global, flat: &Flat, rounds: u32) -> Result<Straight, Memory>
    requires marked { IsWellMarked (flat_program flat.now) }
    requires words { length flat.now.first < 2 ^ 32 }
    requires rounds { 1 ≤ rounds }
    requires light { rounds * flat_weight (flat_program flat.now) ≤ cost_limit }

    ensures driven { IfOk result (λ made. FailsAsDriven (flat_program flat.now) rounds (straight_program made)) }
    ensures broken { IfOk result (λ made. FailsWhereBroken (flat_program flat.now) rounds (straight_program made)) }

    ensures words { IfOk result (λ made. length made.first < 2 ^ 32) }
    ensures size { IfOk result (λ made. length made.list ≡ 3 * rounds * (instructions (flat_program flat.now).threads + 4 * length flat.now.threads)) }
    ensures weight { IfOk result (λ made. straight_weight (straight_program made) ≤ rounds * flat_weight (flat_program flat.now)) }
    ensures formed { IfOk result (λ made. IsWellFormed (straight_program made)) }
    ensures lengths { FlatHasLengths (flat_program flat.now) → IfOk result (λ made. StraightHasLengths (straight_program made)) }
{
    let words = flat.first.items().len() as u64 + (2 + flat.threads.items().len() as u64);
    if words > u64::from(u32::MAX) {
        return Err(Memory);
    }
    let list = statements(alloc, flat, rounds)?;
    let first = first_values(alloc, flat)?;
    Ok(Straight { list, first })
}
