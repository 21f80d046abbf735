ghost use Rattle.std.specs.Prelude.{◌≡◌, ℕ, ◌<◌, ◌==◌, ◌↔◌, IsTrue, true, false, length, slice_index, IfOk};
ghost use Rattle.std.specs.List.{count_by, filter};
ghost use Rattle.lz_calls.specs.Ranks.{AreLower, IsCount, IsFalling, IsRanking, IsRankOrder};

use crate::reaching::{reach, row};
use lz_base::{Memory, Sequence};
use std::alloc::Global;

/// The rank of a function, and 0 for a number that no function has.
pub fn rank_at(ranks: &[u64], function: u32) -> u64
    ensures { result ≡ slice_index ranks.now function }
{
    match ranks.get(function as usize) {
        Some(rank) => *rank,
        None => 0,
    }
}

fn marked(marks: &[bool]) -> usize
    ensures { result ≡ count_by (λ m. m) marks.now }
{
    marks.iter().filter(|m| **m).count()
}

/// How many functions one can reach through calls, itself among them.
fn reached_by(alloc: Global, graph: &[Sequence<u32>], function: u32) -> Result<u64, Memory>
    ensures { IfOk result (λ n. IsCount graph.now function n) }
{
    let marks = reach(alloc, graph, &[function])?;
    Ok(marked(&marks) as u64)
}

/// Ranks by how many functions each can reach: exact for each program, but a search for each function.
pub fn ranks_by_reach(
    alloc: Global,
    graph: &[Sequence<u32>],
    count: u32,
) -> Result<Vec<u64>, Memory>
    requires { count ≡ length graph.now }
    ensures { IfOk result (λ ranks. IsRanking graph.now ranks.items) }
{
    let mut ranks = Vec::new(alloc);
    for function in 0..count {
        ranks.push(reached_by(alloc, graph, function)?)?;
    }
    Ok(ranks)
}

/// The functions from the lowest rank up.
pub fn rank_order(alloc: Global, ranks: &[u64], count: u32) -> Result<Vec<u32>, Memory>
    ensures { IfOk result (λ order. IsRankOrder count ranks.now order.items) }
{
    let mut order = Vec::new(alloc);
    for function in 0..count {
        order.push(function)?;
    }
    order.sort_by_key(|f| rank_at(ranks, *f))?;
    Ok(order)
}

/// Those of the functions that one calls that come back to it: they have its rank.
pub fn returning_row(
    alloc: Global,
    ranks: &[u64],
    row: &[u32],
    own: u64,
) -> Result<Vec<u32>, Memory>
    ensures { IfOk result (λ v. v.items ≡ filter (λ g. slice_index ranks.now g == own) row.now) }
{
    let row = row
        .iter()
        .copied()
        .filter(|g| rank_at(ranks, *g) == own)
        .collect(alloc)?;
    Ok(row)
}

/// Whether all calls of a row lead to functions of lower rank.
fn are_lower(ranks: &[u64], row: &[u32], own: u64, count: u32) -> bool
    ensures { IsTrue result ↔ AreLower ranks.now own count row.now }
{
    row.iter().all(|g| *g < count && rank_at(ranks, *g) < own)
}

/// Whether each call leads to a function of lower rank. Looks at each call once.
pub fn is_falling(graph: &[Sequence<u32>], ranks: &[u64], count: u32) -> bool
    requires { count ≡ length graph.now }
    ensures yes { result ≡ true → IsFalling graph.now ranks.now count count }
    ensures no { result ≡ false → IsFalling graph.now ranks.now count count → ⊥ }
{
    for function in 0..count {
        if !are_lower(ranks, row(graph, function), rank_at(ranks, function), count) {
            return false;
        }
    }
    true
}
