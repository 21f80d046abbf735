ghost use Rattle.std.specs.Prelude.{ℕ, ◌≡◌, ◌<◌, ◌==◌, ◌++◌, [], ◌∷◌, nat_lt, map, length, slice_index, slice_get, Some, None, IfOk, OnOk, if◌then◌else◌};
ghost use Rattle.lz_tree.specs.ScopedTrees.{scoped_definition};
ghost use Rattle.lz_calls.specs.Calls.{graph_of, body_height_limit, AreFacts};
ghost use Rattle.lz_calls.specs.Ranks.{IsRanking, AreReturning};
ghost use Rattle.lz_calls.specs.Facts.{AreStarts, IsOrderOf, facts_of};

use crate::heights::heights;
use crate::listing::graph;
use crate::ranks::{rank_at, rank_order, returning_row};
use crate::reaching::{reach, row};
use crate::walking::ranks_of;
use lz_base::{Memory, Sequence};
use lz_tree::ScopedFunction;
use std::alloc::Global;

/// The greatest height of a function's body, in nodes.
pub const BODY_HEIGHT_LIMIT: u32 = 1000;

/// What is to be found out about the functions of a file, by their numbers.
#[derive(Drop)]
pub struct CallFacts {
    /// For each function those that it calls and that come back to it.
    pub returning: Vec<Vec<u32>>,
    /// For each function whether a start routine reaches it, or it is one.
    pub reached: Vec<bool>,
    /// For each function whether its body is too high with those that it calls.
    pub high: Vec<bool>,
    /// The functions, each behind those that it calls, where no call comes back and each leads to a function.
    pub order: Option<Vec<u32>>,
}

/// How many functions there are. Their numbers have 32 bits: more are want of memory.
fn count_of(functions: &[ScopedFunction]) -> Result<u32, Memory>
    ensures { IfOk result (λ n. n ≡ length functions.now) }
{
    if functions.len() > u32::MAX as usize {
        return Err(Memory);
    }
    Ok(functions.len() as u32)
}

/// Of each function the calls that come back.
fn returning_rows(
    alloc: Global,
    graph: &[Sequence<u32>],
    ranks: &[u64],
    count: u32,
) -> Result<Vec<Vec<u32>>, Memory>
    ensures { IfOk result (λ rows. AreReturning graph.now ranks.now count (map (λ row. row.items) rows.items)) }
{
    let mut rows = Vec::new(alloc);
    for function in 0..count {
        let own = rank_at(ranks, function);
        rows.push(returning_row(alloc, ranks, row(graph, function), own)?)?;
    }
    Ok(rows)
}

fn note_start(starts: &mut Vec<u32>, function: &ScopedFunction, number: u32) -> Result<(), Memory>
    ensures { OnOk result (starts.new.items ≡ (if function.now.start then starts.old.items ++ number ∷ [] else starts.old.items)) }
{
    if function.start {
        starts.push(number)?;
        return Ok(());
    }
    Ok(())
}

/// The numbers of the start routines.
fn starts_of(alloc: Global, functions: &[ScopedFunction], count: u32) -> Result<Vec<u32>, Memory>
    requires { count ≡ length functions.now }
    ensures { IfOk result (λ starts. AreStarts (map scoped_definition functions.now) count starts.items) }
{
    let mut starts = Vec::new(alloc);
    for number in 0..count {
        note_start(&mut starts, &functions[number as usize], number)?;
    }
    Ok(starts)
}

/// Which heights are above the limit.
fn high_of(alloc: Global, heights: &[u32]) -> Result<Vec<bool>, Memory>
    ensures { IfOk result (λ high. high.items ≡ map (λ h. nat_lt body_height_limit h) heights.now) }
{
    let high = heights
        .iter()
        .map(|h| BODY_HEIGHT_LIMIT < *h)
        .collect(alloc)?;
    Ok(high)
}

/// The order, where the calls permit it.
fn kept(order: Vec<u32>, keep: bool) -> Option<Vec<u32>>
    ensures { result ≡ (if keep then Some order else None) }
{
    if keep { Some(order) } else { None }
}

/// The facts of the functions of a program: which of the functions that one calls come back to it, which functions a
/// start routine can reach, and which bodies are too high with those that they call.
pub fn facts(alloc: Global, functions: &[ScopedFunction]) -> Result<CallFacts, Memory>
    ensures facts { IfOk result (λ found. AreFacts (map scoped_definition functions.now) (facts_of found)) }
    ensures order { IfOk result (λ found. IsOrderOf (map scoped_definition functions.now) found.order) }
{
    let count = count_of(functions)?;
    let graph = graph(alloc, functions)?;
    let ranking = ranks_of(alloc, &graph, count)?;
    let order = rank_order(alloc, &ranking.ranks, count)?;
    let heights = heights(alloc, functions, &ranking.ranks, &order)?;
    let returning = returning_rows(alloc, &graph, &ranking.ranks, count)?;
    let starts = starts_of(alloc, functions, count)?;
    let reached = reach(alloc, &graph, &starts)?;
    let high = high_of(alloc, &heights)?;
    let order = kept(order, ranking.falling);
    Ok(CallFacts {
        returning,
        reached,
        high,
        order,
    })
}
