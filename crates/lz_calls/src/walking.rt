ghost use Rattle.std.specs.Prelude.{◌≡◌, ◌<◌, ◌↔◌, IsTrue, EachIndex, true, false, length, slice_index, IfOk};
ghost use Rattle.lz_calls.specs.Ranks.{IsFalling, IsRanking};

use crate::ranks::{is_falling, ranks_by_reach};
use crate::reaching::row;
use lz_base::{Memory, Sequence};
use std::alloc::Global;

/// A function whose calls are looked at, and the place of the next one.
#[derive(Clone, Copy)]
struct Frame {
    function: u32,
    next: u64,
}

/// Notes a function as one to be visited, where it was not before.
fn enter(seen: &mut Vec<bool>, stack: &mut Vec<Frame>, function: u32) -> Result<(), Memory> {
    if let Some(mark) = seen.get_mut(function as usize) {
        if !*mark {
            *mark = true;
            stack.push(Frame { function, next: 0 })?;
        }
    }
    Ok(())
}

/// Gives a function the next rank.
fn leave(ranks: &mut Vec<u64>, function: u32, rank: u64) {
    if let Some(place) = ranks.get_mut(function as usize) {
        *place = rank;
    }
}

/// Visits what is on the stack and what that calls, each before its caller is left, and gives the last rank that was
/// given. Nothing is promised of the ranks, which are looked at when all are there; the turns are counted so that there
/// is an end, and the stack is empty long before.
fn visit(
    graph: &[Sequence<u32>],
    seen: &mut Vec<bool>,
    stack: &mut Vec<Frame>,
    ranks: &mut Vec<u64>,
    last: u64,
) -> Result<u64, Memory> {
    let mut last = last;
    for _ in 0..u64::MAX {
        let Some(top) = stack.pop() else {
            return Ok(last);
        };
        match row(graph, top.function).get(top.next as usize) {
            None => {
                last = last.wrapping_add(1);
                leave(ranks, top.function, last);
            }
            Some(called) => {
                stack.push(Frame {
                    function: top.function,
                    next: top.next.wrapping_add(1),
                })?;
                enter(seen, stack, *called)?;
            }
        }
    }
    Ok(last)
}

/// The places, from 1, in which a depth-first walk leaves the functions: ranks where no call comes back, since then a
/// function is left behind all that it calls. Looks at each call once.
fn ranks_by_walk(alloc: Global, graph: &[Sequence<u32>], count: u32) -> Result<Vec<u64>, Memory> {
    let mut ranks = vec![in alloc; 0; graph.len()]?;
    let mut seen = vec![in alloc; false; graph.len()]?;
    let mut stack = Vec::new(alloc);
    let mut last = 0;
    for function in 0..count {
        enter(&mut seen, &mut stack, function)?;
        last = visit(graph, &mut seen, &mut stack, &mut ranks, last)?;
    }
    Ok(ranks)
}

/// Whether no function is without a rank.
fn are_positive(ranks: &[u64]) -> bool
    ensures { IsTrue result ↔ EachIndex ranks.now (λ k. 0 < slice_index ranks.now k) }
{
    ranks.iter().all(|rank| 0 < *rank)
}

/// Ranks of the functions, and whether each call leads to a function of lower rank.
#[derive(Drop)]
pub struct Ranking {
    /// For each function its rank.
    pub ranks: Vec<u64>,
    /// Whether no call comes back, and each leads to a function.
    pub falling: bool,
}

/// Whether each function has a rank, and each call leads to a lower one. Looks at each call once.
fn serves(graph: &[Sequence<u32>], ranks: &[u64], count: u32) -> bool
    requires { count ≡ length graph.now }
    ensures ranking { result ≡ true → IsRanking graph.now ranks.now }
    ensures falling { result ≡ true → IsFalling graph.now ranks.now count count }
{
    if ranks.len() != graph.len() {
        return false;
    }
    if !are_positive(ranks) {
        return false;
    }
    is_falling(graph, ranks, count)
}

/// Ranks by a search from each function.
fn ranking_by_reach(alloc: Global, graph: &[Sequence<u32>], count: u32) -> Result<Ranking, Memory>
    requires { count ≡ length graph.now }
    ensures ranks { IfOk result (λ r. IsRanking graph.now r.ranks.items) }
    ensures yes { IfOk result (λ r. r.falling ≡ true → IsFalling graph.now r.ranks.items count count) }
    ensures no { IfOk result (λ r. r.falling ≡ false → IsFalling graph.now r.ranks.items count count → ⊥) }
{
    let ranks = ranks_by_reach(alloc, graph, count)?;
    let falling = is_falling(graph, &ranks, count);
    Ok(Ranking { ranks, falling })
}

/// Ranks of the functions, and whether they fall along each call. Where no call comes back and each leads to a
/// function, each call is looked at twice. Else there is a search from each function, in a time that grows as the
/// functions times the functions and calls: of the programs whose calls lead to functions that is so for those with
/// recursion alone, which a rule refuses.
pub fn ranks_of(alloc: Global, graph: &[Sequence<u32>], count: u32) -> Result<Ranking, Memory>
    requires { count ≡ length graph.now }
    ensures ranks { IfOk result (λ r. IsRanking graph.now r.ranks.items) }
    ensures yes { IfOk result (λ r. r.falling ≡ true → IsFalling graph.now r.ranks.items count count) }
    ensures no { IfOk result (λ r. r.falling ≡ false → IsFalling graph.now r.ranks.items count count → ⊥) }
{
    let ranks = ranks_by_walk(alloc, graph, count)?;
    if serves(graph, &ranks, count) {
        return Ok(Ranking {
            ranks,
            falling: true,
        });
    }
    ranking_by_reach(alloc, graph, count)
}
