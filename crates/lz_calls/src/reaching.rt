ghost use Rattle.std.specs.Prelude.{◌≡◌, ◌<◌, IfOk, OnOk, slice_get};
ghost use Rattle.lz_calls.specs.Calls as spec;
ghost use Rattle.lz_calls.specs.Reaching.{IsReach, Marks};

use lz_base::{Memory, Sequence};
use std::alloc::Global;

/// The functions that a function calls; none for a number that no function has.
pub fn row(graph: &[Sequence<u32>], function: u32) -> &[u32]
    ensures { result.now ≡ spec.row (slice_get graph.now function) }
{
    match graph.get(function as usize) {
        None => &[],
        Some(row) => row.items(),
    }
}

/// Marks a function, and notes it as work where it was not marked. A number that no function has is passed over.
fn mark(marks: &mut Vec<bool>, work: &mut Vec<u32>, function: u32) -> Result<(), Memory>
    ensures { OnOk result (Marks function marks.old.items work.old.items marks.new.items work.new.items) }
{
    if function as usize >= marks.len() {
        return Ok(());
    }
    if !marks[function as usize] {
        marks[function as usize] = true;
        work.push(function)?;
    }
    Ok(())
}

/// Which functions some can reach through calls, themselves among them. Looks at each call once.
pub fn reach(alloc: Global, graph: &[Sequence<u32>], starts: &[u32]) -> Result<Vec<bool>, Memory>
    ensures { IfOk result (λ marks. IsReach graph.now starts.now marks.items) }
{
    let mut marks = vec![in alloc; false; graph.len()]?;
    let mut work = Vec::new(alloc);
    for s in starts {
        mark(&mut marks, &mut work, *s)?;
    }
    while let Some(f) = work.pop() {
        for g in row(graph, f) {
            mark(&mut marks, &mut work, *g)?;
        }
    }
    Ok(marks)
}
