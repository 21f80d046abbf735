ghost use Rattle.std.specs.Prelude.{ℕ, ◌≡◌, ◌+◌, ◌*◌, ◌<◌, ◌^◌, length, map, slice_index, IfOk};
ghost use Rattle.lz_tree.specs.ScopedTrees.{scoped_definition, scoped_program};
ghost use Rattle.lz_tree.specs.Calls.{IsCallOrder};
ghost use Rattle.lz_slots.specs.Nesting.{saturated};
ghost use Rattle.lz_slots.specs.CostTable.{thread_number};
ghost use Rattle.lz_slots.specs.Costs as costs;
ghost use Rattle.lz_slots.specs.Slots as slots;
ghost use Rattle.lz_slots.specs.Walking.{weight_of};

use crate::costs::{Rates, number_at, statement_cost};
use crate::saturate::{plus, times};
use crate::sites::{SiteRates, SiteWeight, statement_sites};
use crate::table::THREAD;
use lz_base::Memory;
use lz_tree::{Scoped, ScopedFunction};
use std::alloc::Global;

/// The cost of one function's body from those of the bodies of the functions that it calls.
fn cost_of(functions: &[ScopedFunction], function: u32, rates: &Rates) -> u64
    requires { function < length functions.now }
    ensures { result ≡ saturated (costs.cost_step (map scoped_definition functions.now) rates.now.turns rates.now.threads (slice_index rates.now.bodies.now) function) }
{
    statement_cost(rates, &functions[function as usize].body)
}

/// The cost of each function's body, each walked once, in the order of calls.
fn body_costs(
    alloc: Global,
    functions: &[ScopedFunction],
    order: &[u32],
    turns: u64,
    threads: u64,
) -> Result<Vec<u64>, Memory>
    requires { IsCallOrder (map scoped_definition functions.now) order.now }
    ensures { IfOk result (λ v. (f : ℕ) → slice_index v.items f ≡ saturated (costs.body_cost (map scoped_definition functions.now) turns threads f)) }
{
    let mut numbers = vec![in alloc; 0; functions.len()]?;
    for function in order {
        let number = cost_of(
            functions,
            *function,
            &Rates {
                turns,
                threads,
                bodies: &numbers,
            },
        );
        numbers[*function as usize] = number;
    }
    Ok(numbers)
}

/// The sites of one function's body from those of the bodies of the functions that it calls.
fn sites_of(functions: &[ScopedFunction], function: u32, rates: &SiteRates) -> u64
    requires { function < length functions.now }
    ensures { result ≡ saturated (slots.sites_step (map scoped_definition functions.now) rates.now.turns (weight_of rates.now.weight rates.now.costs.now) (slice_index rates.now.bodies.now) function) }
{
    statement_sites(rates, &functions[function as usize].body)
}

/// The sites of each function's body, each walked once, in the order of calls.
fn body_sites(
    alloc: Global,
    functions: &[ScopedFunction],
    order: &[u32],
    turns: u64,
    weight: SiteWeight,
    costs: &[u64],
) -> Result<Vec<u64>, Memory>
    requires { IsCallOrder (map scoped_definition functions.now) order.now }
    ensures { IfOk result (λ v. (f : ℕ) → slice_index v.items f ≡ saturated (slots.function_sites (map scoped_definition functions.now) turns (weight_of weight costs.now) f)) }
{
    let mut numbers = vec![in alloc; 0; functions.len()]?;
    for function in order {
        let number = sites_of(
            functions,
            *function,
            &SiteRates {
                turns,
                weight,
                costs,
                bodies: &numbers,
            },
        );
        numbers[*function as usize] = number;
    }
    Ok(numbers)
}

/// The slots of a program within so many turns of each loop: how many threads `main` can create. Stops at the
/// greatest number. Each body is walked once.
pub fn slots(alloc: Global, scoped: &Scoped, order: &[u32], unwind: u32) -> Result<u64, Memory>
    requires { IsCallOrder (scoped_program scoped.now).functions order.now }
    ensures { IfOk result (λ n. n ≡ saturated (slots.slots (scoped_program scoped.now) unwind)) }
{
    let sites = body_sites(
        alloc,
        scoped.functions.items(),
        order,
        unwind as u64,
        SiteWeight::One,
        &[],
    )?;
    Ok(number_at(&sites, scoped.main))
}

/// The cost of so many rounds, from the costs of the bodies and of the threads that they create.
fn rounds_cost(rounds: u32, main: u32, bodies: &[u64], starts: &[u64]) -> u64
    ensures { result ≡ saturated (rounds * (thread_number + slice_index bodies.now main + slice_index starts.now main)) }
{
    let own = plus(THREAD, number_at(bodies, main));
    times(rounds as u64, plus(own, number_at(starts, main)))
}

/// The cost of a program within so many turns of each loop and so many rounds. Stops at the greatest number.
/// Each body is walked three times: for the slots, for its cost, and for the costs of the threads that it creates.
pub fn cost(
    alloc: Global,
    scoped: &Scoped,
    order: &[u32],
    unwind: u32,
    rounds: u32,
) -> Result<u64, Memory>
    requires { IsCallOrder (scoped_program scoped.now).functions order.now }
    ensures { IfOk result (λ n. n ≡ saturated (costs.cost (scoped_program scoped.now) unwind rounds)) }
{
    let functions = scoped.functions.items();
    let sites = slots(alloc, scoped, order, unwind)?;
    let threads = plus(sites, 1);
    let bodies = body_costs(alloc, functions, order, unwind as u64, threads)?;
    let starts = body_sites(
        alloc,
        functions,
        order,
        unwind as u64,
        SiteWeight::Thread,
        &bodies,
    )?;
    Ok(rounds_cost(rounds, scoped.main, &bodies, &starts))
}
