//! Slots and cost within other bounds than the default ones. Each layer is called by itself.

ghost use Rattle.lz_tree.specs.ScopedTrees.{scoped_program};
ghost use Rattle.lz_tree.specs.Calls.{IsCallOrder};

use lz_lex::lex;
use lz_parse::parse;
use lz_slots::{cost, slots};
use lz_tree::{Scoped, Tokens};
use lz_types::check;
use std::alloc::Global;
use std::process::Abort;
use std::test::Fail;

/// Four loops, one in the other.
const LOOPS: &str = "int main(void) { while (1) while (1) while (1) while (1) ; }";

/// A loop that creates a thread in each turn.
const THREADS: &str =
    "void *f(void *a) { return NULL; } int main(void) { pthread_t t; while (1) pthread_create(&t, NULL, f, NULL); }";

/// A text, the turns of a loop, the slots, and the reason of the row.
type SlotRow = (&'static str, u32, u64, &'static str);

const SLOTS: [SlotRow; 4] = [
    (THREADS, 17, 17, "a thread more than the command admits"),
    (THREADS, 16, 16, "as many as the command admits"),
    (THREADS, 0, 0, "no turn creates none"),
    (LOOPS, 17, 0, "loops without a thread have none"),
];

/// A text, the turns of a loop, the rounds, the cost, and the reason of the row.
type CostRow = (&'static str, u32, u32, u64, &'static str);

const COSTS: [CostRow; 2] = [
    (
        LOOPS,
        100,
        2,
        417_874_751_488,
        "the stated cost of four loops",
    ),
    (
        LOOPS,
        100,
        1,
        208_937_375_744,
        "a round costs the half of two",
    ),
];

/// The tokens of a text that is no longer than a file may be.
fn tokens_of(alloc: Global, text: &[u8]) -> Option<Tokens> {
    if text.len() > 1_048_576 {
        return None;
    }
    lex(alloc, text).ok()
}

/// The slots of a program, where there is memory.
fn slots_of(alloc: Global, scoped: &Scoped, order: &[u32], unwind: u32) -> Option<u64>
    requires { IsCallOrder (scoped_program scoped.now).functions order.now }
{
    slots(alloc, scoped, order, unwind).ok()
}

/// The cost of a program, where there is memory.
fn cost_of(alloc: Global, scoped: &Scoped, order: &[u32], unwind: u32, rounds: u32) -> Option<u64>
    requires { IsCallOrder (scoped_program scoped.now).functions order.now }
{
    cost(alloc, scoped, order, unwind, rounds).ok()
}

/// The slots and the cost of a program.
fn sums_of(
    alloc: Global,
    scoped: &Scoped,
    order: &[u32],
    unwind: u32,
    rounds: u32,
) -> Option<(u64, u64)>
    requires { IsCallOrder (scoped_program scoped.now).functions order.now }
{
    let slots = slots_of(alloc, scoped, order, unwind)?;
    let cost = cost_of(alloc, scoped, order, unwind, rounds)?;
    Some((slots, cost))
}

/// The slots and the cost of a text that breaks no rule.
fn measured(alloc: Global, text: &str, unwind: u32, rounds: u32) -> Option<(u64, u64)> {
    let tokens = tokens_of(alloc, text.as_bytes())?;
    let program = parse(alloc, &tokens).ok()?;
    match check(alloc, program) {
        Ok(checked) => sums_of(alloc, checked.scoped(), checked.order(), unwind, rounds),
        Err(_) => None,
    }
}

/// Compares each row's slots.
fn slots_agree(rt: &impl Abort, alloc: Global, rows: &[SlotRow]) -> Result<(), Fail> {
    for (text, unwind, slots, reason) in rows {
        let sums = measured(alloc, text, *unwind, 2).ok_or(*reason)?;
        assert_eq!(rt; sums.0, *slots, "{reason}");
    }
    Ok(())
}

/// Compares each row's cost.
fn costs_agree(rt: &impl Abort, alloc: Global, rows: &[CostRow]) -> Result<(), Fail> {
    for (text, unwind, rounds, cost, reason) in rows {
        let sums = measured(alloc, text, *unwind, *rounds).ok_or(*reason)?;
        assert_eq!(rt; sums.1, *cost, "{reason}");
    }
    Ok(())
}

#[test]
fn other_bounds(rt: HostRuntime) -> Result<(), Fail> {
    slots_agree(&rt, rt.alloc(), &SLOTS)?;
    costs_agree(&rt, rt.alloc(), &COSTS)
}
