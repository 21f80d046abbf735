//! What the instructions of an operation come to in memory, and what its action comes to in a store.

ghost use Rattle.std.specs.Prelude.{◌≡◌, ◌≤◌, ◌<◌, All, length, map};
ghost use Rattle.std.specs.List.{AllByRecursion};
ghost use Rattle.lz_flat.specs.Programs.{expression, location, instruction};
ghost use Rattle.lz_flat.specs.Programs as programs;
ghost use Rattle.lz_flat.specs.WellFormed.{IsWord};
ghost use Rattle.lz_sync.specs.Groups.{fixed};
ghost use Rattle.lz_sync.specs.Operations.{operation};
ghost use Rattle.lz_sync.specs.Forming.{IsFormedInstruction};
ghost use Rattle.lz_store.specs.Answers.{IsWithin};
ghost use Rattle.lz_sync_tests.specs.SmallOperations.{small_layout, IsSmall};

use lz_base::{BreakKind, Memory, Value, Values};
use lz_flat::{FlatExpr, Halt, Instr, Spot, perform_instr};
use lz_model::Action;
use lz_store::{Acted, Store};
use lz_sync::{Layout, SyncOp, expand};
use lz_tree::{Scoped, ScopedFunctions};
use std::alloc::Global;
use std::test::Fail;

/// An operation with numbers for its expressions, on the one cell, mutex and condition. A creation makes slot 2.
#[derive(Clone, Copy, Debug, PartialEq, Eq)]
enum Op {
    Read,
    Write(u32),
    Reset,
    Lock,
    Unlock,
    Park,
    Wake,
    Signal(u32),
    Broadcast,
    Create,
    Join(u32),
    HoldOn,
    HoldOff,
    End(bool),
}

/// A row: the slot of a thread, what it does, what that comes to, and why.
type Row<'a> = (u32, Op, Acted, &'a str);

fn small() -> Layout
    ensures { result ≡ small_layout }
{
    Layout {
        cells: 1,
        mutexes: 1,
        conds: 1,
        threads: 3,
    }
}

fn constant(value: u64) -> FlatExpr
    ensures { expression result ≡ programs.constant value }
{
    FlatExpr::Constant { value }
}

fn spot(first: u32) -> Spot
    ensures { location result ≡ fixed first }
{
    Spot {
        first,
        len: 1,
        index: constant(0),
    }
}

/// The operation that is expanded: a read leaves its value in word 12.
#[tactic(auto, using(crate::proofs::SmallLemmas::reads_small, crate::proofs::SmallLemmas::writes_small, crate::proofs::SmallLemmas::resets_small, crate::proofs::SmallLemmas::locks_small, crate::proofs::SmallLemmas::unlocks_small, crate::proofs::SmallLemmas::parks_small, crate::proofs::SmallLemmas::wakes_small, crate::proofs::SmallLemmas::signals_small, crate::proofs::SmallLemmas::broadcasts_small, crate::proofs::SmallLemmas::creates_small, crate::proofs::SmallLemmas::joins_small, crate::proofs::SmallLemmas::others_small))]
fn sync_op(op: Op) -> SyncOp
    ensures { IsSmall (operation result) }
{
    match op {
        Op::Read => SyncOp::Read {
            cell: spot(0),
            to: spot(12),
        },
        Op::Write(value) => SyncOp::Write {
            cell: spot(0),
            value: constant(u64::from(value)),
        },
        Op::Reset => SyncOp::Reset { mutex: spot(0) },
        Op::Lock => SyncOp::Lock { mutex: spot(0) },
        Op::Unlock => SyncOp::Unlock { mutex: spot(0) },
        Op::Park => SyncOp::Park {
            cond: spot(0),
            mutex: spot(0),
        },
        Op::Wake => SyncOp::Wake {
            cond: spot(0),
            mutex: spot(0),
        },
        Op::Signal(woken) => SyncOp::Signal {
            cond: spot(0),
            woken: constant(u64::from(woken)),
        },
        Op::Broadcast => SyncOp::Broadcast { cond: spot(0) },
        Op::Create => SyncOp::Create {
            thread: 2,
            start: 0,
            value: constant(0),
        },
        Op::Join(slot) => SyncOp::Join {
            thread: constant(u64::from(slot)),
        },
        Op::HoldOn => SyncOp::HoldOn,
        Op::HoldOff => SyncOp::HoldOff,
        Op::End(whole) => SyncOp::End { whole },
    }
}

/// Performs an instruction, and keeps the number of words.
#[tactic(auto, using(crate::proofs::SmallLemmas::performs_long))]
fn perform_kept(instr: &Instr, memory: &mut [Value]) -> Result<u32, Halt>
    requires formed { IsFormedInstruction 13 (instruction instr.now) }
    requires long { length memory.old ≡ 13 }
    requires words { All IsWord memory.old }
    ensures long { length memory.new ≡ 13 }
    ensures words { All IsWord memory.new }
{
    perform_instr(instr, 0, memory)
}

/// Runs instructions one after the other: what stopped them, if anything did.
fn run(instrs: &[Instr], memory: &mut [Value]) -> Option<Halt>
    requires formed { AllByRecursion (IsFormedInstruction 13) (map instruction instrs.now) }
    requires long { length memory.old ≡ 13 }
    requires words { All IsWord memory.old }
    ensures long { length memory.new ≡ 13 }
    ensures words { All IsWord memory.new }
{
    match instrs.split_first() {
        None => None,
        Some((first, rest)) => match perform_kept(first, memory) {
            Err(halt) => Some(halt),
            Ok(_) => run(rest, memory),
        },
    }
}

/// What a run came to, as a store says it.
fn acted(halt: Option<Halt>) -> Acted {
    match halt {
        None => Acted::Went,
        Some(Halt::Blocked) => Acted::Blocked,
        Some(Halt::Broke { kind, .. }) => Acted::Broke { kind },
    }
}

/// What the instructions of an operation come to in memory.
fn by_words(alloc: Global, slot: u32, op: Op, memory: &mut [Value]) -> Result<Acted, Memory>
    requires slot { slot < 3 }
    requires long { length memory.old ≡ 13 }
    requires words { All IsWord memory.old }
    ensures long { length memory.new ≡ 13 }
    ensures words { All IsWord memory.new }
{
    let op = sync_op(op);
    let group = expand(alloc, &small(), slot, &op)?;
    Ok(acted(run(group.items(), memory)))
}

/// The number of the thread of a slot once slot 2 alone is made: slot 1 would be the next.
fn number_of(slot: u32) -> u32 {
    match slot {
        0 => 0,
        2 => 1,
        _ => 2,
    }
}

/// The thread that a signal wakes: 0 is nobody, else one more than its slot.
fn woken(number: u32) -> Option<u32> {
    if number == 0 {
        return None;
    }
    Some(number_of(number - 1))
}

/// The action of an operation, where a cell has this value.
fn action(op: Op, value: Value) -> Action
    ensures { IsWithin result }
{
    match op {
        Op::Read => Action::Rd { cell: 0, value },
        Op::Write(value) => Action::Wr {
            cell: 0,
            value: u64::from(value),
        },
        Op::Reset => Action::Reset { mutex: 0 },
        Op::Lock => Action::Lock { mutex: 0 },
        Op::Unlock => Action::Unlock { mutex: 0 },
        Op::Park => Action::Park { cond: 0, mutex: 0 },
        Op::Wake => Action::Wake { cond: 0, mutex: 0 },
        Op::Signal(number) => Action::Signal {
            cond: 0,
            woken: woken(number),
        },
        Op::Broadcast => Action::Broadcast { cond: 0 },
        Op::Create => Action::Create {
            thread: 1,
            start: 0,
            value: 0,
        },
        Op::Join(slot) => Action::Join {
            thread: number_of(slot),
        },
        Op::HoldOn => Action::HoldOn,
        Op::HoldOff => Action::HoldOff,
        Op::End(whole) => Action::End { whole },
    }
}

/// The store of a program with one cell of value 7, one mutex and one condition.
fn begun(alloc: Global) -> Result<Store, Memory> {
    let mut cells = Values::new(alloc);
    cells.push(7)?;
    let scoped = Scoped {
        cells,
        mutexes: 1,
        conds: 1,
        handles: 0,
        functions: ScopedFunctions::new(alloc),
        main: 0,
    };
    Store::new(alloc, &scoped)
}

/// The slot, if it is one of the layout, and else main's.
fn slot_in(slot: u32) -> u32
    ensures { result < 3 }
{
    if slot < 3 { slot } else { 0 }
}

/// Goes through rows from a store and a memory that stands for it: the reason of the first at which one of the two
/// comes to something else.
fn first_wrong<'a>(
    alloc: Global,
    rows: &[Row<'a>],
    store: &mut Store,
    memory: &mut [Value],
) -> Result<Option<&'a str>, Memory>
    requires long { length memory.old ≡ 13 }
    requires words { All IsWord memory.old }
{
    match rows.split_first() {
        None => Ok(None),
        Some(((slot, op, want, why), rest)) => {
            let cell = store.cell(0);
            let by_store = store.act(number_of(*slot), &action(*op, cell));
            let by_words = by_words(alloc, slot_in(*slot), *op, memory)?;
            if by_store != *want || by_words != *want {
                return Ok(Some(why));
            }
            first_wrong(alloc, rest, store, memory)
        }
    }
}

/// The first one from the opening state.
fn wrong<'a>(alloc: Global, rows: &[Row<'a>]) -> Result<Option<&'a str>, Memory> {
    let mut store = begun(alloc)?;
    let mut memory = [7, 0, 0, 0, 1, 0, 0, 0, 0, 0, 0, 0, 0];
    first_wrong(alloc, rows, &mut store, &mut memory)
}

const UNLOCKS: Acted = Acted::Broke {
    kind: BreakKind::Unlock,
};

const WAITS: Acted = Acted::Broke {
    kind: BreakKind::Wait,
};

const JOINS: Acted = Acted::Broke {
    kind: BreakKind::Join,
};

/// Main, and the thread of slot 2, on one mutex, one condition and one cell.
#[test]
fn instructions_come_to_what_actions_do(rt: HostRuntime) -> Result<(), Fail> {
    let rows = [
        (0, Op::Read, Acted::Went, "main reads"),
        (2, Op::Read, Acted::Blocked, "slot 2 is not made"),
        (0, Op::Join(2), JOINS, "nor can it be joined"),
        (0, Op::Join(0), JOINS, "0 is no thread"),
        (0, Op::Create, Acted::Went, "slot 2 is made"),
        (1, Op::Read, Acted::Blocked, "slot 1 is not made"),
        (2, Op::Write(9), Acted::Went, "slot 2 writes"),
        (0, Op::Read, Acted::Went, "main reads what it wrote"),
        (2, Op::Unlock, UNLOCKS, "nobody owns the mutex"),
        (2, Op::Lock, Acted::Went, "it is free"),
        (0, Op::Lock, Acted::Blocked, "slot 2 owns it"),
        (0, Op::Unlock, UNLOCKS, "slot 2 owns it"),
        (0, Op::Park, WAITS, "a wait needs it too"),
        (0, Op::Signal(0), Acted::Went, "nobody waits"),
        (0, Op::Signal(3), Acted::Blocked, "slot 2 does not wait"),
        (2, Op::Park, Acted::Went, "slot 2 waits"),
        (2, Op::Wake, Acted::Blocked, "it was not woken"),
        (0, Op::Lock, Acted::Went, "it gave the mutex up"),
        (
            0,
            Op::Signal(0),
            Acted::Blocked,
            "a signal wakes one that waits",
        ),
        (0, Op::Signal(2), Acted::Blocked, "slot 1 does not wait"),
        (0, Op::Signal(3), Acted::Went, "slot 2 is woken"),
        (2, Op::Wake, Acted::Blocked, "main owns the mutex"),
        (0, Op::Unlock, Acted::Went, "main gives it up"),
        (2, Op::Wake, Acted::Went, "slot 2 takes it"),
        (2, Op::Park, Acted::Went, "it waits again"),
        (0, Op::Broadcast, Acted::Went, "all are woken"),
        (2, Op::Wake, Acted::Went, "slot 2 too"),
        (0, Op::Reset, Acted::Went, "the mutex has no owner"),
        (2, Op::Unlock, UNLOCKS, "also not slot 2"),
        (2, Op::HoldOn, Acted::Went, "an atomic section begins"),
        (0, Op::Read, Acted::Blocked, "main is kept out"),
        (2, Op::Read, Acted::Went, "its holder is not"),
        (0, Op::HoldOff, Acted::Went, "main holds nothing"),
        (0, Op::Read, Acted::Blocked, "so the section goes on"),
        (2, Op::HoldOff, Acted::Went, "it ends"),
        (0, Op::Join(2), Acted::Blocked, "slot 2 runs"),
        (2, Op::HoldOn, Acted::Went, "another section"),
        (2, Op::End(false), Acted::Went, "slot 2 ends in it"),
        (2, Op::Read, Acted::Blocked, "it has ended"),
        (0, Op::Read, Acted::Went, "and holds nothing"),
        (0, Op::Join(2), Acted::Went, "it is joined"),
        (0, Op::Join(2), JOINS, "once"),
        (0, Op::End(true), Acted::Went, "the process ends"),
        (0, Op::Read, Acted::Blocked, "it is over"),
    ];
    let wrong = wrong(rt.alloc(), &rows).ok().ok_or("memory")?;
    assert_eq!(rt; wrong, None);
    Ok(())
}
