//! First actions on the shared state, by lz_store.

ghost use Rattle.std.specs.Prelude.{IsTrue};
ghost use Rattle.lz_store.specs.Answers.{IsWithin};

use lz_base::{BreakKind, Memory, Values};
use lz_model::Action;
use lz_store::{Acted, Store};
use lz_tree::{Scoped, ScopedFunctions};
use std::alloc::Global;
use std::process::Abort;
use std::test::Fail;

/// The store of a program with one cell of value 5 and one mutex.
fn begun(alloc: Global) -> Result<Store, Memory> {
    let mut cells = Values::new(alloc);
    cells.push(5)?;
    let scoped = Scoped {
        cells,
        mutexes: 1,
        conds: 1,
        handles: 0,
        functions: ScopedFunctions::new(alloc),
        main: 0,
    };
    Store::new(alloc, &scoped)
}

/// Whether the action creates no thread past the last.
fn fits(action: &Action) -> bool
    ensures { IsTrue result → IsWithin action.now }
{
    match *action {
        Action::Create { thread, .. } => thread <= 16,
        _ => true,
    }
}

/// What the first action comes to.
fn first_answer(store: &mut Store, thread: u32, action: &Action) -> Option<Acted> {
    if fits(action) {
        Some(store.act(thread, action))
    } else {
        None
    }
}

/// A thread, its action, what comes of it, and the reason of the row.
type Row<'a> = (u32, Action, Acted, &'a str);

/// Takes each row's action from the state in which the process begins.
fn actions_agree(rt: &impl Abort, alloc: Global, rows: &[Row<'_>]) -> Result<(), Fail> {
    for (thread, action, want, reason) in rows {
        let mut store = begun(alloc).ok().ok_or("memory")?;
        assert!(rt; store.cell(0) == 5, "{reason}");
        let got = first_answer(&mut store, *thread, action);
        assert!(rt; got == Some(*want), "{reason}");
    }
    Ok(())
}

/// What comes of one action from the state in which the process begins.
#[test]
fn first_actions(rt: HostRuntime) -> Result<(), Fail> {
    let table: [Row<'_>; 13] = [
        (
            0,
            Action::Rd { cell: 0, value: 5 },
            Acted::Went,
            "a read finds the value of the cell",
        ),
        (
            0,
            Action::Rd { cell: 0, value: 4 },
            Acted::Blocked,
            "and no other",
        ),
        (
            0,
            Action::Rd { cell: 1, value: 0 },
            Acted::Went,
            "a cell that is not there is read as 0",
        ),
        (0, Action::Lock { mutex: 0 }, Acted::Went, "it is free"),
        (
            0,
            Action::Unlock { mutex: 0 },
            Acted::Broke {
                kind: BreakKind::Unlock,
            },
            "an unlock by a thread that does not own it",
        ),
        (
            0,
            Action::Park { cond: 0, mutex: 0 },
            Acted::Broke {
                kind: BreakKind::Wait,
            },
            "so is a wait with it",
        ),
        (
            0,
            Action::Signal {
                cond: 0,
                woken: None,
            },
            Acted::Went,
            "a signal with no waiter is lost",
        ),
        (
            0,
            Action::Signal {
                cond: 0,
                woken: Some(0),
            },
            Acted::Blocked,
            "a thread that does not wait can't be woken",
        ),
        (
            0,
            Action::Create {
                thread: 1,
                start: 0,
                value: 0,
            },
            Acted::Went,
            "the next thread",
        ),
        (
            0,
            Action::Create {
                thread: 2,
                start: 0,
                value: 0,
            },
            Acted::Blocked,
            "numbers follow each other",
        ),
        (1, Action::Loc, Acted::Blocked, "thread 1 is not made"),
        (
            0,
            Action::Join { thread: 1 },
            Acted::Broke {
                kind: BreakKind::Join,
            },
            "no thread to join",
        ),
        (0, Action::Assume { value: 0 }, Acted::Blocked, "it fails"),
    ];
    actions_agree(&rt, rt.alloc(), &table)
}
