use lz_flat::{FlatExpr, Spot};

/// An action on what threads share, with expressions in place of numbers.
#[derive(Debug, Drop)]
pub enum SyncOp {
    Read {
        cell: Spot,
        to: Spot,
    },
    Write {
        cell: Spot,
        value: FlatExpr,
    },
    Reset {
        mutex: Spot,
    },
    Lock {
        mutex: Spot,
    },
    Unlock {
        mutex: Spot,
    },
    Park {
        cond: Spot,
        mutex: Spot,
    },
    Wake {
        cond: Spot,
        mutex: Spot,
    },
    Signal {
        cond: Spot,
        woken: FlatExpr,
    },
    Broadcast {
        cond: Spot,
    },
    Create {
        thread: u32,
        start: u32,
        value: FlatExpr,
    },
    Join {
        thread: FlatExpr,
    },
    HoldOn,
    HoldOff,
    End {
        whole: bool,
    },
}
