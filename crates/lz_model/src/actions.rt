use lz_base::{BreakKind, Value};

/// One atomic step of one thread on the shared state. Cells, mutexes, conditions, threads and functions go by
/// their numbers; thread 0 runs `main`, and the others are numbered in order of creation.
#[derive(Clone, Copy, Debug, PartialEq, Eq)]
pub enum Action {
    /// A read or write of a local, or a test at which code branches.
    Loc,
    /// An input, which may have any value of its type.
    Input {
        value: Value,
    },
    /// A check of a value: where it is 0, the check of that kind breaks.
    Check {
        value: Value,
        kind: BreakKind,
    },
    /// An assumption: where the value is 0, the thread is blocked.
    Assume {
        value: Value,
    },
    /// A read of a cell that finds this value.
    Rd {
        cell: u32,
        value: Value,
    },
    /// A write of a cell.
    Wr {
        cell: u32,
        value: Value,
    },
    /// `pthread_mutex_init`: the mutex has no owner.
    Reset {
        mutex: u32,
    },
    /// `pthread_mutex_lock`.
    Lock {
        mutex: u32,
    },
    /// `pthread_mutex_unlock`.
    Unlock {
        mutex: u32,
    },
    /// The first half of `pthread_cond_wait`: the mutex is given up, and the thread waits.
    Park {
        cond: u32,
        mutex: u32,
    },
    /// The second half of `pthread_cond_wait`: the thread was woken, and takes the mutex again.
    Wake {
        cond: u32,
        mutex: u32,
    },
    /// `pthread_cond_signal`, with the thread that it wakes, if any waits.
    Signal {
        cond: u32,
        woken: Option<u32>,
    },
    /// `pthread_cond_broadcast`.
    Broadcast {
        cond: u32,
    },
    /// `pthread_create`: the new thread's number, the routine that it runs and its argument.
    Create {
        thread: u32,
        start: u32,
        value: Value,
    },
    /// `pthread_join`.
    Join {
        thread: u32,
    },
    /// `__VERIFIER_atomic_begin`: from here on the other threads can't touch what is shared.
    HoldOn,
    /// `__VERIFIER_atomic_end`.
    HoldOff,
    /// The end of the thread, and of the whole process where `whole` is true.
    End {
        whole: bool,
    },
}

/// An action of a thread, with the line that it comes from.
#[derive(Clone, Copy, Debug, PartialEq, Eq)]
pub struct Event {
    pub thread: u32,
    pub action: Action,
    pub line: u32,
}
