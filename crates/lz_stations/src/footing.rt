use crate::station::{Flow, Station};
use lz_base::{BreakKind, IntType};
use lz_model::Action;
use lz_turns::Place;

/// Where a statement stands: at a station of its own, or within the expression or the statement behind which it comes
/// to that station.
#[derive(Drop)]
pub enum Footing {
    At {
        station: Station,
    },
    InValue {
        station: Station,
        inner: Place,
    },
    InPart {
        station: Station,
        inner: Box<Footing>,
    },
}

/// The next action of a statement, or the call that comes next: behind it a value is given, which is 0 where nothing
/// else is said.
#[derive(Drop)]
pub enum Pause {
    Acts {
        action: Action,
        line: u32,
    },
    /// A read of a cell, whose value is given then.
    Reads {
        cell: u32,
        line: u32,
    },
    /// An input, whose value is given then.
    Asks {
        line: u32,
        kind: IntType,
    },
    /// A signal, which wakes somebody or nobody.
    Signals {
        cond: u32,
        line: u32,
    },
    /// A creation, whose thread's number is given then.
    Creates {
        start: u32,
        value: u32,
        line: u32,
    },
    /// A call of a function with these arguments, whose value is given then.
    Calls {
        function: u32,
        kinds: Vec<IntType>,
        values: Vec<u32>,
    },
}

/// How far a statement came.
#[derive(Drop)]
pub enum Reached {
    /// It led on so.
    Leads { flow: Flow },
    /// It pauses, and stands here behind that.
    Pauses { pause: Pause, footing: Footing },
    /// A check of 0, behind which nothing comes.
    Fails { kind: BreakKind, line: u32 },
    /// An assumption of 0, behind which nothing comes.
    Refuses { line: u32 },
    /// The end of the thread.
    Exits,
    /// Nothing more.
    Stops,
}
