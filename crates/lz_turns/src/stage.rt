use lz_base::{BreakKind, IntType};
use lz_model::Action;

/// The local values of the function that runs, and the thread objects. What is behind the last of a list is 0.
#[derive(Drop)]
pub struct Locals {
    pub frame: Vec<u32>,
    pub handles: Vec<u32>,
}

/// Where one node of an expression stands. An element is the number of a cell, a local or a thread object.
#[derive(Drop)]
pub enum Stage {
    /// Before its first action.
    Start,
    /// It has the value that is given.
    Given,
    /// It has this value.
    Settled {
        value: u32,
    },
    /// Behind its index.
    Indexed,
    /// Before the read of this element.
    Ready {
        element: u32,
    },
    /// Behind the read of this element.
    Old {
        element: u32,
    },
    /// Behind the value that is to be written at this index.
    Valued {
        at: u32,
    },
    /// Before the write of this value.
    Writing {
        element: u32,
        value: u32,
    },
    /// Behind the operand of an assignment with an operator.
    Operand {
        element: u32,
        old: u32,
    },
    /// Behind its first operand.
    First,
    /// Behind its second operand.
    Second {
        a: u32,
    },
    /// Behind the branch of a test that holds.
    Taken,
    /// Behind the branch of a test that does not.
    Other,
    /// Before an argument of a function, behind others with these values.
    Calling {
        values: Vec<u32>,
    },
    /// Behind that argument.
    Argument {
        values: Vec<u32>,
    },
    /// Before argument `at` of a known name, which may be an object, behind others with these numbers.
    Passing {
        objects: Vec<u32>,
        at: usize,
    },
    /// Behind the index of that object.
    Handed {
        objects: Vec<u32>,
        at: usize,
    },
    /// Before argument `at`, which may be a value, behind others with these values.
    Arguing {
        objects: Vec<u32>,
        values: Vec<u32>,
        at: usize,
    },
    /// Behind that argument.
    Argued {
        objects: Vec<u32>,
        values: Vec<u32>,
        at: usize,
    },
    /// A wait, behind its first half.
    Woken {
        cond: u32,
        mutex: u32,
    },
    /// A creation, whose thread's number is given and is to be kept in this thread object.
    Made {
        handle: u32,
    },
}

/// Where an expression stands: at a stage of its own, or within the part behind which it comes to that stage.
#[derive(Drop)]
pub enum Place {
    At { stage: Stage },
    Within { stage: Stage, inner: Box<Place> },
}

/// How far an expression came, and where it stands behind the next action.
#[derive(Drop)]
pub enum Came {
    /// It has this value.
    Done {
        value: u32,
    },
    Acts {
        action: Action,
        line: u32,
        place: Place,
    },
    /// A read of a cell, whose value is given then.
    Reads {
        cell: u32,
        line: u32,
        place: Place,
    },
    /// An input, whose value is given then.
    Asks {
        line: u32,
        kind: IntType,
        place: Place,
    },
    /// A signal, which wakes somebody or nobody.
    Signals {
        cond: u32,
        line: u32,
        place: Place,
    },
    /// A creation, whose thread's number is given then.
    Creates {
        start: u32,
        value: u32,
        line: u32,
        place: Place,
    },
    /// A call of a function with these arguments, whose value is given then.
    Calls {
        function: u32,
        kinds: Vec<IntType>,
        values: Vec<u32>,
        place: Place,
    },
    /// A check of 0, behind which nothing comes.
    Fails {
        kind: BreakKind,
        line: u32,
    },
    /// An assumption of 0, behind which nothing comes.
    Refuses {
        line: u32,
    },
    /// The end of the thread.
    Exits,
    /// Nothing more.
    Stops,
}

/// What one node does at a stage.
#[derive(Drop)]
pub enum Move {
    /// It enters a part, behind which it is at this stage, with the part's value.
    Enters { stage: Stage },
    /// It comes to this stage by no action.
    Goes { stage: Stage, value: u32 },
    Comes { came: Came },
}
