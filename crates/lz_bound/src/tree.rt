use lz_base::Sequence;
use lz_tree::{Object, ScopedExpr};

/// Statements in the order of the text.
pub type BoundedStmts = Vec<BoundedStmt>;

/// A statement of a bounded tree, in which nothing is called but known names and nothing repeats. Its expressions are
/// those of the source (C99 6.5), and a target in them may be checked already.
#[derive(Debug, Drop)]
pub enum BoundedStmt {
    /// The value, into the object if one is named: a local of one element.
    Eval {
        value: ScopedExpr,
        to: Option<Object>,
    },
    /// Each element of a local is any input.
    Fresh {
        object: Object,
    },
    /// Each element of a local is 0, each thread object without a thread.
    Clear {
        object: Object,
    },
    /// One after the other.
    Seq {
        parts: BoundedStmts,
    },
    /// The one part, or the other if the value of the test is 0.
    If {
        test: ScopedExpr,
        yes: Box<BoundedStmt>,
        no: Box<BoundedStmt>,
    },
    /// The code that a `Leave` of this number in it leaves.
    Frame {
        number: u32,
        body: Box<BoundedStmt>,
    },
    /// To the end of the innermost frame of this number.
    Leave {
        number: u32,
    },
    /// The end of the thread, and of the process if `whole` is true.
    Exit {
        whole: bool,
    },
    /// Nothing more.
    Stuck,
    /// The index, and the check that it is below the length, which is from 1 to 4,096.
    Inside {
        line: u32,
        index: ScopedExpr,
        len: u32,
    },
}

/// The code of a start routine.
#[derive(Debug, Drop)]
pub struct Routine {
    pub function: u32,
    pub body: BoundedStmt,
}

/// Start routines, no two of one function.
pub type Routines = Sequence<Routine>;

/// The code of `main` and of the start routines.
#[derive(Debug, Drop)]
pub struct Bounded {
    pub main: BoundedStmt,
    pub routines: Routines,
}

/// The code of a thread that a create site makes: the start routine's function, and its code.
#[derive(Debug, Drop)]
pub struct Slot {
    pub function: u32,
    pub body: BoundedStmt,
}

/// Slots in the order of the create sites.
pub type SlotList = Sequence<Slot>;

/// The code of `main` and of each create site's thread.
#[derive(Debug, Drop)]
pub struct Slotted {
    pub main: BoundedStmt,
    pub slots: SlotList,
}
