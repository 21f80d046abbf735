use lz_base::{Binary, BreakKind, IntType, Sequence, Unary, Value, Values};

/// An expression over a memory of words. It has no effect.
#[derive(Debug, Drop)]
pub enum FlatExpr {
    /// A fixed word.
    Constant {
        value: Value,
    },
    /// The word at a place of the memory.
    Word {
        place: u32,
    },
    /// The word numbered by an index among `len` words that begin at `first`, or 0 where the index is
    /// `len` or more.
    Element {
        first: u32,
        len: u32,
        index: Box<FlatExpr>,
    },
    /// A unary operator at an operand of the kind `kind` (C99 6.5.3.3).
    Unary {
        op: Unary,
        kind: IntType,
        of: Box<FlatExpr>,
    },
    /// A binary operator at operands of the kind `kind` (C99 6.5.5 to 6.5.14).
    Binary {
        op: Binary,
        kind: IntType,
        left: Box<FlatExpr>,
        right: Box<FlatExpr>,
    },
    /// A word of one kind as a word of another (C99 6.3.1.3).
    Convert {
        from: IntType,
        to: IntType,
        of: Box<FlatExpr>,
    },
    /// The value of `yes` where `test` is not 0, and else that of `no` (C99 6.5.15).
    Choose {
        test: Box<FlatExpr>,
        yes: Box<FlatExpr>,
        no: Box<FlatExpr>,
    },
}

/// What an instruction writes to: the word numbered by an index among `len` words that begin at `first`.
/// With an index of `len` or more a write does nothing.
#[derive(Debug, Drop)]
pub struct Spot {
    pub first: u32,
    pub len: u32,
    pub index: FlatExpr,
}

/// An instruction.
#[derive(Debug, Drop)]
pub enum Instr {
    /// Writes the value of an expression.
    Set {
        to: Spot,
        value: FlatExpr,
    },
    /// Writes an input.
    Input {
        to: Spot,
    },
    /// Is blocked where the test is 0.
    Assume {
        test: FlatExpr,
    },
    /// Breaks where the test is 0. The line is that of the check in the source, counted from 1.
    Check {
        test: FlatExpr,
        kind: BreakKind,
        line: u32,
    },
    /// Goes `by` instructions on where the test is not 0, and else to the next one.
    Skip {
        test: FlatExpr,
        by: u32,
    },
}

/// An instruction of a flat program, and whether a step may end before it.
#[derive(Debug, Drop)]
pub struct Marked {
    pub instr: Instr,
    pub visible: bool,
}

/// The instructions of one thread, first to last.
pub type FlatThread = Sequence<Marked>;

/// The threads of a flat program.
pub type FlatThreads = Sequence<FlatThread>;

/// A flat program: threads whose instructions go forward alone, over one memory whose first values are
/// `first`.
#[derive(Debug, Drop)]
pub struct Flat {
    pub threads: FlatThreads,
    pub first: Values,
}

/// A statement of a straight program: an instruction that does nothing where its guard is 0.
#[derive(Debug, Drop)]
pub struct Guarded {
    pub guard: FlatExpr,
    pub instr: Instr,
}

/// Statements, first to last.
pub type GuardedList = Sequence<Guarded>;

/// A straight program: statements that run one after the other, over a memory whose first values are
/// `first`.
#[derive(Debug, Drop)]
pub struct Straight {
    pub list: GuardedList,
    pub first: Values,
}
