use lz_base::{Binary, IntType, Sequence, Unary, Value};

/// A node: a word that is the value of an operator at inputs and at the words of earlier nodes, which are
/// named by their numbers.
#[derive(Clone, Copy, Debug, PartialEq, Eq, Hash)]
pub enum Node {
    /// A fixed word.
    Constant {
        value: Value,
    },
    /// The input of a number.
    Input {
        number: u32,
        kind: IntType,
    },
    /// A unary operator at an operand of the kind `kind`.
    Unary {
        op: Unary,
        kind: IntType,
        of: u32,
    },
    /// A binary operator at operands of the kind `kind`.
    Binary {
        op: Binary,
        kind: IntType,
        left: u32,
        right: u32,
    },
    /// A word of one kind as a word of another.
    Convert {
        from: IntType,
        to: IntType,
        of: u32,
    },
    /// The word of `yes` where that of `test` is not 0, and else that of `no`.
    Choose {
        test: u32,
        yes: u32,
        no: u32,
    },
}

/// Nodes in order: each names earlier ones alone.
pub type NodeList = Sequence<Node>;

/// A straight program in static single assignment: its nodes, how many inputs it has, and the node that is
/// not 0 exactly where it fails.
#[derive(Debug, Drop)]
pub struct Nodes {
    pub list: NodeList,
    pub inputs: u32,
    pub fails: u32,
}
