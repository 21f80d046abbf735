use crate::token::Form;
use lz_base::{Binary, Unary};

/// A type by its spelling (C99 6.7.2): one variant for each row of words.
#[derive(Clone, Copy, Debug, PartialEq, Eq)]
pub enum TypeName {
    Int,
    Signed,
    SignedInt,
    Unsigned,
    UnsignedInt,
    /// `_Bool`
    Bool,
    Char,
    SignedChar,
    UnsignedChar,
    Short,
    ShortInt,
    UnsignedShort,
    UnsignedShortInt,
    Long,
    LongInt,
    UnsignedLong,
    UnsignedLongInt,
    LongLong,
    LongLongInt,
    UnsignedLongLong,
    UnsignedLongLongInt,
    Void,
    /// `void *`
    VoidPointer,
    /// `pthread_t`
    Thread,
    /// `pthread_mutex_t`
    Mutex,
    /// `pthread_cond_t`
    Cond,
}

/// Expressions in the order of the text.
pub type Exprs = Vec<Expr>;

/// An object by its name, or an element of it (C99 6.5.1, 6.5.2.1).
#[cycle(expr)]
#[derive(Debug, Drop)]
pub struct Target {
    pub line: u32,
    pub name: u32,
    pub index: Option<Box<Expr>>,
}

/// An expression (C99 6.5). Each line is that of the first token of its node, counted from 1.
#[cycle(expr)]
#[derive(Debug, Drop)]
pub enum Expr {
    /// A constant (C99 6.4.4).
    Constant {
        line: u32,
        value: u64,
        form: Form,
    },
    /// `NULL` (C99 7.17).
    Null {
        line: u32,
    },
    /// A text (C99 6.4.5).
    Text {
        line: u32,
    },
    /// A read of an object (C99 6.5.1).
    Object {
        target: Target,
    },
    /// `& target` (C99 6.5.3.2).
    Address {
        line: u32,
        target: Target,
    },
    /// `( inner )` (C99 6.5.1).
    Paren {
        line: u32,
        inner: Box<Expr>,
    },
    /// A unary operator (C99 6.5.3.3).
    Unary {
        line: u32,
        op: Unary,
        of: Box<Expr>,
    },
    /// `( to ) of` (C99 6.5.4).
    Cast {
        line: u32,
        to: TypeName,
        of: Box<Expr>,
    },
    /// A binary operator (C99 6.5.5 to 6.5.14).
    Binary {
        line: u32,
        op: Binary,
        left: Box<Expr>,
        right: Box<Expr>,
    },
    /// `test ? yes : no` (C99 6.5.15).
    Choose {
        line: u32,
        test: Box<Expr>,
        yes: Box<Expr>,
        no: Box<Expr>,
    },
    /// `target = value`, or with an operator before the `=` (C99 6.5.16).
    Assign {
        line: u32,
        op: Option<Binary>,
        target: Target,
        value: Box<Expr>,
    },
    /// `++` or `--` (C99 6.5.2.4, 6.5.3.1): `up` is true of `++`, `before` where it stands before the target.
    Step {
        line: u32,
        target: Target,
        up: bool,
        before: bool,
    },
    /// `name ( args )` (C99 6.5.2.2).
    Call {
        line: u32,
        name: u32,
        args: Exprs,
    },
}
