use crate::expression::{Expr, Exprs, TypeName};
use lz_base::Sequence;

/// Statements in the order of the text.
pub type Stmts = Vec<Stmt>;

/// A statement (C99 6.8), or a declaration in its place (C99 6.7). Each line is that of the first token.
#[derive(Debug, Drop)]
pub enum Stmt {
    /// `;` (C99 6.8.3).
    Empty,
    /// `value ;` (C99 6.8.3).
    Eval {
        value: Expr,
    },
    /// `{ parts }` (C99 6.8.2).
    Block {
        parts: Stmts,
    },
    /// A declaration of objects (C99 6.7).
    Declare {
        of: Objects,
    },
    /// `if ( test ) yes`, and `else no` (C99 6.8.4.1).
    If {
        line: u32,
        test: Expr,
        yes: Box<Stmt>,
        no: Option<Box<Stmt>>,
    },
    /// `while ( test ) body` (C99 6.8.5.1).
    While {
        line: u32,
        test: Expr,
        body: Box<Stmt>,
    },
    /// `do body while ( test ) ;` (C99 6.8.5.2).
    Do {
        line: u32,
        body: Box<Stmt>,
        test: Expr,
    },
    /// `for ( first test ; step ) body` (C99 6.8.5.3); `first` is empty, an expression or a declaration.
    For {
        line: u32,
        first: Box<Stmt>,
        test: Option<Expr>,
        step: Option<Expr>,
        body: Box<Stmt>,
    },
    /// `break ;` (C99 6.8.6.3).
    Break {
        line: u32,
    },
    /// `continue ;` (C99 6.8.6.2).
    Continue {
        line: u32,
    },
    /// `return ;` or `return value ;` (C99 6.8.6.4).
    Return {
        line: u32,
        value: Option<Expr>,
    },
    /// `name : of` (C99 6.8.1).
    Label {
        name: u32,
        of: Box<Stmt>,
    },
}

/// A declaration of objects of one type (C99 6.7).
#[derive(Debug, Drop)]
pub struct Objects {
    pub line: u32,
    pub base: TypeName,
    pub declarators: Declarators,
}

/// Declarators in the order of the text.
pub type Declarators = Sequence<Declarator>;

/// One declared object, with its length where it is an array, and its initializer (C99 6.7.5, 6.7.8).
#[derive(Debug, Drop)]
pub struct Declarator {
    pub line: u32,
    pub name: u32,
    pub length: Option<Expr>,
    pub first: First,
}

/// The initializer of an object (C99 6.7.8).
#[derive(Debug, Drop)]
pub enum First {
    Nothing,
    /// `= value`
    Value { value: Expr },
    /// `= { values }`, where `comma` says that a comma stands behind the last value.
    Listed { values: Exprs, comma: bool },
    /// `= PTHREAD_MUTEX_INITIALIZER`
    Mutex,
    /// `= PTHREAD_COND_INITIALIZER`
    Cond,
}
