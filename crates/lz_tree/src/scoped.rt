use crate::expression::TypeName;
use crate::token::Form;
use lz_base::{Binary, IntType, Sequence, Unary, Values};

/// A name with a meaning of its own: of the checker, of C99 7.2, 7.19 and 7.20, or of POSIX threads.
#[derive(Clone, Copy, Debug, PartialEq, Eq)]
pub enum KnownName {
    /// `assert(e)` (C99 7.2.1.1)
    Assert,
    /// `__VERIFIER_assume(e)`
    Assume,
    /// `__VERIFIER_nondet_int()`
    NondetInt,
    /// `__VERIFIER_nondet_uint()`
    NondetUint,
    /// `__VERIFIER_error()`
    Error,
    /// `reach_error()`
    ReachError,
    /// `abort()` (C99 7.20.4.1)
    Abort,
    /// `__VERIFIER_atomic_begin()`
    AtomicBegin,
    /// `__VERIFIER_atomic_end()`
    AtomicEnd,
    /// `pthread_create(&t, 0, f, v)`
    Create,
    /// `pthread_join(t, 0)`
    Join,
    /// `pthread_exit(v)`
    Exit,
    /// `pthread_mutex_init(&m, 0)`
    MutexInit,
    /// `pthread_mutex_destroy(&m)`
    MutexDestroy,
    /// `pthread_mutex_lock(&m)`
    MutexLock,
    /// `pthread_mutex_unlock(&m)`
    MutexUnlock,
    /// `pthread_cond_init(&c, 0)`
    CondInit,
    /// `pthread_cond_destroy(&c)`
    CondDestroy,
    /// `pthread_cond_wait(&c, &m)`
    CondWait,
    /// `pthread_cond_signal(&c)`
    CondSignal,
    /// `pthread_cond_broadcast(&c)`
    CondBroadcast,
    /// `printf(text, ..)` (C99 7.19.6.3)
    Printf,
}

/// What a name means. Cells, mutexes, conditions, thread objects and functions are numbered from 0 in order of
/// text over the whole file, the locals of a function from 0 within it, its parameters first. An object has the
/// number of its first element and its length, which is 1 where it is no array.
#[derive(Clone, Copy, Debug, PartialEq, Eq)]
pub enum Object {
    /// An integer that a function declares.
    Local { first: u32, len: u32, kind: IntType },
    /// An integer at file scope.
    Cell { first: u32, len: u32, kind: IntType },
    /// A `pthread_mutex_t`.
    Mutex { first: u32, len: u32 },
    /// A `pthread_cond_t`.
    Cond { first: u32, len: u32 },
    /// A `pthread_t`.
    Handle { first: u32, len: u32 },
    /// A function of the file.
    Routine { function: u32 },
    /// A name that the file need not define.
    Known { name: KnownName },
}

/// Expressions in the order of the text.
pub type ScopedExprs = Vec<ScopedExpr>;

/// An object, or an element of it (C99 6.5.1, 6.5.2.1). Where `checked` is true its index has been tested before:
/// nothing checks it here. In a program as it was read `checked` is false.
#[cycle(scoped_expr)]
#[derive(Debug, Drop)]
pub struct ScopedTarget {
    pub line: u32,
    pub object: Object,
    pub index: Option<Box<ScopedExpr>>,
    pub checked: bool,
}

/// An expression in which each name is what it means (C99 6.5). Each line is that of the first token of its node.
/// The kind is that of its value, and none where it has no value; a `void *` has the widest unsigned kind.
#[cycle(scoped_expr)]
#[derive(Debug, Drop)]
pub enum ScopedExpr {
    /// A constant (C99 6.4.4).
    Constant {
        line: u32,
        value: u64,
        form: Form,
        kind: Option<IntType>,
    },
    /// `NULL` (C99 7.17).
    Null {
        line: u32,
        kind: Option<IntType>,
    },
    /// A text (C99 6.4.5).
    Text {
        line: u32,
        kind: Option<IntType>,
    },
    /// A read of an object (C99 6.5.1), or an object or function that a known name is given.
    Object {
        target: ScopedTarget,
        kind: Option<IntType>,
    },
    /// `& target` (C99 6.5.3.2).
    Address {
        line: u32,
        target: ScopedTarget,
        kind: Option<IntType>,
    },
    /// `( inner )` (C99 6.5.1).
    Paren {
        line: u32,
        inner: Box<ScopedExpr>,
        kind: Option<IntType>,
    },
    /// A unary operator (C99 6.5.3.3).
    Unary {
        line: u32,
        op: Unary,
        of: Box<ScopedExpr>,
        kind: Option<IntType>,
    },
    /// `( to ) of` (C99 6.5.4).
    Cast {
        line: u32,
        to: TypeName,
        of: Box<ScopedExpr>,
        kind: Option<IntType>,
    },
    /// A binary operator (C99 6.5.5 to 6.5.14).
    Binary {
        line: u32,
        op: Binary,
        left: Box<ScopedExpr>,
        right: Box<ScopedExpr>,
        kind: Option<IntType>,
    },
    /// `test ? yes : no` (C99 6.5.15).
    Choose {
        line: u32,
        test: Box<ScopedExpr>,
        yes: Box<ScopedExpr>,
        no: Box<ScopedExpr>,
        kind: Option<IntType>,
    },
    /// `target = value`, or with an operator before the `=` (C99 6.5.16).
    Assign {
        line: u32,
        op: Option<Binary>,
        target: ScopedTarget,
        value: Box<ScopedExpr>,
        kind: Option<IntType>,
    },
    /// `++` or `--` (C99 6.5.2.4, 6.5.3.1): `up` is true of `++`, `before` where it stands before the target.
    Step {
        line: u32,
        target: ScopedTarget,
        up: bool,
        before: bool,
        kind: Option<IntType>,
    },
    /// `callee ( args )` (C99 6.5.2.2), where the callee is a function of the file or a known name.
    Call {
        line: u32,
        callee: Object,
        args: ScopedExprs,
        kind: Option<IntType>,
    },
}

/// Statements in the order of the text.
pub type ScopedStmts = Vec<ScopedStmt>;

/// A statement (C99 6.8), or a declaration in its place (C99 6.7), in which each name but a label's is what it
/// means. Each line is that of the first token.
#[derive(Debug, Drop)]
pub enum ScopedStmt {
    /// `;` (C99 6.8.3).
    Empty,
    /// `value ;` (C99 6.8.3).
    Eval {
        value: ScopedExpr,
    },
    /// `{ parts }` (C99 6.8.2).
    Block {
        parts: ScopedStmts,
    },
    /// A declaration of objects (C99 6.7).
    Declare {
        of: ScopedObjects,
    },
    /// `if ( test ) yes`, and `else no` (C99 6.8.4.1).
    If {
        line: u32,
        test: ScopedExpr,
        yes: Box<ScopedStmt>,
        no: Option<Box<ScopedStmt>>,
    },
    /// `while ( test ) body` (C99 6.8.5.1).
    While {
        line: u32,
        test: ScopedExpr,
        body: Box<ScopedStmt>,
    },
    /// `do body while ( test ) ;` (C99 6.8.5.2).
    Do {
        line: u32,
        body: Box<ScopedStmt>,
        test: ScopedExpr,
    },
    /// `for ( first test ; step ) body` (C99 6.8.5.3); `first` is empty, an expression or a declaration.
    For {
        line: u32,
        first: Box<ScopedStmt>,
        test: Option<ScopedExpr>,
        step: Option<ScopedExpr>,
        body: Box<ScopedStmt>,
    },
    /// `break ;` (C99 6.8.6.3).
    Break {
        line: u32,
    },
    /// `continue ;` (C99 6.8.6.2).
    Continue {
        line: u32,
    },
    /// `return ;` or `return value ;` (C99 6.8.6.4).
    Return {
        line: u32,
        value: Option<ScopedExpr>,
    },
    /// `name : of` (C99 6.8.1).
    Label {
        name: u32,
        of: Box<ScopedStmt>,
    },
}

/// A declaration of objects (C99 6.7).
#[derive(Debug, Drop)]
pub struct ScopedObjects {
    pub line: u32,
    pub declarators: ScopedDeclarators,
}

/// Declarators in the order of the text.
pub type ScopedDeclarators = Sequence<ScopedDeclarator>;

/// One declared object, with the expression of its length where it is an array, and its initializer (C99 6.7.5,
/// 6.7.8).
#[derive(Debug, Drop)]
pub struct ScopedDeclarator {
    pub line: u32,
    pub object: Object,
    pub length: Option<ScopedExpr>,
    pub first: ScopedFirst,
}

/// The initializer of an object of a function (C99 6.7.8).
#[derive(Debug, Drop)]
pub enum ScopedFirst {
    Nothing,
    /// `= value`
    Value { value: ScopedExpr },
    /// `= { values }`
    Listed { values: ScopedExprs },
}

/// Kinds of integers, as those of parameters.
pub type Kinds = Sequence<IntType>;

/// A function of the file (C99 6.9.1): whether it is of the form `void *f(void *a)`, the number of its locals,
/// the kinds of its parameters, that of its result, and its body.
#[derive(Debug, Drop)]
pub struct ScopedFunction {
    pub start: bool,
    pub locals: u32,
    pub params: Kinds,
    pub gives: Option<IntType>,
    pub body: ScopedStmt,
}

/// Functions in the order of the text.
pub type ScopedFunctions = Sequence<ScopedFunction>;

/// A program in which each name but a label's is replaced by what it means: the first value of each cell, the
/// numbers of mutexes, conditions and thread objects, the functions, and the number of `main`.
#[derive(Debug, Drop)]
pub struct Scoped {
    pub cells: Values,
    pub mutexes: u32,
    pub conds: u32,
    pub handles: u32,
    pub functions: ScopedFunctions,
    pub main: u32,
}
