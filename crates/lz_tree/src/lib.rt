//! The tokens and trees of a C program, and the definitions of how its bytes are cut and which program
//! they spell.
#![tactic(auto)]

mod expression;
mod measure;
mod program;
mod scoped;
mod statement;
mod token;

pub use expression::{Expr, Exprs, Target, TypeName};
pub use lz_base::{Binary, Unary};
pub use measure::height;
pub use program::{External, Externals, Lead, Param, Params, Program};
pub use scoped::{
    Kinds, KnownName, Object, Scoped, ScopedDeclarator, ScopedDeclarators, ScopedExpr, ScopedExprs,
    ScopedFirst, ScopedFunction, ScopedFunctions, ScopedObjects, ScopedStmt, ScopedStmts,
    ScopedTarget,
};
pub use statement::{Declarator, Declarators, First, Objects, Stmt, Stmts};
pub use token::{Form, Keyword, Names, Punct, Token, TokenKind, TokenList, Tokens};
