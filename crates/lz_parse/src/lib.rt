//! Whole programs read from tokens, exactly: the well-formed program that the tokens spell, or the first token with
//! which none goes on (C99 6.9).
#![tactic(auto)]

mod external;
mod heading;
mod names;
mod program;

pub use lz_expr::ParseError;
pub use program::{one_program, parse};
