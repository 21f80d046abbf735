//! The program in which each name is replaced by what it means (C99 6.2.1, 6.7.8 and 6.9).
#![tactic(auto)]

mod cells;
mod declarations;
mod expressions;
mod functions;
mod program;
mod statements;

pub use program::resolve;
