//! The search for a model: propagate, decide, learn, go back.
#![tactic(auto)]

mod choice;
mod counts;
mod order;
mod search;

pub use counts::Counts;
pub use search::{Solved, solve, solve_counted};
