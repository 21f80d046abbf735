//! The programs that seeds generate.
#![tactic(auto)]

mod generated;

pub use generated::{blocks, generate, workers};

#[cfg(test)]
mod tests;
