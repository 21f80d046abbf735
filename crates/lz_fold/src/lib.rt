//! Nodes folded: what is constant is computed, what a node comes to already is not made again, and what the check does
//! not rest on is left out.
#![tactic(auto)]

mod cone;
mod rules;
mod tables;
mod up;
mod whole;

pub use whole::fold;
