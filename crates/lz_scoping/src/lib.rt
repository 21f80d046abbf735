//! A program that breaks no rule is well scoped: what later layers may take for granted of the tree that a check answers.
#![tactic(auto)]

mod laws;

pub use laws::checked_is_well_scoped;
