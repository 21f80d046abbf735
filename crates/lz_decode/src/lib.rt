//! From a model of the clauses to a schedule: the inputs that the model tells.
#![tactic(auto)]

mod inputs;

pub use inputs::read_input;
