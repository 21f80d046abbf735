//! Lowering: the code of a slotted program as flat threads with one shared access a step.
#![tactic(auto)]

mod laws;

pub use laws::deeds_do;
