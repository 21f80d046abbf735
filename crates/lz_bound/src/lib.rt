//! Bounded trees: the code of a thread without calls and loops, and what it may do.
#![tactic(auto)]

mod laws;
mod measure;
mod tree;

pub use laws::{front_of_a_run, front_of_a_tree};
pub use measure::size;
pub use tree::{Bounded, BoundedStmt, BoundedStmts, Routine, Routines, Slot, SlotList, Slotted};
