//! Synchronisation as cells: which memory stands for which shared state, and the instructions of each action.
#![tactic(auto)]

mod expansion;
mod groups;
mod laws;
mod layout;
mod operation;
mod words;

pub use expansion::expand;
pub use groups::Instrs;
pub use laws::{groups_do, memory_for_each, one_pair};
pub use layout::Layout;
pub use operation::SyncOp;
