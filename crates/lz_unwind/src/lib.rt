//! Inlining and unwinding: the code of each thread as one tree, without a call and without a loop.
#![tactic(auto)]

mod laws;
mod moved;
mod shifting;

pub use laws::{same_sites, same_traces};
pub use moved::has_call;
pub use shifting::shift;
