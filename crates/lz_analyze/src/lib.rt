//! Learning from a conflict: the clause at the first unique implication point, with its hints.
#![tactic(auto)]

mod analysis;
mod finder;
mod marks;
mod shorter;
mod walk;

pub use analysis::{Learnt, Scratch, learn, learn_with};
