//! From nodes to a formula whose models are the inputs on which the node `fails` is not 0.
#![tactic(auto)]

mod constant;
mod formula;
mod input;
mod node;

pub use formula::{Blasted, blast};
pub use input::BitsList;
