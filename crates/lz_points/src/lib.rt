//! Fewer visible places: marks are taken from instructions of flat threads before which no other thread needs to
//! run.
#![tactic(auto)]

mod claim;
mod owned;
mod thin;
mod visible;

pub use visible::mark;
