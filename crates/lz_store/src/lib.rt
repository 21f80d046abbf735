//! The shared state of a program's threads, and what an action does to it.
#![tactic(auto)]

mod parts;
mod store;

pub use store::{Acted, Store};
