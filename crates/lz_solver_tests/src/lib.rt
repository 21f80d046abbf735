//! Tests of the crates of the solver, and nothing else. They stand above the crates that they test, so that no crate is
//! proved twice for them.
#![tactic(auto)]

#[cfg(test)]
mod logs;
#[cfg(test)]
mod models;
#[cfg(test)]
mod propagation;
#[cfg(test)]
mod search;
