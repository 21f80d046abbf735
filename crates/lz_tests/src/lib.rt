//! Tests of the command on files and the tests that cross crates; `lz_replay_tests` has those of mode replay. They stand
//! above the crates that they test, so that no crate is proved twice for them.
#![tactic(auto)]

#[cfg(test)]
mod bounds;
#[cfg(test)]
mod command;
#[cfg(test)]
mod lazy;
#[cfg(test)]
mod rules;
pub mod told;
