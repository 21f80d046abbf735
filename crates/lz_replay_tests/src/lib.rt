//! Tests of mode replay through the command, and nothing else. They stand above the crates that they test, so that no
//! crate is proved twice for them.
#![tactic(auto)]

#[cfg(test)]
mod actions;
#[cfg(test)]
mod replays;
#[cfg(test)]
mod schedules;
