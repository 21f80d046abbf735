//! Tests of schedules and of the shared state of threads, and nothing else. They stand above the crates that they test, so
//! that no crate is proved twice for them.
#![tactic(auto)]

#[cfg(test)]
mod actions;
#[cfg(test)]
mod rounds;
#[cfg(test)]
mod schedules;
