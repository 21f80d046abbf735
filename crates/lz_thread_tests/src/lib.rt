//! Tests of threads, and nothing else: a thread of a C text answers its actions one after the other. They stand above the
//! crates that they test, so that no crate is proved twice for them.
#![tactic(auto)]

#[cfg(test)]
mod threads;
