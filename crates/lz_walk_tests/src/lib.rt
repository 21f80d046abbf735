//! Tests of the walks through expressions and statements, and nothing else: a thread's body of a C text goes on from one
//! pause to the next. They stand above the crates that they test, so that no crate is proved twice for them.
#![tactic(auto)]

#[cfg(test)]
mod calls;
#[cfg(test)]
mod walks;
