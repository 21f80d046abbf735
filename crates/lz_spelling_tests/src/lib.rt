//! Tests of how trees are spelled, and nothing else: the tokens of a tree are those that it was read from. They stand above
//! the crates that they test, so that no crate is proved twice for them.
#![tactic(auto)]

#[cfg(test)]
mod spelling;
