//! Tests of the crates over flat programs and nodes, and nothing else.
#![tactic(auto)]

#[cfg(test)]
mod folding;
#[cfg(test)]
mod marks;
