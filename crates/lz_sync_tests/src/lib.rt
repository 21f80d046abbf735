//! Tests of shared state as words of memory, and nothing else.
#![tactic(auto)]

#[cfg(test)]
mod groups;
