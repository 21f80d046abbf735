//! Tests of files and reports, over memory and over the system, and nothing else: they cost most where the crate is proved
//! once more for them.
#![tactic(auto)]

#[cfg(test)]
mod outside;
