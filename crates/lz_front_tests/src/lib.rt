//! Tests of the readers of declarations and statements, and nothing else: they cost most where the crates are proved
//! once more for them.
#![tactic(auto)]

#[cfg(test)]
mod grammar;
