//! Tests of the reader of expressions, and the letters by which they and those of `lz_front_tests` write tokens. They cost
//! most where the crates are proved once more for them.
#![tactic(auto)]

#[cfg(test)]
mod expr;
pub mod letters;
