//! Whether a thread can run a program: its constants are words, and the elements of its objects have numbers below 2^32.
#![tactic(auto)]

mod fits;

pub use fits::{body_fits, program_fits};
