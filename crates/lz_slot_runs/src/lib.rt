//! Runs of threads that go by their slots are runs of threads that go by their numbers, and the other way round. No
//! function of this crate runs: it holds definitions and lemmas.
#![tactic(auto)]
