//! Interleavings of flat threads: a flat program that meets a law of single steps breaks as a program of deeds does,
//! in as many rounds. No function of this crate runs: it holds definitions and lemmas.
#![tactic(auto)]
