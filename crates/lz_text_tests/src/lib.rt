//! Tests of lists, tokens and trees, and nothing else: what bytes are read as, up to a whole program. They stand above the
//! crates that they test, so that no crate is proved twice for them.
#![tactic(auto)]

#[cfg(test)]
mod heights;
#[cfg(test)]
mod lists;
#[cfg(test)]
mod programs;
#[cfg(test)]
mod tokens;
