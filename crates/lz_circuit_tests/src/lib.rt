//! Tests of the crates that make circuits and formulas, and nothing else. They stand above the crates that they test, so
//! that no crate is proved twice for them.
#![tactic(auto)]

#[cfg(test)]
mod flat;
#[cfg(test)]
mod formula;
#[cfg(test)]
mod gates;
#[cfg(test)]
mod straight;
#[cfg(test)]
mod words;
