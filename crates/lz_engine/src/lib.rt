//! The layers behind the lowering in one call: whether a flat program breaks within so many rounds.
#![tactic(auto)]

mod decide;

pub use decide::{Decision, decide_flat};
