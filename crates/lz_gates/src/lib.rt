//! Circuits as clauses: a builder whose gates have their values in every model.
#![tactic(auto)]

mod builder;
mod fold;
mod laws;

pub use builder::Builder;
pub use laws::{fresh_values_settle_gates, models_are_assignments, models_extend_once};
