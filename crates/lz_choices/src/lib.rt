//! Where a program has a choice, and that a program without one has one course of events.
#![tactic(auto)]

mod choices;
mod laws;

pub use choices::first_choice;
pub use laws::only_main_steps;
