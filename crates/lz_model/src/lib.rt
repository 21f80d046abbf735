//! What a program may do: actions and events, runs and rounds, and when a program is violated.
#![tactic(auto)]

mod actions;
mod laws;
mod schedule;
mod thread_state;

pub use actions::{Action, Event};
pub use laws::{
    broken_in_its_rounds, broken_without_loc, front_of_a_run, front_of_a_trace,
    leaving_out_begins_no_round, one_run_a_schedule, rounds_of_a_schedule, runs_without_loc,
};
pub use schedule::{Schedule, Step, rounds};
pub use thread_state::ThreadState;
