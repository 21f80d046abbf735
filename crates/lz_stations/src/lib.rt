//! How a thread goes on in a statement from one action to the next: a statement stands at a station, or within a part of
//! it, and each step is proved to lead to what is left of its traces, Loc left out.
#![tactic(auto)]

mod footing;
mod laws;
mod places;
mod statements;
mod station;
mod walking;
mod writes;

pub use footing::{Footing, Pause, Reached};
pub use laws::{a_turn_of_a_statement, steps_end};
pub use statements::station_move;
pub use station::{Flow, Station, StationMove};
pub use walking::advance_statement;
pub use writes::station_writes;
