//! Which functions call which, what can be reached through calls, and how high bodies are with those that they call
//! (C99 6.5.2.2).
#![tactic(auto)]

mod finding;
mod heights;
mod laws;
mod listing;
mod ranks;
mod reaching;
mod walking;

pub use finding::{BODY_HEIGHT_LIMIT, CallFacts, facts};
pub use laws::facts_are_determined;
