//! How a thread goes on in an expression from one action to the next: an expression stands at a place in it, and `advance`
//! brings it up to its next action or its end, which is proved to leave what it may do as it was, Loc left out.
#![tactic(auto)]

mod advancing;
mod calls;
mod laws;
mod moves;
mod nodes;
mod parts;
mod stage;
mod values;
mod went;

pub use advancing::advance;
pub use laws::{a_turn_of_a_node, turns_end};
pub use stage::{Came, Locals, Move, Place, Stage};
pub use values::{converted, kind_of, set_word};
