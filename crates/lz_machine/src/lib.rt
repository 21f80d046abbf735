//! The resumable thread: it stops behind each of its actions but those on its own local values, and goes on from there.
#![tactic(auto)]

mod answer;
mod parts;
mod running;
mod thread;
mod turn;

pub use answer::{Next, ReadBack};
pub use thread::Thread;
