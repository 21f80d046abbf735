//! The words of the command line: how they are read.
#![tactic(auto)]

mod asked;
mod command_line;
mod law;
mod limits;
mod numbers;

pub use asked::{Asked, Mode, WordsError};
pub use command_line::{Words, read_words};
pub use law::one_reading;
pub use limits::{DEFAULT_CONFLICTS, DEFAULT_ROUNDS, DEFAULT_UNWIND};

#[cfg(test)]
mod tests;
