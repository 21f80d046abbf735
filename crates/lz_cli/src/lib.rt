//! The command: it reads a file, decides its program and prints the verdict.
#![tactic(auto)]

mod admit;
mod command;
mod command_line;
mod ending;
mod evidence;
mod exactness;
mod limits;
mod recheck;
mod refutation;
mod replaying;
mod report;

pub use command::{Ended, end_out_of_memory, run};
pub use ending::Ending;
pub use evidence::Evidence;
pub use exactness::endings_are_exact;
pub use lz_words::{Asked, Mode, Words, WordsError, read_words};
pub use recheck::Rechecked;
