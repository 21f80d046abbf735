//! Schedules as text, and their replay.
#![tactic(auto)]

mod answer;
mod bytes;
mod deciding;
mod error;
mod laws;
mod print;
mod read;
mod replaying;
mod threads;

pub use answer::Replayed;
pub use deciding::{Decided, decide};
pub use error::ScheduleError;
pub use laws::{one_answer, one_schedule, printed_is_read};
pub use print::print_schedule;
pub use read::read_schedule;
pub use replaying::replay;
