//! The bounds of a call on runs, and the limits on programs.

pub use lz_base::{COST_LIMIT, SLOT_LIMIT};
pub use lz_words::{DEFAULT_CONFLICTS, DEFAULT_ROUNDS};

/// The rounds with which the cost of a program is taken that is run by a schedule.
pub const REPLAY_ROUNDS: u32 = 1;

/// The most bytes that a schedule file may have.
pub const SCHEDULE_LIMIT: u64 = 268_435_456;
