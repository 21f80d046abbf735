//! Numbers of the task that several crates name.

/// The most bytes that a source file may have.
pub const FILE_LIMIT: u64 = 1_048_576;

/// The most that a program may cost within its bounds.
pub const COST_LIMIT: u64 = 10_000_000;

/// The most threads that a program may create within its bounds.
pub const SLOT_LIMIT: u64 = 16;
