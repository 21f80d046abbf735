//! The numbers that words may say, and those where no word says one.

/// The most digits of a number.
pub const DIGIT_LIMIT: usize = 20;

/// The turns that a loop may take each time that it is entered, where no word says it.
pub const DEFAULT_UNWIND: u32 = 2;

/// The greatest number of turns that a word may say.
pub const GREATEST_UNWIND: u32 = 100;

/// The rounds that a run may take, where no word says it.
pub const DEFAULT_ROUNDS: u32 = 2;

/// The greatest number of rounds that a word may say.
pub const GREATEST_ROUNDS: u32 = 32;

/// The conflicts that the solver may spend, where no word says it.
pub const DEFAULT_CONFLICTS: u64 = 100_000;

/// The greatest number of conflicts that a word may say.
pub const GREATEST_CONFLICTS: u64 = 1_000_000;

/// The greatest seed that a word may say.
pub const GREATEST_SEED: u32 = 65_535;
