//! What a call of the command told, over a folder and a sink in memory.

use lz_base::Bytes;
use lz_cli::Ended;

/// A sink of more room than any report of these tests takes.
pub const AMPLE: u64 = 1_000;

/// The report of words without a reading.
pub const USAGE: &str =
    "usage: lazycheck [--mode check|replay|recheck|gen|emit] [--unwind N] [--rounds K] [--conflicts C] [--schedule NAME] [--proof NAME] [--seed S] FILE\n";

/// What a call printed, and how it ended.
#[derive(Drop)]
pub struct Told {
    pub text: Bytes,
    pub ended: Ended,
}
