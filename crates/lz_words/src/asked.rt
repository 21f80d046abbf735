//! What the words of a command line ask for.

use lz_base::{Memory, Name};

/// What is done with the named file.
#[derive(Clone, Copy, Debug, PartialEq, Eq)]
pub enum Mode {
    /// Its program is decided.
    Check,
    /// Its program is run by a schedule.
    Replay,
    /// It is a proof text, and its log is checked.
    Recheck,
    /// A program is generated, written to it and decided.
    Gen,
    /// Its program is printed as a sequential program.
    Emit,
}

/// What the words of a command line ask for.
#[derive(Debug, Drop)]
pub struct Asked {
    /// What is done.
    pub mode: Mode,
    /// The most turns of a loop each time that it is entered, from 1 to 100.
    pub unwind: u32,
    /// The most rounds of a run, from 1 to 32.
    pub rounds: u32,
    /// The most conflicts of the solver, from 1 to 1,000,000.
    pub conflicts: u64,
    /// The name of the schedule, which mode replay always has.
    pub schedule: Option<Name>,
    /// The name under which the proof of a success is written.
    pub proof: Option<Name>,
    /// The seed of a generated program, at most 65,535, which mode gen always has.
    pub seed: Option<u32>,
    /// The name of the file.
    pub file: Name,
}

/// Why words were not read.
#[derive(Clone, Copy, Debug, PartialEq, Eq)]
pub enum WordsError {
    /// The words have no reading.
    Usage,
    /// Memory ran out.
    Memory,
}

impl From<Memory> for WordsError {
    ghost use Rattle.std.specs.Prelude.{◌≡◌};
    ghost use Rattle.lz_words.specs.declared.asked.WordsError.TheVariants as errors;

    ghost from_gives = { λ _ error. error ≡ errors.Memory };

    fn from(_error: Memory) -> WordsError {
        WordsError::Memory
    }
}
