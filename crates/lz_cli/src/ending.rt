use crate::evidence::Evidence;
use crate::recheck::Rechecked;
use lz_base::{BreakKind, Name};
use lz_cnf::Cnf;
use lz_log::Log;
use lz_model::Schedule;
use lz_replay::Replayed;

/// How a call ends, with what its report tells and the evidence that goes with it.
#[derive(Debug, Drop)]
pub enum Ending {
    /// No run breaks a check within the bounds. The log refutes the formula, which has a model exactly where
    /// the program is violated.
    Successful {
        unwind: u32,
        rounds: u32,
        formula: Cnf,
        log: Log,
    },
    /// A run that follows the schedule breaks a check.
    Failed {
        kind: BreakKind,
        line: u32,
        schedule: Schedule,
    },
    /// The bytes of the file have no cut into tokens; the longest cut ends at this place, counted from 0.
    NotAToken {
        line: u32,
        place: u32,
    },
    /// No program spells the tokens of the file; this one, counted from 0, is the first with which none goes on.
    NotAProgram {
        line: u32,
        token: u32,
    },
    /// The program of the file breaks this rule on this line, before every other one that it breaks.
    Faulty {
        line: u32,
        rule: u32,
    },
    /// The program of the file can create so many threads, which are over the limit.
    ManySlots {
        slots: u64,
    },
    /// The program of the file costs so much, which is over the limit.
    HighCost {
        cost: u64,
    },
    /// A proof file was rechecked.
    Recheck {
        answer: Rechecked,
    },
    /// The program of the file was run by a schedule.
    Replay {
        answer: Replayed,
    },
    /// What the words ask for, or the program of the file, is not built.
    NotBuilt {
        line: u32,
    },
    /// The file is longer than the limit.
    FileTooLong,
    /// The schedule file is longer than the limit.
    ScheduleTooLong,
    /// The proof file is longer than the limit.
    ProofTooLong,
    /// This line of the schedule file, counted from 1, is the first that says nothing.
    BadSchedule {
        line: u32,
    },
    /// The file of this name can't be read.
    ReadFault {
        name: Name,
    },
    /// The words have no reading.
    Usage,
    /// Memory ran out.
    OutOfMemory,
}

impl Ending {
    ghost use Rattle.std.specs.Prelude.{◌≡◌};
    ghost use Rattle.lz_cli.specs.Report.{evidence_of};

    /// What shows that the ending is right, beside its report.
    pub fn into_evidence(self) -> Evidence
        ensures { result ≡ evidence_of self }
    {
        match self {
            Ending::Successful {
                unwind: _,
                rounds: _,
                formula,
                log,
            } => Evidence::Proof { formula, log },
            Ending::Failed {
                kind: _,
                line: _,
                schedule: _,
            } => Evidence::Nothing,
            Ending::NotAToken { line: _, place: _ } => Evidence::Nothing,
            Ending::NotAProgram { line: _, token: _ } => Evidence::Nothing,
            Ending::Faulty { line: _, rule: _ } => Evidence::Nothing,
            Ending::ManySlots { slots: _ } => Evidence::Nothing,
            Ending::HighCost { cost: _ } => Evidence::Nothing,
            Ending::Recheck { answer: _ } => Evidence::Nothing,
            Ending::Replay { answer: _ } => Evidence::Nothing,
            Ending::NotBuilt { line: _ } => Evidence::Nothing,
            Ending::FileTooLong => Evidence::Nothing,
            Ending::ScheduleTooLong => Evidence::Nothing,
            Ending::ProofTooLong => Evidence::Nothing,
            Ending::BadSchedule { line: _ } => Evidence::Nothing,
            Ending::ReadFault { name: _ } => Evidence::Nothing,
            Ending::Usage => Evidence::Nothing,
            Ending::OutOfMemory => Evidence::Nothing,
        }
    }
}
