//! Rechecks a proof text: whether it says a formula and a log that refutes it.

ghost use Rattle.std.specs.Prelude.{◌≡◌, ◌<◌, ◌≤◌, ◌^◌, ℕ, List, length, IfOk, IfSome, IfNone, MatchResult};
ghost use Rattle.lz_cnf.specs.Models.{IsFormula};
ghost use Rattle.lz_log.specs.Checking.{IsFirstBad};
ghost use Rattle.lz_log.specs.Refutation.{Refutes};
ghost use Rattle.lz_cli.specs.Recheck.{IsRechecked, proof_limit};

use lz_base::Memory;
use lz_cnf::Cnf;
use lz_log::{BadStep, Log, ProofError, Scratch, check_log, read_proof};
use std::alloc::Global;

/// The most bytes that a proof file may have.
pub const PROOF_LIMIT: u64 = 268_435_456;

/// What a recheck comes to.
#[derive(Clone, Copy, Debug, PartialEq, Eq)]
pub enum Rechecked {
    /// The log refutes the formula, which has so many clauses; it has so many steps.
    Refuted { clauses: u64, steps: u64 },
    /// This line, counted from 1, is the first that says nothing.
    BadLine { line: u32 },
    /// The step of this index is the first that does not follow by its hints; the log's length where each follows and none
    /// is empty.
    BadStep { index: u64 },
}

/// Whether a log refutes its formula.
fn check(alloc: Global, formula: &Cnf, log: &Log) -> Result<Result<(), BadStep>, Memory>
    requires { IsFormula formula.now }
    ensures { IfOk result (λ checked. MatchResult checked (λ _. Refutes formula.now log.now) (λ bad. IsFirstBad formula.now log.now bad.index)) }
{
    let mut scratch = Scratch::new(alloc, formula.variables)?;
    let checked = check_log(formula, log, &mut scratch);
    Ok(checked)
}

/// Rechecks the bytes of a proof file.
pub fn recheck(alloc: Global, bytes: &[u8]) -> Result<Rechecked, Memory>
    requires { length bytes.now ≤ proof_limit }
    ensures { IfOk result (IsRechecked bytes.now) }
{
    let (formula, log) = match read_proof(alloc, bytes) {
        Ok(read) => read,
        Err(ProofError::Bad { line }) => return Ok(Rechecked::BadLine { line }),
        Err(ProofError::Memory) => return Err(Memory),
    };
    match check(alloc, &formula, &log)? {
        Ok(()) => Ok(Rechecked::Refuted {
            clauses: formula.clauses.items().len() as u64,
            steps: log.items().len() as u64,
        }),
        Err(bad) => Ok(Rechecked::BadStep { index: bad.index }),
    }
}
