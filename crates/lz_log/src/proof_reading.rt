//! Reads the text of a formula and its log back.

ghost use Rattle.std.specs.Prelude.{◌≡◌, ℕ, ◌+◌, ◌<◌, ◌≤◌, ◌^◌, List, [], length, MatchResult};
ghost use Rattle.lz_log.specs.ProofReading.{HasClauses, HasSteps, IsFirstBadLine, IsProofText, variable_limit};
ghost use Rattle.lz_cnf.specs.declared.clause.Cnf.{Cnf};
ghost use Rattle.lz_log.specs.declared.log.LogStep.{LogStep};
ghost use Rattle.lz_log.specs.Lines.{ReadsBack, error_at, IsAt, IsBadClause, IsBadStep};

use crate::lines::{Unread, clause_line, header, step_line};
use crate::log::Log;
use lz_base::Memory;
use lz_cnf::{Clauses, Cnf};
use std::alloc::Global;

/// Why a proof text was not read.
#[derive(Clone, Copy, Debug, PartialEq, Eq)]
pub enum ProofError {
    /// The first line that says nothing, counted from 1.
    Bad { line: u32 },
    Memory,
}

impl From<Memory> for ProofError {
    ghost use Rattle.std.specs.Prelude.{◌≡◌};
    ghost use Rattle.lz_log.specs.declared.proof_reading.ProofError.TheVariants as errors;

    ghost from_gives = { λ _ e. e ≡ errors.Memory };

    fn from(_memory: Memory) -> ProofError {
        ProofError::Memory
    }
}

impl Unread {
    /// The error where this line was not read.
    fn at(self, line: u32) -> ProofError
        ensures { result ≡ error_at line self }
    {
        match self {
            Unread::NoReading => ProofError::Bad { line },
            Unread::Memory => ProofError::Memory,
        }
    }
}

/// Reads the lines of so many clauses. Answers what follows them too.
fn read_clauses(
    alloc: Global,
    bytes: &[u8],
    variables: u32,
    told: u64,
) -> Result<(Clauses, &[u8]), ProofError>
    requires variables { variables ≤ variable_limit }
    requires few { length bytes.now + 2 < 2 ^ 32 }
    ensures { MatchResult result
        (λ r. HasClauses bytes.now variables r.0 r.1.now × (length r.0 ≡ told) × (length r.0 + length r.1.now ≤ length bytes.now))
        (IsAt (IsBadClause bytes.now variables told)) }
{
    let mut clauses = Clauses::new(alloc);
    let mut left = bytes;
    for _ in 0..told {
        match clause_line(alloc, left, variables) {
            Ok((clause, rest)) => {
                clauses.push(clause)?;
                left = rest;
            }
            Err(unread) => return Err(unread.at(clauses.items().len() as u32 + 2)),
        }
    }
    Ok((clauses, left))
}

/// Reads the lines of steps that stand behind so many clauses, up to the end.
fn read_steps(alloc: Global, bytes: &[u8], variables: u32, known: u32) -> Result<Log, ProofError>
    requires variables { variables ≤ variable_limit }
    requires few { known + length bytes.now + 2 < 2 ^ 32 }
    ensures { MatchResult result
        (λ log. HasSteps bytes.now variables known log [])
        (IsAt (IsBadStep bytes.now variables known)) }
{
    let mut log = Log::new(alloc);
    let mut left = bytes;
    let mut before = known;
    while !left.is_empty() {
        match step_line(alloc, left, variables, before) {
            Ok((step, rest)) => {
                log.push(step)?;
                before += 1;
                left = rest;
            }
            Err(unread) => return Err(unread.at(before + 2)),
        }
    }
    Ok(log)
}

/// Reads a first line, the lines of as many clauses as it tells of, and lines of steps up to the end.
fn read_lines(alloc: Global, bytes: &[u8]) -> Result<(Cnf, Log), ProofError>
    requires { length bytes.now < 2 ^ 32 }
    ensures { MatchResult result (λ r. IsProofText bytes.now r.0 r.1) (IsAt (IsFirstBadLine bytes.now)) }
{
    let Some((variables, told, rest)) = header(bytes) else {
        return Err(ProofError::Bad { line: 1 });
    };
    let (clauses, rest) = read_clauses(alloc, rest, variables, told)?;
    let log = read_steps(alloc, rest, variables, clauses.items().len() as u32)?;
    Ok((Cnf { variables, clauses }, log))
}

/// Reads a text that `print_proof` writes, of fewer than 2^32 bytes, in time linear in them. Any other bytes are answered
/// with the first line that says nothing; where the first line or the line of a clause is missing, that is the line behind
/// the last.
pub fn read_proof(alloc: Global, bytes: &[u8]) -> Result<(Cnf, Log), ProofError>
    requires { length bytes.now < 2 ^ 32 }
    ensures exact { MatchResult result (λ r. IsProofText bytes.now r.0 r.1) (IsAt (IsFirstBadLine bytes.now)) }
    // The text of a formula and a log is read back, unless memory is wanting.
    ensures back { (formula : Cnf) (log : List LogStep) → IsProofText bytes.now formula log → ReadsBack formula log result }
{
    read_lines(alloc, bytes)
}
