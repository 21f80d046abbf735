//! The lines of a proof text, each read from the front of bytes.

ghost use Rattle.std.specs.Prelude.{◌≡◌, ◌≢◌, ℕ, ◌<◌, ◌≤◌, ◌^◌, List, [], ◌∷◌, ◌++◌, length, MatchOption, MatchResult};
ghost use Rattle.lz_cnf.specs.declared.clause.Lit.{Lit};
ghost use Rattle.lz_log.specs.ProofReading.{HasClauses, HasSteps, LacksClause, LacksHeader, LacksStep, variable_limit};
ghost use Rattle.lz_log.specs.Lines.{HasHints, HasLiteral, HasLiterals, Lacks, TellsHeader};

use crate::log::{Hints, LogStep};
use crate::pieces::{behind_byte, bounded, number};
use lz_base::Memory;
use lz_cnf::{Clause, Lit};
use std::alloc::Global;

/// The most variables that a text may tell of.
pub const VARIABLE_LIMIT: u32 = 2_147_483_647;

/// Why a line was not read.
#[derive(Clone, Copy, Debug, PartialEq, Eq)]
pub enum Unread {
    /// It says nothing.
    NoReading,
    Memory,
}

impl From<Memory> for Unread {
    ghost use Rattle.std.specs.Prelude.{◌≡◌};
    ghost use Rattle.lz_log.specs.declared.lines.Unread.TheVariants as unread;

    ghost from_gives = { λ _ e. e ≡ unread.Memory };

    fn from(_memory: Memory) -> Unread {
        Unread::Memory
    }
}

/// What follows this text at the front.
fn behind_text<'a>(bytes: &'a [u8], text: &[u8]) -> Option<&'a [u8]>
    ensures { MatchOption result ((rest : List ℕ) → bytes.now ≡ text.now ++ rest → ⊥) (λ rest. bytes.now ≡ text.now ++ rest.now) }
{
    bytes.strip_prefix(text)
}

/// The first line: the number of variables and the number of clauses, this one up to the cap.
pub fn header(bytes: &[u8]) -> Option<(u32, u64, &[u8])>
    ensures { MatchOption result (LacksHeader bytes.now) (λ r. TellsHeader bytes.now r.0 r.1 r.2.now) }
{
    let rest = behind_text(bytes, b"p cnf ")?;
    let (variables, rest) = bounded(rest, b' ', 0, VARIABLE_LIMIT)?;
    let (count, rest) = number(rest)?;
    let rest = behind_byte(rest, b'\n')?;
    Some((variables, count, rest))
}

/// A literal of one of so many variables, with a space behind it.
fn literal(bytes: &[u8], variables: u32) -> Option<(Lit, &[u8])>
    requires { variables ≤ variable_limit }
    ensures { MatchOption result
        ((lit : Lit) (rest : List ℕ) → HasLiteral bytes.now variables lit rest → ⊥)
        (λ r. HasLiteral bytes.now variables r.0 r.1.now) }
{
    match behind_byte(bytes, b'-') {
        Some(behind) => {
            let (number, rest) = bounded(behind, b' ', 1, variables)?;
            Some((Lit(2 * number - 1), rest))
        }
        None => {
            let (number, rest) = bounded(bytes, b' ', 1, variables)?;
            Some((Lit(2 * number - 2), rest))
        }
    }
}

/// Literals and the 0 that ends them.
fn literals(alloc: Global, bytes: &[u8], variables: u32) -> Result<(Clause, &[u8]), Unread>
    requires { variables ≤ variable_limit }
    ensures { MatchResult result
        (λ r. HasLiterals bytes.now variables r.0 r.1.now)
        (Lacks ((clause : List Lit) (rest : List ℕ) → HasLiterals bytes.now variables clause rest → ⊥)) }
{
    let mut clause = Clause::new(alloc);
    let mut left = bytes;
    loop {
        if let Some(rest) = behind_byte(left, b'0') {
            return Ok((clause, rest));
        }
        match literal(left, variables) {
            Some((lit, rest)) => {
                clause.push(lit)?;
                left = rest;
            }
            None => return Err(Unread::NoReading),
        }
    }
}

/// Hints that name some of so many clauses, and the 0 that ends them.
fn hints(alloc: Global, bytes: &[u8], known: u32) -> Result<(Hints, &[u8]), Unread>
    ensures { MatchResult result
        (λ r. HasHints bytes.now known r.0 r.1.now)
        (Lacks ((hints : List ℕ) (rest : List ℕ) → HasHints bytes.now known hints rest → ⊥)) }
{
    let mut hints = Hints::new(alloc);
    let mut left = bytes;
    loop {
        if let Some(rest) = behind_byte(left, b'0') {
            return Ok((hints, rest));
        }
        match bounded(left, b' ', 1, known) {
            Some((hint, rest)) => {
                hints.push(hint)?;
                left = rest;
            }
            None => return Err(Unread::NoReading),
        }
    }
}

/// The line of a clause.
pub fn clause_line(alloc: Global, bytes: &[u8], variables: u32) -> Result<(Clause, &[u8]), Unread>
    requires { variables ≤ variable_limit }
    ensures { MatchResult result
        (λ r. HasClauses bytes.now variables (r.0 ∷ []) r.1.now)
        (Lacks (LacksClause bytes.now variables)) }
{
    let (clause, rest) = literals(alloc, bytes, variables)?;
    match behind_byte(rest, b'\n') {
        Some(rest) => Ok((clause, rest)),
        None => Err(Unread::NoReading),
    }
}

/// The line of a step that stands behind so many clauses.
pub fn step_line(
    alloc: Global,
    bytes: &[u8],
    variables: u32,
    known: u32,
) -> Result<(LogStep, &[u8]), Unread>
    requires { variables ≤ variable_limit }
    ensures { MatchResult result
        (λ r. HasSteps bytes.now variables known (r.0 ∷ []) r.1.now)
        (Lacks (LacksStep bytes.now variables known)) }
{
    let Some(rest) = behind_text(bytes, b"l ") else {
        return Err(Unread::NoReading);
    };
    let (clause, rest) = literals(alloc, rest, variables)?;
    let Some(rest) = behind_byte(rest, b' ') else {
        return Err(Unread::NoReading);
    };
    let (hints, rest) = hints(alloc, rest, known)?;
    match behind_byte(rest, b'\n') {
        Some(rest) => Ok((LogStep { clause, hints }, rest)),
        None => Err(Unread::NoReading),
    }
}
