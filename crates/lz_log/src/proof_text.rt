//! The text of a formula and its log: the formula in DIMACS, then a line for each step with its hints.

ghost use Rattle.std.specs.Prelude.{◌≡◌, ◌<◌, ◌^◌, ◌++◌, codes, length, OnOk, IfOk, List};
ghost use Rattle.std.specs.List.{flat_map};
ghost use Rattle.std.specs.Fmt.{decimal};
ghost use Rattle.lz_log.specs.ProofText.{clause_line, clause_text, header_line, hints_text, literal_text, proof_text, step_line};

use crate::log::{Log, LogStep};
use lz_base::{Bytes, Memory};
use lz_cnf::{Clause, Cnf, Lit};
use std::alloc::Global;

/// The text of a formula and a log, which mode recheck reads back. Lines end with a newline, numbers are decimal, and
/// the variables are numbered from 1.
pub fn print_proof(alloc: Global, formula: &Cnf, log: &Log) -> Result<Bytes, Memory>
    ensures { IfOk result (λ text. text ≡ proof_text formula.now log.now) }
{
    let mut text = Bytes::new(alloc);
    append_header(&mut text, formula)?;
    for clause in formula.clauses.items() {
        append_clause_line(&mut text, clause)?;
    }
    append_steps(&mut text, log.items())?;
    Ok(text)
}

/// Adds the first line.
fn append_header(text: &mut Bytes, formula: &Cnf) -> Result<(), Memory>
    ensures { OnOk result (text.new ≡ text.old ++ header_line formula.now) }
{
    text.append(b"p cnf ")?;
    text.append_number(u64::from(formula.variables))?;
    text.append(b" ")?;
    text.append_number(formula.clauses.items().len() as u64)?;
    text.append(b"\n")
}

/// Adds the lines of steps.
fn append_steps(text: &mut Bytes, steps: &[LogStep]) -> Result<(), Memory>
    ensures { OnOk result (text.new ≡ text.old ++ flat_map step_line steps.now) }
{
    for step in steps {
        append_step_line(text, step)?;
    }
    Ok(())
}

/// Adds the line of a step.
fn append_step_line(text: &mut Bytes, step: &LogStep) -> Result<(), Memory>
    ensures { OnOk result (text.new ≡ text.old ++ step_line step.now) }
{
    text.append(b"l ")?;
    append_clause(text, step.clause.items())?;
    text.append(b" ")?;
    append_hints(text, step.hints.items())?;
    text.append(b"\n")
}

/// Adds the line of a clause of the formula.
fn append_clause_line(text: &mut Bytes, clause: &Clause) -> Result<(), Memory>
    ensures { OnOk result (text.new ≡ text.old ++ clause_line clause.now) }
{
    append_clause(text, clause.items())?;
    text.append(b"\n")
}

/// Adds literals and the 0 that ends them.
fn append_clause(text: &mut Bytes, clause: &[Lit]) -> Result<(), Memory>
    ensures { OnOk result (text.new ≡ text.old ++ clause_text clause.now) }
{
    for lit in clause {
        append_literal(text, *lit)?;
    }
    text.append(b"0")
}

/// Adds a literal and a space.
fn append_literal(text: &mut Bytes, lit: Lit) -> Result<(), Memory>
    ensures { OnOk result (text.new ≡ text.old ++ (literal_text lit ++ codes " ")) }
{
    if lit.0 % 2 == 1 {
        text.append(b"-")?;
    }
    text.append_number(u64::from(lit.variable()) + 1)?;
    text.append(b" ")
}

/// Adds hints and the 0 that ends them.
fn append_hints(text: &mut Bytes, hints: &[u32]) -> Result<(), Memory>
    ensures { OnOk result (text.new ≡ text.old ++ hints_text hints.now) }
{
    for hint in hints {
        append_hint(text, *hint)?;
    }
    text.append(b"0")
}

/// Adds a hint and a space.
fn append_hint(text: &mut Bytes, hint: u32) -> Result<(), Memory>
    ensures { OnOk result (text.new ≡ text.old ++ (decimal hint ++ codes " ")) }
{
    text.append_number(u64::from(hint))?;
    text.append(b" ")
}
