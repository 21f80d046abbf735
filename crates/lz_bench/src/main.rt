//! A driver for benchmarks of the solver, which is no part of the product: it reads a formula in DIMACS, searches for a
//! model within a number of conflicts, checks the log, and prints what was found, with the numbers of conflicts and
//! propagations. With the word `proof` it prints the model or the proof text too, with the word `alone` it does not check
//! the log. With the word `recheck` it reads a proof text and checks its log.
#![tactic(auto)]

ghost use Rattle.lz_cnf.specs.Models.{IsFormula};

mod dimacs;
mod fit;

use dimacs::read_formula;
use fit::{has_room, is_fit};
use lz_base::Memory;
use lz_cnf::{Assignment, Cnf};
use lz_log::{Log, ProofError, Scratch, check_log, print_proof, read_proof};
use lz_solve::{Counts, Solved, solve_counted};
use std::alloc::Global;
use std::{env, fs, io};

/// The most bytes of a proof text, as in mode recheck: 256 MiB.
const TEXT_LIMIT: usize = 268_435_456;

/// What is done with an answer beside telling it.
#[derive(Clone, Copy, PartialEq, Eq)]
enum Further {
    /// A log is checked.
    Check,
    /// A log is checked, and the model or the proof text is printed.
    Print,
    /// Nothing.
    Nothing,
}

/// What stops a run: the outside, or want of memory.
#[derive(Drop)]
enum Trouble {
    Outside(io::Error),
    Memory,
}

impl From<io::Error> for Trouble {
    ghost from_gives = { λ _ _. Unit {0} };

    fn from(error: io::Error) -> Trouble {
        Trouble::Outside(error)
    }
}

impl From<Memory> for Trouble {
    ghost from_gives = { λ _ _. Unit {0} };

    fn from(_memory: Memory) -> Trouble {
        Trouble::Memory
    }
}

fn main(rt: HostRuntime) -> io::Result<()> {
    let mut words = env::args(&rt)?.skip(1);
    let (Some(path), Some(what)) = (words.next(), words.next()) else {
        return println!(rt;
            "usage: lz_bench FILE CONFLICTS [proof | alone] | lz_bench FILE recheck"
        );
    };
    let text = fs::read_to_string(&rt, path.as_str())?;
    let ended = match what.as_str().parse::<u64>() {
        Ok(conflicts) => decide(
            &rt,
            rt.alloc(),
            text.as_str(),
            conflicts,
            asked(words.next().as_ref().map(|word| word.as_str())),
        ),
        Err(_) => recheck(&rt, rt.alloc(), text.as_str()),
    };
    match ended {
        Ok(()) => Ok(()),
        Err(Trouble::Outside(error)) => Err(error),
        Err(Trouble::Memory) => println!(rt; "MEMORY"),
    }
}

/// What a third word asks for.
fn asked(word: Option<&str>) -> Further {
    match word {
        Some("proof") => Further::Print,
        Some("alone") => Further::Nothing,
        _ => Further::Check,
    }
}

/// Decides a formula and checks the log.
fn decide(
    rt: &impl Print,
    alloc: Global,
    text: &str,
    conflicts: u64,
    further: Further,
) -> Result<(), Trouble> {
    let Some(formula) = read_formula(alloc, text)? else {
        println!(rt; "not a formula")?;
        return Ok(());
    };
    if !is_fit(&formula) || !has_room(&formula, conflicts) {
        println!(rt; "not within the limits")?;
        return Ok(());
    }
    let mut counts = Counts::new();
    match solve_counted(alloc, &formula, conflicts, &mut counts)? {
        Solved::Sat(values) => {
            tell_counts(rt, "SAT", counts)?;
            tell_model(rt, &values, further)
        }
        Solved::Unsat(log) => {
            tell_counts(rt, "UNSAT", counts)?;
            tell_log(rt, alloc, &formula, &log, further)
        }
        Solved::Spent(log) => {
            tell_counts(rt, "SPENT", counts)?;
            tell_log(rt, alloc, &formula, &log, further)
        }
    }
}

/// Tells an answer, and what the search did.
fn tell_counts(rt: &impl Print, answer: &str, counts: Counts) -> Result<(), Trouble> {
    println!(rt;
        "{answer} conflicts {} propagations {}",
        counts.conflicts, counts.propagations
    )?;
    Ok(())
}

/// Tells a model, where it is asked for.
fn tell_model(rt: &impl Print, values: &Assignment, further: Further) -> Result<(), Trouble> {
    if further == Further::Print {
        for value in values.items() {
            println!(rt; "{}", u8::from(*value))?;
        }
    }
    Ok(())
}

/// Tells a log, with the first step that does not follow.
fn tell_log(
    rt: &impl Print,
    alloc: Global,
    formula: &Cnf,
    log: &Log,
    further: Further,
) -> Result<(), Trouble>
    requires { IsFormula formula.now }
{
    if further == Further::Nothing {
        return Ok(());
    }
    let mut literals = 0u64;
    let mut hints = 0u64;
    for step in log.items() {
        literals = literals.wrapping_add(step.clause.items().len() as u64);
        hints = hints.wrapping_add(step.hints.items().len() as u64);
    }
    println!(rt;
        "log {} literals {literals} hints {hints} bad {}",
        log.items().len(),
        bad_step(alloc, formula, log)?
    )?;
    if further == Further::Print {
        let text = print_proof(alloc, formula, log)?;
        if let Ok(text) = std::str::from_utf8(text.items()) {
            print!(rt; "{text}")?;
        }
    }
    Ok(())
}

/// The number of the first step that does not follow; the log's length where each follows and none is empty, or where the
/// log refutes the formula.
fn bad_step(alloc: Global, formula: &Cnf, log: &Log) -> Result<u64, Memory>
    requires { IsFormula formula.now }
{
    let mut scratch = Scratch::new(alloc, formula.variables)?;
    match check_log(formula, log, &mut scratch) {
        Ok(()) => Ok(log.items().len() as u64),
        Err(bad) => Ok(bad.index),
    }
}

/// Reads a proof text and checks its log, as mode recheck does.
fn recheck(rt: &impl Print, alloc: Global, text: &str) -> Result<(), Trouble> {
    if text.len() > TEXT_LIMIT {
        println!(rt; "LIMIT")?;
        return Ok(());
    }
    let (formula, log) = match read_proof(alloc, text.as_bytes()) {
        Ok(read) => read,
        Err(ProofError::Bad { line }) => {
            println!(rt; "TEXT line {line}")?;
            return Ok(());
        }
        Err(ProofError::Memory) => return Err(Trouble::Memory),
    };
    let mut scratch = Scratch::new(alloc, formula.variables)?;
    match check_log(&formula, &log, &mut scratch) {
        Ok(()) => println!(rt;
            "REFUTED formula {} log {}",
            formula.clauses.items().len(),
            log.items().len()
        )?,
        Err(bad) => println!(rt; "BADSTEP index {}", bad.index)?,
    }
    Ok(())
}
