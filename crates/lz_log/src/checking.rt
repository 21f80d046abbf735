//! Whether a log refutes its formula: each step is checked by its hints alone.
ghost use Rattle.std.specs.Prelude.{◌≡◌, ◌↔◌, ℕ, ◌*◌, ◌<◌, ◌≤◌, IsTrue, IsFalse, List, [], ◌∷◌, length, IfOk, IfSome, IsNone, MatchResult};
ghost use Rattle.std.specs.List.{All, Any, Contains};
ghost use Rattle.lz_cnf.specs.Models.{IsFormula, variable_of, negated};
ghost use Rattle.lz_cnf.specs.Partial.{IsNamed};
ghost use Rattle.lz_cnf.specs.declared.clause.Lit.{Lit};
ghost use Rattle.lz_log.specs.Checking.{IsFirstBad, IsProper, AreBelow, GoesOn, Leads, Stops};
ghost use Rattle.lz_log.specs.Marks.{AreStamps, Mark, Stands};
ghost use Rattle.lz_log.specs.Refutation.{IsByHints, Refutes, known_clauses};
ghost use Rattle.lz_log.specs.declared.marks.Standing.TheVariants.{AllFalse, OneLeft};

use crate::log::{Log, LogStep};
use crate::marks::{Marks, Standing};
use lz_base::Memory;
use lz_cnf::{Cnf, Lit};
use std::alloc::Global;
use std::marker::Model;

/// The first step of a log that does not follow by its hints, counted from 0; the log's length where each step follows
/// and none is the empty clause.
#[derive(Clone, Copy, Debug, PartialEq, Eq)]
pub struct BadStep {
    pub index: u64,
}

/// Room for the check of logs over so many variables.
#[derive(Drop)]
pub struct Scratch {
    variables: u32,
    marks: Marks,
}

impl Model for Scratch {
    ghost use Rattle.std.specs.Prelude.{◌≡◌, ◌*◌, ℕ, length};
    ghost use Rattle.lz_log.specs.Marks.{AreStamps};

    ghost Value = { ℕ };

    ghost view = { λ s. s.variables };

    ghost invariant = { λ s. (length s.marks.stamps.items ≡ s.variables * 2) × AreStamps s.marks };
}

impl Scratch {
    /// Room for formulas of at most so many variables.
    pub fn new(alloc: Global, variables: u32) -> Result<Scratch, Memory>
        ensures { IfOk result (λ scratch. scratch ≡ variables) }
    {
        let marks = Marks::new(alloc, variables)?;
        Ok(Scratch { variables, marks })
    }
}

/// Checks that a log refutes its formula, in time linear in the literals of the steps and of the clauses that the hints
/// name. Takes no memory.
pub fn check_log(formula: &Cnf, log: &Log, scratch: &mut Scratch) -> Result<(), BadStep>
    requires formula { IsFormula formula.now }
    requires room { formula.now.variables ≤ scratch.old }
    ensures exact { MatchResult result (λ _. Refutes formula.now log.now) (λ bad. IsFirstBad formula.now log.now bad.index) }
    ensures room { scratch.new ≡ scratch.old }
{
    check_steps(formula, log.items(), &mut scratch.marks)
}

/// Checks the steps of a log.
fn check_steps(formula: &Cnf, steps: &[LogStep], marks: &mut Marks) -> Result<(), BadStep>
    requires formula { IsFormula formula.now }
    requires room { formula.now.variables * 2 ≤ length marks.old.stamps.items }
    requires stamps { AreStamps marks.old }
    ensures exact { MatchResult result (λ _. Refutes formula.now steps.now) (λ bad. IsFirstBad formula.now steps.now bad.index) }
    ensures room { length marks.new.stamps.items ≡ length marks.old.stamps.items }
    ensures stamps { AreStamps marks.new }
{
    for index in 0..steps.len() {
        if !follows(formula, &steps[..index], &steps[index], marks) {
            return Err(BadStep {
                index: index as u64,
            });
        }
    }
    if has_empty(steps) {
        return Ok(());
    }
    Err(BadStep {
        index: steps.len() as u64,
    })
}

/// Whether some step is the empty clause.
fn has_empty(steps: &[LogStep]) -> bool
    ensures { IsTrue result ↔ Any (λ step. step.clause ≡ []) steps.now }
{
    for step in steps {
        if step.clause.items().is_empty() {
            return true;
        }
    }
    false
}

/// Whether a step follows by its hints from the formula and the earlier steps.
fn follows(formula: &Cnf, earlier: &[LogStep], step: &LogStep, marks: &mut Marks) -> bool
    requires known { AreBelow formula.now.variables (known_clauses formula.now earlier.now) }
    requires room { formula.now.variables * 2 ≤ length marks.old.stamps.items }
    requires stamps { AreStamps marks.old }
    ensures exact { IsTrue result ↔ IsByHints formula.now earlier.now step.now }
    ensures room { length marks.new.stamps.items ≡ length marks.old.stamps.items }
    ensures stamps { AreStamps marks.new }
{
    marks.begin();
    if !mark_clause(formula.variables, step.clause.items(), marks) {
        return false;
    }
    leads_to_false(formula, earlier, step.hints.items(), marks)
}

/// Marks the literals of a step's clause, unless a variable stands in it in both signs or is not one of the formula's.
fn mark_clause(variables: u32, clause: &[Lit], marks: &mut Marks) -> bool
    requires room { variables * 2 ≤ length marks.old.stamps.items }
    requires none { Mark marks.old [] }
    ensures proper { IsTrue result → IsProper variables clause.now × Mark marks.new clause.now }
    ensures improper { IsFalse result → IsProper variables clause.now → ⊥ }
    ensures room { length marks.new.stamps.items ≡ length marks.old.stamps.items }
    ensures stamps { AreStamps marks.old → AreStamps marks.new }
{
    for lit in clause {
        if lit.variable() >= variables {
            return false;
        }
        if marks.is_false(lit.negated()) {
            return false;
        }
        marks.mark(*lit);
    }
    true
}

/// Whether the hints lead to a false clause, where the marked literals are false.
fn leads_to_false(formula: &Cnf, earlier: &[LogStep], hints: &[u32], marks: &mut Marks) -> bool
    requires known { AreBelow formula.now.variables (known_clauses formula.now earlier.now) }
    requires room { formula.now.variables * 2 ≤ length marks.old.stamps.items }
    requires marked { (false_ : List Lit) × Mark marks.old false_ }
    ensures exact { (false_ : List Lit) → Mark marks.old false_ → IsTrue result ↔ Leads (known_clauses formula.now earlier.now) false_ hints.now }
    ensures room { length marks.new.stamps.items ≡ length marks.old.stamps.items }
    ensures stamps { AreStamps marks.old → AreStamps marks.new }
{
    if hints.is_empty() {
        return false;
    }
    let last = hints.len() - 1;
    for index in 0..last {
        if !propagates(formula, earlier, hints[index], marks) {
            return false;
        }
    }
    is_refuted(formula, earlier, hints[last], marks)
}

/// Whether the hint names a clause with one literal that is not false, which becomes true.
fn propagates(formula: &Cnf, earlier: &[LogStep], hint: u32, marks: &mut Marks) -> bool
    requires known { AreBelow formula.now.variables (known_clauses formula.now earlier.now) }
    requires room { formula.now.variables * 2 ≤ length marks.old.stamps.items }
    requires marked { (false_ : List Lit) × Mark marks.old false_ }
    ensures goes { (false_ : List Lit) → Mark marks.old false_ → IsTrue result
        → (unit : Lit) × Mark marks.new (negated unit ∷ false_)
        × GoesOn (known_clauses formula.now earlier.now) false_ (negated unit ∷ false_) hint }
    ensures stops { (false_ : List Lit) → Mark marks.old false_ → IsFalse result → Stops (known_clauses formula.now earlier.now) false_ hint }
    ensures room { length marks.new.stamps.items ≡ length marks.old.stamps.items }
    ensures stamps { AreStamps marks.old → AreStamps marks.new }
{
    match named(formula, earlier, hint) {
        None => false,
        Some(clause) => match marks.standing(clause) {
            Standing::OneLeft(unit) => {
                marks.mark(unit.negated());
                true
            }
            Standing::AllFalse => false,
            Standing::TwoLeft => false,
        },
    }
}

/// Whether the hint names a clause of which each literal is false.
fn is_refuted(formula: &Cnf, earlier: &[LogStep], hint: u32, marks: &Marks) -> bool
    requires known { AreBelow formula.now.variables (known_clauses formula.now earlier.now) }
    requires room { formula.now.variables * 2 ≤ length marks.now.stamps.items }
    ensures { (false_ : List Lit) → Mark marks.now false_ → IsTrue result ↔ Leads (known_clauses formula.now earlier.now) false_ (hint ∷ []) }
{
    match named(formula, earlier, hint) {
        None => false,
        Some(clause) => match marks.standing(clause) {
            Standing::AllFalse => true,
            Standing::OneLeft(_) => false,
            Standing::TwoLeft => false,
        },
    }
}

/// The clause that a hint names: those of the formula are numbered from 1, and the earlier steps go on behind them.
fn named<'a>(formula: &'a Cnf, earlier: &'a [LogStep], hint: u32) -> Option<&'a [Lit]>
    ensures some { IfSome result (λ clause. IsNamed (known_clauses formula.now earlier.now) hint clause.now) }
    ensures none { IsNone result → (clause : List Lit) → IsNamed (known_clauses formula.now earlier.now) hint clause → ⊥ }
{
    if hint == 0 {
        return None;
    }
    let place = hint as usize - 1;
    let clauses = formula.clauses.items();
    if place < clauses.len() {
        return Some(clauses[place].items());
    }
    let place = place - clauses.len();
    if place < earlier.len() {
        return Some(earlier[place].clause.items());
    }
    None
}
