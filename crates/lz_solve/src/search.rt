ghost use Rattle.std.specs.Prelude.{◌≡◌, ℕ, ◌+◌, ◌^◌, ◌<◌, ◌≤◌, length, slice_get, IfOk};
ghost use Rattle.lz_cnf.specs.Models.{IsFormula, NoneEmpty};
ghost use Rattle.lz_cnf.specs.Partial.{IsQuiet};
ghost use Rattle.lz_prop.specs.Trail.{IsFalseNamed, literals, entry_of, value_in};
ghost use Rattle.lz_solve.specs.Solving.{IsSolved};
ghost use Rattle.lz_solve.specs.Turns.{IsTurn};
ghost use Rattle.lz_solve.specs.Search.{AreAssigned, IsSearch, IsLearntInto};

use crate::choice::{choose, end_conflict, go_back, raise_hints};
use crate::counts::Counts;
use crate::order::Order;
use lz_analyze::{Scratch, learn_with};
use lz_base::{Memory, Sequence};
use lz_cnf::{Assignment, Cnf};
use lz_log::{Log, LogStep};
use lz_prop::{Propagated, Trail};
use std::alloc::Global;

/// What the search answers.
#[derive(Debug, Drop)]
pub enum Solved {
    /// A model.
    Sat(Assignment),
    /// A log that refutes the formula.
    Unsat(Log),
    /// The log of all conflicts that were allowed: new clauses that follow.
    Spent(Log),
}

/// What one turn of the search comes to.
#[derive(Debug, Drop)]
enum Turn {
    /// The search goes on.
    Next,
    /// A model was found.
    Found(Assignment),
    /// The empty clause was learnt.
    Refuted,
    /// The conflicts are spent.
    Over,
}

/// The values of all variables.
fn values_of(alloc: Global, trail: &Trail, variables: u32) -> Result<Assignment, Memory>
    requires variables { variables ≡ trail.now.variables }
    requires assigned { AreAssigned trail.now.set variables }
    ensures whole { IfOk result (λ values. length values ≡ variables) }
    ensures values { IfOk result (λ values. (v : ℕ) → v < variables → slice_get values v ≡ value_in (entry_of trail.now.set v)) }
{
    let mut values = Sequence::new(alloc);
    for variable in 0..variables {
        match trail.value(variable) {
            Some(value) => values.push(value)?,
            None => unreachable!(),
        }
    }
    Ok(values)
}

/// Learns from a false clause, and answers whether the clause that follows is the empty one. Else it is kept once the
/// trail has gone back, and the scores of the variables of all clauses that the analysis met rise.
fn learn_from(
    alloc: Global,
    order: &mut Order,
    scratch: &mut Scratch,
    trail: &mut Trail,
    log: &mut Log,
    clause: u32,
    count: usize,
) -> Result<bool, Memory>
    requires conflict { IsFalseNamed trail.old clause }
    requires count { count ≡ length trail.old.clauses }
    ensures { IfOk result (λ refuted. IsLearntInto trail.old log.old trail.new log.new refuted) }
{
    let learnt = learn_with(alloc, trail, scratch, clause)?;
    if learnt.clause.items().is_empty() {
        log.push(LogStep {
            clause: learnt.clause,
            hints: learnt.hints,
        })?;
        return Ok(true);
    }
    raise_hints(order, trail, learnt.hints.items(), scratch.links(), count);
    go_back(order, trail, learnt.level);
    trail.add(learnt.clause.items())?;
    log.push(LogStep {
        clause: learnt.clause,
        hints: learnt.hints,
    })?;
    end_conflict(order, trail);
    Ok(false)
}

/// A turn at a false clause.
fn turn_at_conflict(
    alloc: Global,
    formula: &Cnf,
    conflicts: u64,
    order: &mut Order,
    scratch: &mut Scratch,
    trail: &mut Trail,
    log: &mut Log,
    clause: u32,
) -> Result<Turn, Memory>
    requires search { IsSearch formula.now conflicts trail.old log.old }
    requires conflict { IsFalseNamed trail.old clause }
    requires room { length formula.now.clauses + conflicts < 2 ^ 32 }
    ensures { IfOk result (λ turn. IsTurn formula.now conflicts trail.old log.old trail.new log.new turn) }
{
    let count = formula.clauses.items().len() + log.items().len();
    if learn_from(alloc, order, scratch, trail, log, clause, count)? {
        return Ok(Turn::Refuted);
    }
    if log.items().len() as u64 == conflicts {
        return Ok(Turn::Over);
    }
    Ok(Turn::Next)
}

/// A turn where no clause is unit or false: a decision, or a model.
fn turn_at_quiet(
    alloc: Global,
    formula: &Cnf,
    conflicts: u64,
    order: &mut Order,
    trail: &mut Trail,
    log: &Log,
    counts: &mut Counts,
) -> Result<Turn, Memory>
    requires search { IsSearch formula.now conflicts trail.old log.now }
    requires quiet { IsQuiet (literals trail.old.set) trail.old.clauses }
    ensures { IfOk result (λ turn. IsTurn formula.now conflicts trail.old log.now trail.new log.now turn) }
{
    match choose(order, trail, formula.variables) {
        Some(variable) => {
            order.begin_level(trail.order().len());
            trail.decide(order.literal_of(variable));
            counts.decided();
            Ok(Turn::Next)
        }
        None => {
            let values = values_of(alloc, trail, formula.variables)?;
            Ok(Turn::Found(values))
        }
    }
}

/// One turn: propagates, then learns or decides.
fn take_turn(
    alloc: Global,
    formula: &Cnf,
    conflicts: u64,
    order: &mut Order,
    scratch: &mut Scratch,
    trail: &mut Trail,
    log: &mut Log,
    counts: &mut Counts,
) -> Result<Turn, Memory>
    requires search { IsSearch formula.now conflicts trail.old log.old }
    requires room { length formula.now.clauses + conflicts < 2 ^ 32 }
    ensures { IfOk result (λ turn. IsTurn formula.now conflicts trail.old log.old trail.new log.new turn) }
{
    let before = trail.order().len();
    let propagated = trail.propagate()?;
    counts.propagated(before, trail.order().len());
    match propagated {
        Propagated::Conflict { clause } => {
            counts.ran_into_conflict();
            turn_at_conflict(
                alloc, formula, conflicts, order, scratch, trail, log, clause,
            )
        }
        Propagated::Quiet => turn_at_quiet(alloc, formula, conflicts, order, trail, log, counts),
    }
}

/// Decides a formula within a number of conflicts: a model, a log that refutes it, or exactly so many new clauses that
/// follow.
pub fn solve(alloc: Global, formula: &Cnf, conflicts: u64) -> Result<Solved, Memory>
    requires formula { IsFormula formula.now }
    requires not_empty { NoneEmpty formula.now.clauses }
    requires conflicts { 1 ≤ conflicts }
    requires room { length formula.now.clauses + conflicts < 2 ^ 32 }
    ensures { IfOk result (λ s. IsSolved formula.now conflicts s) }
{
    let mut counts = Counts::new();
    solve_counted(alloc, formula, conflicts, &mut counts)
}

/// Decides a formula as `solve` does, and adds to the counts what it did.
pub fn solve_counted(
    alloc: Global,
    formula: &Cnf,
    conflicts: u64,
    counts: &mut Counts,
) -> Result<Solved, Memory>
    requires formula { IsFormula formula.now }
    requires not_empty { NoneEmpty formula.now.clauses }
    requires conflicts { 1 ≤ conflicts }
    requires room { length formula.now.clauses + conflicts < 2 ^ 32 }
    ensures { IfOk result (λ s. IsSolved formula.now conflicts s) }
{
    let mut trail = Trail::new(alloc, formula)?;
    let mut order = Order::new(alloc, formula.variables)?;
    let mut scratch = Scratch::new(alloc);
    let mut log = Sequence::new(alloc);
    loop {
        let turn = take_turn(
            alloc,
            formula,
            conflicts,
            &mut order,
            &mut scratch,
            &mut trail,
            &mut log,
            counts,
        )?;
        match turn {
            Turn::Next => {}
            Turn::Found(values) => return Ok(Solved::Sat(values)),
            Turn::Refuted => return Ok(Solved::Unsat(log)),
            Turn::Over => return Ok(Solved::Spent(log)),
        }
    }
}
