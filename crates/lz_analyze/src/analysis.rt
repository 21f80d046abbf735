ghost use Rattle.std.specs.Prelude.{◌≡◌, ℕ, ◌-◌, ◌<◌, ◌≤◌, ◌⊎◌, [], ◌∷◌, ◌++◌, Some, slice_index_or, reverse, IfOk, OnOk};
ghost use Rattle.std.specs.List.{All};
ghost use Rattle.lz_cnf.specs.Models.{variable_of, negated};
ghost use Rattle.lz_prop.specs.Trail.{Entry, IsTrail, IsFalseNamed, entry_of, level_in};
ghost use Rattle.lz_analyze.specs.Highest.{IsHighest};
ghost use Rattle.lz_analyze.specs.Walking.{IsWalkOver, IsAtPoint};
ghost use Rattle.lz_analyze.specs.Chains.{IsShorter};
ghost use Rattle.lz_analyze.specs.LearntFrom.{IsLearntFrom};

use crate::finder::Finder;
use crate::shorter::Shorter;
use crate::walk::Walk;
use lz_base::{Memory, Sequence};
use lz_cnf::{Clause, Lit};
use lz_log::Hints;
use lz_prop::Trail;
use std::alloc::Global;

/// What was learnt from a conflict.
#[derive(Debug, Drop)]
pub struct Learnt {
    /// The clause; empty where the conflict is at level 0.
    pub clause: Clause,
    /// The hints by which it follows from the kept clauses.
    pub hints: Hints,
    /// The level to go back to.
    pub level: u32,
}

/// Hints, and after them numbers from the last to the first.
fn reversed(alloc: Global, links: &[u32], numbers: &[u32]) -> Result<Hints, Memory>
    ensures { IfOk result (λ all. all ≡ links.now ++ reverse numbers.now) }
{
    let mut all = Sequence::new(alloc);
    all.append(links)?;
    let mut left = numbers.len();
    while left > 0 {
        left -= 1;
        all.push(numbers[left])?;
    }
    Ok(all)
}

/// The level at which a variable was set, or 0.
fn level_or_zero(trail: &Trail, variable: u32) -> u32
    requires { variable < trail.now.variables }
    ensures told { (own : ℕ) → level_in (entry_of trail.now.set variable) ≡ Some own → own ≡ result }
    ensures reached { (result ≡ 0) ⊎ (level_in (entry_of trail.now.set variable) ≡ Some result) }
{
    match trail.level_of(variable) {
        Some(own) => own,
        None => 0,
    }
}

/// The greatest level at which one of the literals was set, or 0.
fn highest(trail: &Trail, lits: &[Lit]) -> u32
    requires { All (λ lit. variable_of lit < trail.now.variables) lits.now }
    ensures { IsHighest trail.now.set lits.now result }
{
    let mut level = 0;
    for lit in lits {
        let own = level_or_zero(trail, lit.0 / 2);
        if own > level {
            level = own;
        }
    }
    level
}

/// The clause at the first unique implication point, below which the walk stands.
fn clause_of(alloc: Global, last: Lit, low: &[Lit]) -> Result<Clause, Memory>
    ensures { IfOk result (λ clause. clause ≡ last ∷ low.now) }
{
    let mut clause = Sequence::new(alloc);
    clause.push(last)?;
    clause.append(low)?;
    Ok(clause)
}

/// Lets a walk begin and meet the false clause.
fn start(trail: &Trail, level: u32, walk: &mut Walk, conflict: u32) -> Result<(), Memory>
    requires trail { IsTrail trail.now }
    requires level { level ≡ trail.now.level }
    requires conflict { IsFalseNamed trail.now conflict }
    ensures walk { OnOk result (IsWalkOver trail.now [] walk.new) }
    ensures enough { OnOk result (0 < trail.now.level → 1 ≤ walk.new.pending) }
{
    walk.begin(trail, conflict)?;
    walk.look(trail, level, trail.clause(conflict))?;
    Ok(())
}

/// The empty clause, by the hints of a walk at level 0.
fn empty_clause(alloc: Global, trail: &Trail, walk: &mut Walk) -> Result<Learnt, Memory>
    requires trail { IsTrail trail.now }
    requires level { 0 ≡ trail.now.level }
    requires walk { IsWalkOver trail.now [] walk.old }
    ensures { IfOk result (λ l. IsLearntFrom trail.now l.clause l.hints l.level) }
{
    walk.run(trail, 0, 0)?;
    let hints = reversed(alloc, &[], &walk.hints)?;
    Ok(Learnt {
        clause: Sequence::new(alloc),
        hints,
        level: 0,
    })
}

/// Lets a walk above level 0 go down to the first unique implication point.
fn reach_point(trail: &Trail, level: u32, walk: &mut Walk) -> Result<(), Memory>
    requires trail { IsTrail trail.now }
    requires level { level ≡ trail.now.level }
    requires walk { IsWalkOver trail.now [] walk.old }
    requires enough { 1 ≤ walk.old.pending }
    ensures { OnOk result (IsAtPoint trail.now walk.new) }
{
    walk.run(trail, level, 1)?;
    walk.descend(trail, level);
    Ok(())
}

/// The literal of the clause at the first unique implication point.
fn point_of(trail: &Trail, walk: &Walk) -> Lit
    requires { IsAtPoint trail.now walk.now }
    ensures { (d : Entry) → result ≡ negated (slice_index_or trail.now.set (walk.now.at - 1) d).lit }
{
    trail.order()[walk.at - 1].negated()
}

/// The clause at the first unique implication point with all literals below the present level.
fn whole_clause(alloc: Global, trail: &Trail, walk: &Walk, point: Lit) -> Result<Learnt, Memory>
    requires trail { IsTrail trail.now }
    requires above { 0 < trail.now.level }
    requires walk { IsAtPoint trail.now walk.now }
    requires point { (d : Entry) → point ≡ negated (slice_index_or trail.now.set (walk.now.at - 1) d).lit }
    ensures { IfOk result (λ l. IsLearntFrom trail.now l.clause l.hints l.level) }
{
    let clause = clause_of(alloc, point, &walk.low)?;
    let hints = reversed(alloc, &[], &walk.hints)?;
    Ok(Learnt {
        clause,
        hints,
        level: highest(trail, &walk.low),
    })
}

/// The clause at the first unique implication point without the literals that the others make false.
fn short_clause(
    alloc: Global,
    trail: &Trail,
    walk: &Walk,
    shorter: &Shorter,
    point: Lit,
) -> Result<Learnt, Memory>
    requires trail { IsTrail trail.now }
    requires above { 0 < trail.now.level }
    requires walk { IsAtPoint trail.now walk.now }
    requires point { (d : Entry) → point ≡ negated (slice_index_or trail.now.set (walk.now.at - 1) d).lit }
    requires shorter { IsShorter trail.now point walk.now.low.items shorter.now.kept.items shorter.now.links.items }
    ensures { IfOk result (λ l. IsLearntFrom trail.now l.clause l.hints l.level) }
{
    let clause = clause_of(alloc, point, &shorter.kept)?;
    let hints = reversed(alloc, &shorter.links, &walk.hints)?;
    Ok(Learnt {
        clause,
        hints,
        level: highest(trail, &shorter.kept),
    })
}

/// What the analysis of conflicts works with, kept from conflict to conflict so that none makes it anew. Any scratch
/// serves any trail.
#[derive(Drop)]
pub struct Scratch {
    walk: Walk,
    finder: Finder,
    shorter: Shorter,
}

impl Scratch {
    /// A scratch that takes memory where it is used.
    pub fn new(alloc: Global) -> Scratch {
        Scratch {
            walk: Walk::new(alloc),
            finder: Finder::new(alloc),
            shorter: Shorter::new(alloc),
        }
    }

    /// How many of the hints of the clause that was learnt last stand before those of the clauses that the analysis met:
    /// the reasons by which literals were left out.
    pub fn links(&self) -> usize {
        self.shorter.links.len()
    }
}

/// The clause at the first unique implication point, by the hints of a walk above level 0.
fn point_clause(
    alloc: Global,
    trail: &Trail,
    level: u32,
    scratch: &mut Scratch,
) -> Result<Learnt, Memory>
    requires trail { IsTrail trail.now }
    requires level { level ≡ trail.now.level }
    requires above { 0 < level }
    requires walk { IsWalkOver trail.now [] scratch.old.walk }
    requires enough { 1 ≤ scratch.old.walk.pending }
    ensures { IfOk result (λ l. IsLearntFrom trail.now l.clause l.hints l.level) }
{
    reach_point(trail, level, &mut scratch.walk)?;
    let point = point_of(trail, &scratch.walk);
    scratch.finder.find(trail, &scratch.walk.low, point.0 / 2)?;
    if scratch
        .shorter
        .shorten(trail, &scratch.finder, point, &scratch.walk.low)?
    {
        return short_clause(alloc, trail, &scratch.walk, &scratch.shorter, point);
    }
    scratch.shorter.forget_links();
    whole_clause(alloc, trail, &scratch.walk, point)
}

/// The clause that is learnt from a false clause: the empty one exactly at level 0, else the one at the first unique
/// implication point.
pub fn learn(alloc: Global, trail: &Trail, conflict: u32) -> Result<Learnt, Memory>
    requires { IsFalseNamed trail.now conflict }
    ensures { IfOk result (λ l. IsLearntFrom trail.now l.clause l.hints l.level) }
{
    let mut scratch = Scratch::new(alloc);
    learn_with(alloc, trail, &mut scratch, conflict)
}

/// What `learn` answers, in a scratch that was used before.
pub fn learn_with(
    alloc: Global,
    trail: &Trail,
    scratch: &mut Scratch,
    conflict: u32,
) -> Result<Learnt, Memory>
    requires { IsFalseNamed trail.now conflict }
    ensures { IfOk result (λ l. IsLearntFrom trail.now l.clause l.hints l.level) }
{
    let level = trail.level();
    start(trail, level, &mut scratch.walk, conflict)?;
    if level == 0 {
        return empty_clause(alloc, trail, &mut scratch.walk);
    }
    point_clause(alloc, trail, level, scratch)
}
