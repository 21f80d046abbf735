ghost use Rattle.std.specs.Prelude.{◌≡◌, ℕ, ◌+◌, ◌-◌, ◌<◌, ◌≤◌, List, [], ◌∷◌, length, slice_index_or, true, Some, IsSome, IsTrue, ◌↔◌, OnOk, IfOk};
ghost use Rattle.std.specs.List.{All, Contains};
ghost use Rattle.lz_cnf.specs.declared.clause.Lit.{Lit};
ghost use Rattle.lz_cnf.specs.Models.{variable_of};
ghost use Rattle.lz_prop.specs.Trail.{Entry, IsTrail, IsFalseNamed, entry_of, level_in};
ghost use Rattle.lz_analyze.specs.Walks.{is_open};

use crate::marks::Marks;
use lz_base::Memory;
use lz_cnf::Lit;
use lz_prop::Trail;
use smallvec::SmallVec;
use std::alloc::Global;

/// A walk down the trail from a false clause: each literal of the present level that it met and that lies below its
/// place is still to be resolved by its reason. It is kept from conflict to conflict, with the memory that it has.
#[derive(Drop)]
pub struct Walk {
    /// The variables that were met.
    pub marks: Marks,
    /// The literals that were met below the present level.
    pub low: SmallVec<Lit, 16>,
    /// The clauses that were looked at, the false one first.
    pub hints: SmallVec<u32, 16>,
    /// How many entries of the present level that were met lie below the place.
    pub pending: usize,
    /// The place in the order; what lies below it is still to be walked.
    pub at: usize,
}

/// Whether a variable was set at this level.
fn is_at(trail: &Trail, variable: u32, level: u32) -> bool
    requires { variable < trail.now.variables }
    ensures { IsTrue result ↔ (level_in (entry_of trail.now.set variable) ≡ Some level) }
{
    match trail.level_of(variable) {
        Some(own) => own == level,
        None => false,
    }
}

impl Walk {
    ghost use Rattle.lz_analyze.specs.Walking.{IsMet, IsWalkOver, IsLentFrom, IsLeftAt};

    /// A walk that has not begun.
    pub fn new(alloc: Global) -> Walk {
        Walk {
            marks: Marks::new(alloc),
            low: SmallVec::new(alloc),
            hints: SmallVec::new(alloc),
            pending: 0,
            at: 0,
        }
    }

    /// Begins at the end of the order with this false clause, and forgets what was met before.
    pub fn begin(&mut self, trail: &Trail, conflict: u32) -> Result<(), Memory>
        requires trail { IsTrail trail.now }
        requires conflict { IsFalseNamed trail.now conflict }
        ensures at { OnOk result (self.new.at ≡ length trail.now.set) }
        ensures walk { OnOk result ((clause : List Lit) → IsLentFrom trail.now conflict clause → IsWalkOver trail.now clause self.new) }
    {
        self.marks.clear();
        self.low.clear();
        self.hints.clear();
        self.hints.push(conflict)?;
        self.pending = 0;
        self.at = trail.order().len();
        Ok(())
    }

    /// Meets a literal of the clause at hand, which is false or whose variable was met.
    fn meet(&mut self, trail: &Trail, level: u32, lit: Lit) -> Result<(), Memory>
        requires trail { IsTrail trail.now }
        requires level { level ≡ trail.now.level }
        requires variable { variable_of lit < trail.now.variables }
        requires met { IsMet trail.now self.old lit }
        ensures walk { OnOk result ((rest : List Lit) → IsWalkOver trail.now (lit ∷ rest) self.old → IsWalkOver trail.now rest self.new) }
        ensures own { OnOk result (Contains self.new.marks.keys (variable_of lit)) }
        ensures marks { OnOk result ((v : ℕ) → Contains self.old.marks.keys v → Contains self.new.marks.keys v) }
        ensures at { self.new.at ≡ self.old.at }
        ensures pending { self.old.pending ≤ self.new.pending }
    {
        let variable = lit.0 / 2;
        if self.marks.insert(variable)? {
            if is_at(trail, variable, level) {
                self.pending = self.pending.checked_add(1).ok_or(Memory)?;
            } else {
                self.low.push(lit)?;
            }
        }
        Ok(())
    }

    /// Meets each literal of a clause.
    pub fn look(&mut self, trail: &Trail, level: u32, clause: &[Lit]) -> Result<(), Memory>
        requires trail { IsTrail trail.now }
        requires level { level ≡ trail.now.level }
        requires variables { All (λ lit. variable_of lit < trail.now.variables) clause.now }
        requires met { All (IsMet trail.now self.old) clause.now }
        requires walk { IsWalkOver trail.now clause.now self.old }
        ensures walk { OnOk result (IsWalkOver trail.now [] self.new) }
        ensures own { OnOk result (All (λ lit. Contains self.new.marks.keys (variable_of lit)) clause.now) }
        ensures at { self.new.at ≡ self.old.at }
        ensures pending { self.old.pending ≤ self.new.pending }
    {
        for lit in clause {
            self.meet(trail, level, *lit)?;
        }
        Ok(())
    }

    /// Whether the entry below the place is one of the present level that was met.
    fn is_open(&self, trail: &Trail, level: u32) -> bool
        requires trail { IsTrail trail.now }
        requires low { 0 < self.now.at }
        requires high { self.now.at ≤ length trail.now.set }
        ensures { (d : Entry) → result ≡ is_open level self.now.marks.keys (slice_index_or trail.now.set (self.now.at - 1) d) }
    {
        let variable = trail.order()[self.at - 1].0 / 2;
        self.marks.contains(variable) && is_at(trail, variable, level)
    }

    /// Goes down to the next entry of the present level that was met.
    pub fn descend(&mut self, trail: &Trail, level: u32)
        requires trail { IsTrail trail.now }
        requires level { level ≡ trail.now.level }
        requires walk { IsWalkOver trail.now [] self.old }
        requires pending { 0 < self.old.pending }
        ensures walk { IsWalkOver trail.now [] self.new }
        ensures pending { self.new.pending ≡ self.old.pending }
        ensures at { 0 < self.new.at }
        ensures down { self.new.at ≤ self.old.at }
        ensures open { (d : Entry) → is_open level self.new.marks.keys (slice_index_or trail.now.set (self.new.at - 1) d) ≡ true }
    {
        while !self.is_open(trail, level) {
            self.at -= 1;
        }
    }

    /// Resolves the entry below the place by its reason.
    fn resolve(&mut self, trail: &Trail, level: u32) -> Result<(), Memory>
        requires trail { IsTrail trail.now }
        requires level { level ≡ trail.now.level }
        requires walk { IsWalkOver trail.now [] self.old }
        requires pending { 0 < self.old.pending }
        requires at { 0 < self.old.at }
        requires open { (d : Entry) → is_open level self.old.marks.keys (slice_index_or trail.now.set (self.old.at - 1) d) ≡ true }
        requires given { (d : Entry) → IsSome (slice_index_or trail.now.set (self.old.at - 1) d).reason }
        ensures walk { OnOk result (IsWalkOver trail.now [] self.new) }
        ensures at { OnOk result (self.new.at < self.old.at) }
        ensures pending { OnOk result (self.old.pending ≤ self.new.pending + 1) }
    {
        self.at -= 1;
        self.pending -= 1;
        let variable = trail.order()[self.at].0 / 2;
        if let Some(number) = trail.reason(variable) {
            self.hints.push(number)?;
            self.look(trail, level, trail.clause(number))?;
        }
        Ok(())
    }

    /// Resolves until so many entries of the present level are left: none at level 0, else one.
    pub fn run(&mut self, trail: &Trail, level: u32, left: usize) -> Result<(), Memory>
        requires trail { IsTrail trail.now }
        requires level { level ≡ trail.now.level }
        requires walk { IsWalkOver trail.now [] self.old }
        requires left { IsLeftAt level left }
        requires enough { left ≤ self.old.pending }
        ensures walk { OnOk result (IsWalkOver trail.now [] self.new) }
        ensures left { OnOk result (self.new.pending ≡ left) }
    {
        while self.pending > left {
            self.descend(trail, level);
            self.resolve(trail, level)?;
        }
        Ok(())
    }
}
