ghost use Rattle.std.specs.Prelude.{◌≡◌, ℕ, ◌+◌, ◌*◌, ◌<◌, ◌≤◌, length, IsTrue, IsErr, is_err, IfOk, OnOk, OnErr};
ghost use Rattle.std.specs.List.{All};
ghost use Rattle.lz_cnf.specs.Models.{variable_bound, variable_of, IsFormula, NoneEmpty};
ghost use Rattle.lz_cnf.specs.Partial.{IsUnassigned, IsQuiet};
ghost use Rattle.lz_prop.specs.Trail.{IsTrail, literals, entry_of, value_in, level_in, reason_in, opening, decided, gone_back, with_clause, given_up, Extends, IsApart, WasOpen, HoldsClause};
ghost use Rattle.lz_prop.specs.Outcome.{IsOutcome};

use crate::inner::Inner;
use lz_base::Memory;
use lz_cnf::{Cnf, Lit};
use std::alloc::Global;
use std::marker::Model;

/// What propagation found.
#[derive(Clone, Copy, Debug, PartialEq, Eq)]
pub enum Propagated {
    /// No kept clause is unit or false.
    Quiet,
    /// The kept clause of this number is false.
    Conflict { clause: u32 },
}

/// The literals that are true, in the order in which they were set, with their levels and reasons, and the kept
/// clauses. Clauses are numbered from 1, the formula's first and then the added ones.
#[derive(Drop)]
pub struct Trail {
    inner: Inner,
}

impl Model for Trail {
    ghost use Rattle.lz_prop.specs.Trail.{TrailState};

    ghost Value = { TrailState };

    ghost use Rattle.lz_prop.specs.Kept.{state_of, IsKept};

    ghost view = { λ t. state_of t.inner };

    ghost invariant = { λ t. IsKept t.inner };
}

impl Trail {
    /// A trail that keeps the formula's clauses, with nothing set.
    pub fn new(alloc: Global, formula: &Cnf) -> Result<Trail, Memory>
        requires formula { IsFormula formula.now }
        requires not_empty { NoneEmpty formula.now.clauses }
        ensures opening { IfOk result (λ t. t ≡ opening formula.now) }
        ensures trail { IfOk result (λ t. IsTrail t) }
        ensures few { IfOk result (λ t. t.variables ≤ variable_bound) }
    {
        let inner = Inner::new(alloc, formula)?;
        Ok(Trail { inner })
    }

    /// The number of variables. Takes no memory.
    pub fn variables(&self) -> u32
        ensures { result ≡ self.now.variables }
    {
        self.inner.variables
    }

    /// The number of kept clauses. Takes no memory.
    pub fn clauses(&self) -> usize
        ensures { result ≡ length self.now.clauses }
    {
        self.inner.store.len()
    }

    /// The present level. Takes no memory.
    pub fn level(&self) -> u32
        ensures level { result ≡ self.now.level }
        ensures trail { IsTrail self.now }
    {
        self.inner.level()
    }

    /// The true literals, in the order in which they were set. Takes no memory.
    pub fn order(&self) -> &[Lit]
        ensures { result.now ≡ literals self.now.set }
    {
        &self.inner.table.order
    }

    /// The value of a variable. Takes no memory.
    pub fn value(&self, variable: u32) -> Option<bool>
        requires { variable < self.now.variables }
        ensures { result ≡ value_in (entry_of self.now.set variable) }
    {
        self.inner.table.value(variable)
    }

    /// The level at which a variable was set. Takes no memory.
    pub fn level_of(&self, variable: u32) -> Option<u32>
        requires { variable < self.now.variables }
        ensures { result ≡ level_in (entry_of self.now.set variable) }
    {
        self.inner.table.level_of(variable)
    }

    /// The number of the clause that made a variable's literal true. A decided variable and one without a value have
    /// none. Takes no memory.
    pub fn reason(&self, variable: u32) -> Option<u32>
        requires { variable < self.now.variables }
        ensures { result ≡ reason_in (entry_of self.now.set variable) }
    {
        self.inner.table.reason(variable)
    }

    /// The literals of the kept clause of this number, counted from 1, in any order. Takes no memory.
    pub fn clause(&self, number: u32) -> &[Lit]
        requires low { 0 < number }
        requires high { number ≤ length self.now.clauses }
        ensures { HoldsClause self.now number result.now }
    {
        self.inner.store.clause(number as usize - 1)
    }

    /// Opens a level with its decision. Takes no memory.
    pub fn decide(&mut self, lit: Lit)
        requires variable { variable_of lit < self.old.variables }
        requires unassigned { IsUnassigned (literals self.old.set) lit }
        requires quiet { IsQuiet (literals self.old.set) self.old.clauses }
        ensures decided { self.new ≡ decided self.old lit }
        ensures trail { IsTrail self.new }
    {
        self.inner.decide(lit);
    }

    /// Sets what follows from the kept clauses by unit propagation. For want of memory some of it is set, and the
    /// trail is spent: it answers so from then on.
    pub fn propagate(&mut self) -> Result<Propagated, Memory>
        ensures extends { Extends self.old self.new }
        ensures trail { IsTrail self.new }
        ensures outcome { IfOk result (λ answer. IsOutcome self.new answer) }
        ensures memory { self.new.spent ≡ is_err result }
        ensures spent { IsTrue self.old.spent → IsErr result }
    {
        if self.inner.spent {
            return Err(Memory);
        }
        if let Some(at) = self.inner.propagate() {
            return Ok(Propagated::Conflict {
                clause: at as u32 + 1,
            });
        }
        Ok(Propagated::Quiet)
    }

    /// Goes back to a level. Takes no memory.
    pub fn back(&mut self, level: u32)
        requires { level ≤ self.old.level }
        ensures back { self.new ≡ gone_back self.old level }
        ensures trail { IsTrail self.new }
    {
        self.inner.back(level as usize);
    }

    /// Keeps a clause, and answers its number. For want of memory the trail stays as it was, but it is spent: it
    /// answers so from then on.
    pub fn add(&mut self, clause: &[Lit]) -> Result<u32, Memory>
        requires variables { All (λ l. variable_of l < self.old.variables) clause.now }
        requires not_empty { 0 < length clause.now }
        requires apart { IsApart clause.now }
        requires open { WasOpen self.old self.old.level clause.now }
        ensures ok { IfOk result (λ number. number ≡ length self.new.clauses) }
        ensures kept { OnOk result (self.new ≡ with_clause self.old clause.now) }
        ensures err { OnErr result (self.new ≡ given_up self.old) }
        ensures spent { IsTrue self.old.spent → IsErr result }
        ensures trail { IsTrail self.new }
    {
        self.inner.add(clause)
    }
}
