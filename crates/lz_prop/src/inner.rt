ghost use Rattle.std.specs.Prelude.{◌≡◌, ◌+◌, ◌-◌, ◌*◌, ◌/◌, ◌<◌, ◌≤◌, [], ◌∷◌, ◌++◌, length, take, List, slice_index_or, IsTrue, IsErr, IfOk, OnOk, OnErr};
ghost use Rattle.std.specs.List.{All, Contains};
ghost use Rattle.std.specs.Vec.{vec_capacity};
ghost use Rattle.lz_cnf.specs.declared.clause.Lit.{Lit};
ghost use Rattle.lz_cnf.specs.Models.{variable_of, negated, IsFormula, NoneEmpty};
ghost use Rattle.lz_cnf.specs.Partial.{IsUnassigned, IsQuiet};
ghost use Rattle.lz_prop.specs.Trail.{RestsOn, opening, decided, gone_back, with_clause, given_up, WasOpen};
ghost use Rattle.lz_prop.specs.Stored.{IsStore, clauses_of};
ghost use Rattle.lz_prop.specs.Watch.{twin};
ghost use Rattle.lz_prop.specs.Watchers.{guards_of};
ghost use Rattle.lz_prop.specs.Guarded.{IsGuarded, WasGuarded};
ghost use Rattle.lz_prop.specs.Kept.{IsKept, state_of};
ghost use Rattle.lz_prop.specs.Scan.{AreOthersFalse, IsLeft, IsOther, IsLeftFound, IsOtherFound, IsLast};
ghost use Rattle.lz_prop.specs.Further.{IsFurther, IsForced, IsLooked, IsLookedThrough, IsVisited, IsHandled, IsPropagated};
ghost use Rattle.lz_prop.specs.Walk.{IsWalk, IsTurn, IsTurned};

use crate::scan::{find_left, find_other, last_set};
use crate::store::Store;
use crate::table::Table;
use crate::watch::{Watch, twin};
use lz_base::Memory;
use lz_cnf::{Cnf, Lit};
use std::alloc::Global;

/// 2^31: no formula has more variables, since a literal is a number of 32 bits.
const VARIABLE_BOUND: u32 = 2_147_483_648;

/// The parts of a trail. Each clause that was looked at has two watchers, of literals of its own: where one of these is
/// false by a literal that was handled, the clause has a true literal. This holds at each decision too, by what was true
/// and handled then, so that going back changes no watcher.
#[derive(Drop)]
pub struct Inner {
    /// The number of variables.
    pub variables: u32,
    pub store: Store,
    pub table: Table,
    /// For each level from 1 on how many literals were true when it was decided.
    pub starts: Vec<u32>,
    /// For each level from 1 on how many literals were handled when it was decided.
    pub fronts: Vec<u32>,
    /// The watchers of the clauses that were looked at.
    pub watch: Watch,
    /// How many literals of the order were handled: the watchers of the literals that they make false were looked at.
    pub head: usize,
    /// How many clauses were looked at since they were added.
    pub seen: usize,
    /// Whether memory was wanting.
    pub spent: bool,
}

/// The store of a formula's clauses.
fn store_of(alloc: Global, formula: &Cnf) -> Result<Store, Memory>
    ensures store { IfOk result (λ s. IsStore s) }
    ensures clauses { IfOk result (λ s. clauses_of s ≡ formula.now.clauses) }
{
    let mut store = Store::new(alloc)?;
    for clause in formula.clauses.items() {
        store.keep(clause.items())?;
    }
    Ok(store)
}

impl Inner {
    /// The parts of a trail with the formula's clauses and nothing set.
    pub fn new(alloc: Global, formula: &Cnf) -> Result<Inner, Memory>
        requires formula { IsFormula formula.now }
        requires not_empty { NoneEmpty formula.now.clauses }
        ensures kept { IfOk result (λ t. IsKept t) }
        ensures state { IfOk result (λ t. state_of t ≡ opening formula.now) }
    {
        if formula.variables > VARIABLE_BOUND {
            return Err(Memory);
        }
        let store = store_of(alloc, formula)?;
        let table = Table::new(alloc, formula.variables)?;
        let watch = Watch::new(alloc, formula.variables, store.len() as u32)?;
        let starts = Vec::with_capacity(alloc, formula.variables as usize)?;
        let fronts = Vec::with_capacity(alloc, formula.variables as usize)?;
        Ok(Inner {
            variables: formula.variables,
            store,
            table,
            starts,
            fronts,
            watch,
            head: 0,
            seen: 0,
            spent: false,
        })
    }

    /// The present level.
    pub fn level(&self) -> u32
        requires { IsKept self.now }
        ensures { result ≡ length self.now.starts.items }
    {
        self.starts.len() as u32
    }

    /// Opens a level with its decision.
    pub fn decide(&mut self, lit: Lit)
        requires kept { IsKept self.old }
        requires variable { variable_of lit < self.old.variables }
        requires unassigned { IsUnassigned self.old.table.order.items lit }
        requires quiet { IsQuiet self.old.table.order.items (clauses_of self.old.store) }
        ensures kept { IsKept self.new }
        ensures state { state_of self.new ≡ decided (state_of self.old) lit }
    {
        self.starts.push_reserved(self.table.order.len() as u32);
        self.fronts.push_reserved(self.head as u32);
        self.table.put(lit, self.starts.len() as u32, 0);
    }

    /// Sets a literal at the present level, by the clause of this number.
    fn imply(&mut self, lit: Lit, number: u32)
        requires kept { IsKept self.old }
        requires variable { variable_of lit < self.old.variables }
        requires unassigned { IsUnassigned self.old.table.order.items lit }
        requires rests { RestsOn (clauses_of self.old.store) (state_of self.old).set lit number }
        ensures kept { IsKept self.new }
        ensures further { IsFurther self.old self.new }
        ensures order { self.new.table.order.items ≡ self.old.table.order.items ++ lit ∷ [] }
        ensures watch { self.new.watch ≡ self.old.watch }
        ensures head { self.new.head ≡ self.old.head }
        ensures seen { self.new.seen ≡ self.old.seen }
    {
        let level = self.level();
        self.table.put(lit, level, number);
    }

    /// Makes the literal true that is left of a clause, counted from 0, if it is not false. Answers whether it is true.
    fn force(&mut self, at: usize, lit: Lit) -> bool
        requires kept { IsKept self.old }
        requires within { at < length (clauses_of self.old.store) }
        requires has { (d : List Lit) → Contains (slice_index_or (clauses_of self.old.store) at d) lit }
        requires others { (d : List Lit) → AreOthersFalse self.old.table.truths.items (slice_index_or (clauses_of self.old.store) at d) lit }
        ensures kept { IsKept self.new }
        ensures further { IsFurther self.old self.new }
        ensures watch { self.new.watch ≡ self.old.watch }
        ensures head { self.new.head ≡ self.old.head }
        ensures seen { self.new.seen ≡ self.old.seen }
        ensures forced { IsForced self.new at lit result }
    {
        if self.table.truths[lit.0 as usize] == 1 {
            return true;
        }
        if self.table.truths[lit.negated().0 as usize] == 1 {
            return false;
        }
        self.imply(lit, at as u32 + 1);
        true
    }

    /// A literal of a clause, counted from 0, that is not false.
    fn left(&self, at: usize) -> Option<Lit>
        requires kept { IsKept self.now }
        requires within { at < length (clauses_of self.now.store) }
        ensures { (d : List Lit) → IsLeftFound self.now.table.truths.items (slice_index_or (clauses_of self.now.store) at d) result }
    {
        find_left(self.store.clause(at), &self.table.truths)
    }

    /// A literal of a clause, counted from 0, that is not false and another one than this.
    fn other(&self, at: usize, lit: Lit) -> Option<Lit>
        requires kept { IsKept self.now }
        requires within { at < length (clauses_of self.now.store) }
        ensures { (d : List Lit) → IsOtherFound self.now.table.truths.items (slice_index_or (clauses_of self.now.store) at d) lit result }
    {
        find_other(self.store.clause(at), &self.table.truths, lit)
    }

    /// The literal of a clause, counted from 0, that was set at the greatest level, this one left out.
    fn last(&self, at: usize, lit: Lit) -> Lit
        requires kept { IsKept self.now }
        requires within { at < length (clauses_of self.now.store) }
        requires has { (d : List Lit) → Contains (slice_index_or (clauses_of self.now.store) at d) lit }
        ensures { (d : List Lit) → IsLast self.now.table.levels.items (slice_index_or (clauses_of self.now.store) at d) (slice_index_or (clauses_of self.now.store) at d) lit result }
    {
        last_set(self.store.clause(at), &self.table.levels, lit)
    }

    /// Gives the first clause that was not looked at its two watchers.
    fn guard(&mut self, one: Lit, other: Lit)
        requires kept { IsKept self.old }
        requires within { self.old.seen < length (clauses_of self.old.store) }
        requires now { (d : List Lit) → IsGuarded self.old.table.order.items (take self.old.head self.old.table.order.items) (slice_index_or (clauses_of self.old.store) self.old.seen d) one other }
        requires were { (d : List Lit) → WasGuarded self.old.table.order.items self.old.starts.items self.old.fronts.items (slice_index_or (clauses_of self.old.store) self.old.seen d) one other }
        ensures kept { IsKept self.new }
        ensures further { IsFurther self.old self.new }
        ensures head { self.new.head ≡ self.old.head }
        ensures seen { self.new.seen ≡ self.old.seen + 1 }
    {
        self.watch.push(one);
        self.watch.push(other);
        self.seen += 1;
    }

    /// Looks at the first clause that was not looked at: sets the literal that it leaves, and gives it its watchers.
    /// Answers whether the clause is false.
    fn look(&mut self) -> bool
        requires kept { IsKept self.old }
        requires within { self.old.seen < length (clauses_of self.old.store) }
        ensures kept { IsKept self.new }
        ensures further { IsFurther self.old self.new }
        ensures head { self.new.head ≡ self.old.head }
        ensures looked { IsLooked self.old self.new result }
    {
        match self.left(self.seen) {
            Some(lit) => self.look_beside(lit),
            None => true,
        }
    }

    /// The same, with a literal of the clause that is not false.
    fn look_beside(&mut self, lit: Lit) -> bool
        requires kept { IsKept self.old }
        requires within { self.old.seen < length (clauses_of self.old.store) }
        requires left { (d : List Lit) → IsLeft self.old.table.truths.items (slice_index_or (clauses_of self.old.store) self.old.seen d) lit }
        ensures kept { IsKept self.new }
        ensures further { IsFurther self.old self.new }
        ensures head { self.new.head ≡ self.old.head }
        ensures looked { IsLooked self.old self.new result }
    {
        match self.other(self.seen, lit) {
            Some(other) => {
                self.guard(lit, other);
                false
            }
            None => self.look_alone(lit),
        }
    }

    /// The same, with the only literal of the clause that is not false.
    fn look_alone(&mut self, lit: Lit) -> bool
        requires kept { IsKept self.old }
        requires within { self.old.seen < length (clauses_of self.old.store) }
        requires left { (d : List Lit) → IsLeft self.old.table.truths.items (slice_index_or (clauses_of self.old.store) self.old.seen d) lit }
        requires others { (d : List Lit) → AreOthersFalse self.old.table.truths.items (slice_index_or (clauses_of self.old.store) self.old.seen d) lit }
        ensures kept { IsKept self.new }
        ensures further { IsFurther self.old self.new }
        ensures head { self.new.head ≡ self.old.head }
        ensures looked { IsLooked self.old self.new result }
    {
        if !self.force(self.seen, lit) {
            return true;
        }
        let last = self.last(self.seen, lit);
        self.guard(lit, last);
        false
    }

    /// Looks at the clauses that were not looked at. Answers the first false one, counted from 0.
    fn look_at_new(&mut self) -> Option<usize>
        requires kept { IsKept self.old }
        ensures kept { IsKept self.new }
        ensures further { IsFurther self.old self.new }
        ensures outcome { IsLookedThrough self.new result }
    {
        while self.seen < self.store.len() {
            if self.look() {
                return Some(self.seen);
            }
        }
        None
    }

    /// Moves the watcher at which the walk stands to another literal of its clause, which is not false.
    fn shift(&mut self, lit: Lit, before: usize, at: usize, to: Lit)
        requires kept { IsKept self.old }
        requires walk { IsWalk self.old lit before at }
        requires some { 0 < at }
        requires other { (d : Lit) (c : List Lit) → IsOther self.old.table.truths.items (slice_index_or (clauses_of self.old.store) ((at - 1) / 2) c) (slice_index_or (guards_of self.old.watch) (twin (at - 1)) d) to }
        ensures kept { IsKept self.new }
        ensures further { IsFurther self.old self.new }
        ensures head { self.new.head ≡ self.old.head }
        ensures seen { self.new.seen ≡ self.old.seen }
        ensures turn { IsTurn self.old self.new lit before at }
    {
        self.watch.shift(lit, before, at, to);
    }

    /// Looks at the clause of the watcher at which the walk stands: where the other watched literal is true, the watcher
    /// stays. Answers the watcher behind which the walk stands then, or nothing where the clause is false.
    fn turn(&mut self, lit: Lit, before: usize, at: usize) -> Option<usize>
        requires kept { IsKept self.old }
        requires walk { IsWalk self.old lit before at }
        requires some { 0 < at }
        ensures kept { IsKept self.new }
        ensures further { IsFurther self.old self.new }
        ensures head { self.new.head ≡ self.old.head }
        ensures seen { self.new.seen ≡ self.old.seen }
        ensures turned { IsTurned self.old self.new lit at result }
    {
        let other = self.watch.watchers[twin(at - 1)].lit;
        if self.table.truths[other.0 as usize] == 1 {
            return Some(at);
        }
        self.turn_on(lit, before, at, other)
    }

    /// The same, where the other watched literal is not true: the watcher moves to a literal that is not false, or else
    /// the other literal follows.
    fn turn_on(&mut self, lit: Lit, before: usize, at: usize, other: Lit) -> Option<usize>
        requires kept { IsKept self.old }
        requires walk { IsWalk self.old lit before at }
        requires some { 0 < at }
        requires other { (d : Lit) → other ≡ slice_index_or (guards_of self.old.watch) (twin (at - 1)) d }
        ensures kept { IsKept self.new }
        ensures further { IsFurther self.old self.new }
        ensures head { self.new.head ≡ self.old.head }
        ensures seen { self.new.seen ≡ self.old.seen }
        ensures turned { IsTurned self.old self.new lit at result }
    {
        if let Some(to) = self.other((at - 1) / 2, other) {
            self.shift(lit, before, at, to);
            return Some(before);
        }
        if self.force((at - 1) / 2, other) {
            return Some(at);
        }
        None
    }

    /// Walks along the watchers of a literal, the negation of the first one that waits. Answers the first false clause,
    /// counted from 0.
    fn walk(&mut self, lit: Lit) -> Option<usize>
        requires kept { IsKept self.old }
        requires waiting { self.old.head < length self.old.table.order.items }
        requires lit { (d : Lit) → lit ≡ negated (slice_index_or self.old.table.order.items self.old.head d) }
        ensures kept { IsKept self.new }
        ensures further { IsFurther self.old self.new }
        ensures head { self.new.head ≡ self.old.head }
        ensures seen { self.new.seen ≡ self.old.seen }
        ensures outcome { IsVisited self.new result }
    {
        let mut before = 0;
        let mut at = self.watch.firsts[lit.0 as usize] as usize;
        for _ in 0..self.watch.watchers.len() {
            if at == 0 {
                return None;
            }
            // Read before the turn, so that the processor fetches the next watcher meanwhile.
            let behind = self.watch.watchers[at - 1].next as usize;
            match self.turn(lit, before, at) {
                Some(now) => {
                    before = now;
                    at = behind;
                }
                None => {
                    return Some((at - 1) / 2);
                }
            }
        }
        None
    }

    /// Looks at the clauses that the first literal that waits makes false in part. Answers the first false one,
    /// counted from 0.
    fn visit(&mut self) -> Option<usize>
        requires kept { IsKept self.old }
        requires waiting { self.old.head < length self.old.table.order.items }
        ensures kept { IsKept self.new }
        ensures further { IsFurther self.old self.new }
        ensures head { self.new.head ≡ self.old.head }
        ensures seen { self.new.seen ≡ self.old.seen }
        ensures outcome { IsVisited self.new result }
    {
        let lit = self.table.order[self.head].negated();
        self.walk(lit)
    }

    /// Handles the literals that wait. Answers a false clause, counted from 0.
    fn handle(&mut self) -> Option<usize>
        requires kept { IsKept self.old }
        ensures kept { IsKept self.new }
        ensures further { IsFurther self.old self.new }
        ensures seen { self.new.seen ≡ self.old.seen }
        ensures outcome { IsHandled self.new result }
    {
        while self.head < self.table.order.len() {
            if let Some(at) = self.visit() {
                return Some(at);
            }
            self.head += 1;
        }
        None
    }

    /// Sets what follows by unit propagation. Answers a false clause, counted from 0.
    pub fn propagate(&mut self) -> Option<usize>
        requires kept { IsKept self.old }
        ensures kept { IsKept self.new }
        ensures further { IsFurther self.old self.new }
        ensures outcome { IsPropagated self.new result }
    {
        if let Some(at) = self.look_at_new() {
            return Some(at);
        }
        self.handle()
    }

    /// Goes back to a level.
    pub fn back(&mut self, level: usize)
        requires kept { IsKept self.old }
        requires level { level ≤ length self.old.starts.items }
        ensures kept { IsKept self.new }
        ensures state { state_of self.new ≡ gone_back (state_of self.old) level }
    {
        if level < self.starts.len() {
            let len = self.starts[level] as usize;
            self.head = self.fronts[level] as usize;
            self.table.shorten(len);
            self.starts.truncate(level);
            self.fronts.truncate(level);
        }
    }

    /// Makes room for the watchers of one more clause.
    fn widen(&mut self) -> Result<(), Memory>
        requires kept { IsKept self.old }
        ensures kept { IsKept self.new }
        ensures store { self.new.store ≡ self.old.store }
        ensures state { state_of self.new ≡ state_of self.old }
        ensures starts { self.new.starts ≡ self.old.starts }
        ensures room { OnOk result (2 * length (clauses_of self.new.store) + 2 ≤ vec_capacity self.new.watch.watchers) }
    {
        self.watch.reserve(2 * (self.store.len() + 1 - self.seen))
    }

    /// Keeps a clause. For want of memory nothing else changes.
    fn keep(&mut self, clause: &[Lit]) -> Result<(), Memory>
        requires kept { IsKept self.old }
        requires variables { All (λ l. variable_of l < self.old.variables) clause.now }
        requires not_empty { 0 < length clause.now }
        requires open { WasOpen (state_of self.old) (length self.old.starts.items) clause.now }
        ensures kept { IsKept self.new }
        ensures ok { OnOk result (state_of self.new ≡ with_clause (state_of self.old) clause.now) }
        ensures err { OnErr result (state_of self.new ≡ state_of self.old) }
    {
        self.widen()?;
        self.store.keep(clause)?;
        Ok(())
    }

    /// Keeps a clause, and answers its number. For want of memory nothing else changes, but memory was wanting.
    pub fn add(&mut self, clause: &[Lit]) -> Result<u32, Memory>
        requires kept { IsKept self.old }
        requires variables { All (λ l. variable_of l < self.old.variables) clause.now }
        requires not_empty { 0 < length clause.now }
        requires open { WasOpen (state_of self.old) (length self.old.starts.items) clause.now }
        ensures kept { IsKept self.new }
        ensures number { IfOk result (λ number. number ≡ length (clauses_of self.new.store)) }
        ensures ok { OnOk result (state_of self.new ≡ with_clause (state_of self.old) clause.now) }
        ensures err { OnErr result (state_of self.new ≡ given_up (state_of self.old)) }
        ensures spent { IsTrue self.old.spent → IsErr result }
    {
        if self.spent {
            return Err(Memory);
        }
        match self.keep(clause) {
            Ok(()) => Ok(self.store.len() as u32),
            Err(Memory) => {
                self.spent = true;
                Err(Memory)
            }
        }
    }
}
