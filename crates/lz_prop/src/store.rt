ghost use Rattle.std.specs.Prelude.{◌≡◌, ◌+◌, ◌^◌, ◌<◌, ◌≤◌, [], ◌∷◌, ◌++◌, length, slice_index_or, slice_range, List, IfOk, OnOk, OnErr};
ghost use Rattle.std.specs.Vec.{vec_len, vec_capacity};
ghost use Rattle.lz_cnf.specs.declared.clause.Lit.{Lit};
ghost use Rattle.lz_prop.specs.Stored.{IsStore, clause_limit, clauses_of};

use lz_base::Memory;
use lz_cnf::Lit;
use std::alloc::Global;

/// The most bounds that a store has, of which there is one more than clauses: two watchers of each clause have numbers of
/// 32 bits.
const CLAUSE_LIMIT: usize = 2_147_483_647;

/// Kept clauses, one behind the other in one vector.
#[derive(Drop)]
pub struct Store {
    /// The literals of all clauses.
    pub literals: Vec<Lit>,
    /// Where each clause begins, and where the last one ends.
    pub bounds: Vec<u32>,
}

/// The literals between two places.
fn part(literals: &[Lit], start: usize, end: usize) -> &[Lit]
    requires order { start ≤ end }
    requires within { end ≤ length literals.now }
    ensures { result.now ≡ slice_range literals.now start end }
{
    &literals[start..end]
}

impl Store {
    /// A store without clauses.
    pub fn new(alloc: Global) -> Result<Store, Memory>
        ensures store { IfOk result (λ s. IsStore s) }
        ensures clauses { IfOk result (λ s. clauses_of s ≡ []) }
    {
        let mut bounds = Vec::new(alloc);
        bounds.push(0)?;
        Ok(Store {
            literals: Vec::new(alloc),
            bounds,
        })
    }

    /// The number of clauses.
    pub fn len(&self) -> usize
        requires { IsStore self.now }
        ensures { result ≡ length (clauses_of self.now) }
    {
        self.bounds.len() - 1
    }

    /// The literals of a clause, counted from 0.
    pub fn clause(&self, at: usize) -> &[Lit]
        requires store { IsStore self.now }
        requires within { at < length (clauses_of self.now) }
        ensures { (d : List Lit) → result.now ≡ slice_index_or (clauses_of self.now) at d }
    {
        part(
            &self.literals,
            self.bounds[at] as usize,
            self.bounds[at + 1] as usize,
        )
    }

    /// Makes room for a clause of so many literals.
    fn reserve(&mut self, len: usize) -> Result<(), Memory>
        ensures literals { self.new.literals.items ≡ self.old.literals.items }
        ensures bounds { self.new.bounds.items ≡ self.old.bounds.items }
        ensures few { OnOk result (length self.new.literals.items + len < 2 ^ 32) }
        ensures few_bounds { OnOk result (length self.new.bounds.items < clause_limit) }
        ensures literals_room { OnOk result (vec_len self.new.literals + len ≤ vec_capacity self.new.literals) }
        ensures bounds_room { OnOk result (vec_len self.new.bounds < vec_capacity self.new.bounds) }
    {
        if self.literals.len() > u32::MAX as usize
            || len > u32::MAX as usize - self.literals.len()
            || self.bounds.len() >= CLAUSE_LIMIT
        {
            return Err(Memory);
        }
        self.literals.reserve(len)?;
        self.bounds.reserve(1)?;
        Ok(())
    }

    /// Keeps one more clause. For want of memory the clauses stay as they were.
    pub fn keep(&mut self, clause: &[Lit]) -> Result<(), Memory>
        requires { IsStore self.old }
        ensures store { IsStore self.new }
        ensures ok { OnOk result (clauses_of self.new ≡ clauses_of self.old ++ clause.now ∷ []) }
        ensures err { OnErr result (clauses_of self.new ≡ clauses_of self.old) }
    {
        self.reserve(clause.len())?;
        self.put(clause);
        Ok(())
    }

    /// Keeps one more clause, for which there is room.
    fn put(&mut self, clause: &[Lit])
        requires store { IsStore self.old }
        requires few { length self.old.literals.items + length clause.now < 2 ^ 32 }
        requires few_bounds { length self.old.bounds.items < clause_limit }
        requires literals_room { vec_len self.old.literals + length clause.now ≤ vec_capacity self.old.literals }
        requires bounds_room { vec_len self.old.bounds < vec_capacity self.old.bounds }
        ensures store { IsStore self.new }
        ensures clauses { clauses_of self.new ≡ clauses_of self.old ++ clause.now ∷ [] }
    {
        for lit in clause {
            self.literals.push_reserved(*lit);
        }
        self.bounds.push_reserved(self.literals.len() as u32);
    }
}
