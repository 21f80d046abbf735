ghost use Rattle.std.specs.Prelude.{◌≡◌, ◌+◌, ◌-◌, ◌*◌, ◌^◌, ◌<◌, ◌≤◌, [], ◌∷◌, ◌++◌, length, slice_index, slice_set, IfOk, OnOk};
ghost use Rattle.std.specs.Vec.{vec_len, vec_capacity};
ghost use Rattle.lz_prop.specs.Watch.{AreListed, twin, next_without, firsts_without};
ghost use Rattle.lz_prop.specs.Watchers.{guards_of, next_of};

use lz_base::Memory;
use lz_cnf::Lit;
use std::alloc::Global;

/// A watcher of a clause.
#[derive(Clone, Copy, Debug, PartialEq, Eq)]
pub struct Watcher {
    /// The literal that it watches.
    pub lit: Lit,
    /// The watcher behind it in the list of this literal, counted from 1, or 0 at the end.
    pub next: u32,
}

/// Watchers, two for each clause, and for each literal a list of those that watch it, linked from one to the next.
#[derive(Drop)]
pub struct Watch {
    pub watchers: Vec<Watcher>,
    /// For each literal the first watcher of its list, counted from 1, or 0 where it has none.
    pub firsts: Vec<u32>,
}

/// The other watcher of the same clause, counted from 0.
pub fn twin(watcher: usize) -> usize
    requires { watcher + 1 < 18446744073709551616 }
    ensures { result ≡ twin watcher }
{
    if watcher % 2 == 1 {
        watcher - 1
    } else {
        watcher + 1
    }
}

impl Watch {
    /// No watchers, for literals of so many variables, with room for those of so many clauses.
    pub fn new(alloc: Global, variables: u32, clauses: u32) -> Result<Watch, Memory>
        ensures listed { IfOk result (λ w. AreListed (guards_of w) (next_of w) w.firsts.items) }
        ensures guards { IfOk result (λ w. guards_of w ≡ []) }
        ensures firsts { IfOk result (λ w. length w.firsts.items ≡ 2 * variables) }
        ensures room { IfOk result (λ w. 2 * clauses ≤ vec_capacity w.watchers) }
    {
        let watchers = Vec::with_capacity(alloc, 2 * clauses as usize)?;
        let firsts = Vec::from_elem(alloc, 0, 2 * variables as usize)?;
        Ok(Watch { watchers, firsts })
    }

    /// Makes room for so many watchers more.
    pub fn reserve(&mut self, more: usize) -> Result<(), Memory>
        ensures watchers { self.new.watchers.items ≡ self.old.watchers.items }
        ensures firsts { self.new.firsts ≡ self.old.firsts }
        ensures kept { vec_capacity self.old.watchers ≤ vec_capacity self.new.watchers }
        ensures room { OnOk result (vec_len self.new.watchers + more ≤ vec_capacity self.new.watchers) }
    {
        self.watchers.reserve(more)?;
        Ok(())
    }

    /// Adds a watcher of a literal, in front of its list. There is room for it.
    pub fn push(&mut self, lit: Lit)
        requires listed { AreListed (guards_of self.old) (next_of self.old) self.old.firsts.items }
        requires number { lit.0 < length self.old.firsts.items }
        requires few { length self.old.watchers.items + 1 < 2 ^ 32 }
        requires room { vec_len self.old.watchers < vec_capacity self.old.watchers }
        ensures listed { AreListed (guards_of self.new) (next_of self.new) self.new.firsts.items }
        ensures guards { guards_of self.new ≡ guards_of self.old ++ lit ∷ [] }
        ensures firsts { length self.new.firsts.items ≡ length self.old.firsts.items }
        ensures room { vec_capacity self.new.watchers ≡ vec_capacity self.old.watchers }
    {
        let next = self.firsts[lit.0 as usize];
        self.watchers.push_reserved(Watcher { lit, next });
        self.firsts[lit.0 as usize] = self.watchers.len() as u32;
    }

    /// Links a watcher, counted from 0, to the one that is to stand behind it.
    fn link(&mut self, watcher: usize, behind: u32)
        requires { watcher < length self.old.watchers.items }
        ensures guards { guards_of self.new ≡ guards_of self.old }
        ensures next { next_of self.new ≡ slice_set (next_of self.old) watcher behind }
        ensures firsts { self.new.firsts ≡ self.old.firsts }
        ensures room { vec_capacity self.new.watchers ≡ vec_capacity self.old.watchers }
    {
        let lit = self.watchers[watcher].lit;
        self.watchers[watcher] = Watcher { lit, next: behind };
    }

    /// Links what stands before a watcher in the list of a literal to what stands behind it.
    fn unlink(&mut self, lit: Lit, before: usize, behind: u32)
        requires number { lit.0 < length self.old.firsts.items }
        requires before { before ≤ length self.old.watchers.items }
        ensures guards { guards_of self.new ≡ guards_of self.old }
        ensures next { next_of self.new ≡ next_without (next_of self.old) before behind }
        ensures firsts { self.new.firsts.items ≡ firsts_without self.old.firsts.items lit.0 before behind }
        ensures room { vec_capacity self.new.watchers ≡ vec_capacity self.old.watchers }
    {
        if before == 0 {
            self.firsts[lit.0 as usize] = behind;
        } else {
            self.link(before - 1, behind);
        }
    }

    /// Takes a watcher, counted from 1, out of the list of a literal, where it stands behind another one, and puts it in
    /// front of the list of a second literal, which it watches from now on.
    pub fn shift(&mut self, lit: Lit, before: usize, at: usize, to: Lit)
        requires number { lit.0 < length self.old.firsts.items }
        requires number_to { to.0 < length self.old.firsts.items }
        requires before { before ≤ length self.old.watchers.items }
        requires some { 0 < at }
        requires within { at ≤ length self.old.watchers.items }
        requires few { at < 2 ^ 32 }
        ensures guards { guards_of self.new ≡ slice_set (guards_of self.old) (at - 1) to }
        ensures next { next_of self.new ≡ slice_set (next_without (next_of self.old) before (slice_index (next_of self.old) (at - 1))) (at - 1) (slice_index (firsts_without self.old.firsts.items lit.0 before (slice_index (next_of self.old) (at - 1))) to.0) }
        ensures firsts { self.new.firsts.items ≡ slice_set (firsts_without self.old.firsts.items lit.0 before (slice_index (next_of self.old) (at - 1))) to.0 at }
        ensures room { vec_capacity self.new.watchers ≡ vec_capacity self.old.watchers }
    {
        let behind = self.watchers[at - 1].next;
        self.unlink(lit, before, behind);
        let next = self.firsts[to.0 as usize];
        self.watchers[at - 1] = Watcher { lit: to, next };
        self.firsts[to.0 as usize] = at as u32;
    }
}
