ghost use Rattle.std.specs.Prelude.{◌≡◌, ◌≢◌, ℕ, ◌+◌, ◌*◌, ◌<◌, ◌≤◌, [], ◌∷◌, ◌++◌, length, take, slice_set, IfOk};
ghost use Rattle.std.specs.List.{AllPairs};
ghost use Rattle.std.specs.Vec.{vec_len, vec_capacity};
ghost use Rattle.lz_cnf.specs.Models.{variable_of};
ghost use Rattle.lz_prop.specs.Parts.{IsTable, entries, number_kept};
ghost use Rattle.lz_prop.specs.Trail.{entry_of, value_in, level_in, reason_in};

use lz_base::Memory;
use lz_cnf::Lit;
use std::alloc::Global;

/// What is true: by literal, by variable with its level and reason, and in the order in which it was set.
#[derive(Drop)]
pub struct Table {
    /// For each literal 1 where it is true, and another number elsewhere.
    pub truths: Vec<u8>,
    /// For each variable the level at which it was set.
    pub levels: Vec<u32>,
    /// For each variable the number of the clause that made its literal true, or 0.
    pub reasons: Vec<u32>,
    /// The true literals in the order in which they were set.
    pub order: Vec<Lit>,
}

impl Table {
    /// A table of so many variables, none of which has a value.
    pub fn new(alloc: Global, variables: u32) -> Result<Table, Memory>
        ensures table { IfOk result (λ t. IsTable variables t.truths.items t.levels.items t.reasons.items t.order.items) }
        ensures order { IfOk result (λ t. t.order.items ≡ []) }
        ensures room { IfOk result (λ t. variables ≤ vec_capacity t.order) }
    {
        let count = variables as usize;
        let truths = Vec::from_elem(alloc, 0, 2 * count)?;
        let levels = Vec::from_elem(alloc, 0, count)?;
        let reasons = Vec::from_elem(alloc, 0, count)?;
        let order = Vec::with_capacity(alloc, count)?;
        Ok(Table {
            truths,
            levels,
            reasons,
            order,
        })
    }

    /// Makes a literal true. There is room for it.
    pub fn put(&mut self, lit: Lit, level: u32, reason: u32)
        requires truths { lit.0 < length self.old.truths.items }
        requires levels { variable_of lit < length self.old.levels.items }
        requires reasons { variable_of lit < length self.old.reasons.items }
        requires room { vec_len self.old.order < vec_capacity self.old.order }
        ensures truths { self.new.truths.items ≡ slice_set self.old.truths.items lit.0 1 }
        ensures levels { self.new.levels.items ≡ slice_set self.old.levels.items (variable_of lit) level }
        ensures reasons { self.new.reasons.items ≡ slice_set self.old.reasons.items (variable_of lit) reason }
        ensures order { self.new.order.items ≡ self.old.order.items ++ lit ∷ [] }
        ensures room { vec_capacity self.new.order ≡ vec_capacity self.old.order }
    {
        self.truths[lit.0 as usize] = 1;
        self.levels[lit.0 as usize / 2] = level;
        self.reasons[lit.0 as usize / 2] = reason;
        self.order.push_reserved(lit);
    }

    /// Takes back all but the first literals, so many of them.
    pub fn shorten(&mut self, len: usize)
        requires table { IsTable (length self.old.levels.items) self.old.truths.items self.old.levels.items self.old.reasons.items self.old.order.items }
        requires apart { AllPairs (λ a b. variable_of a ≢ variable_of b) self.old.order.items }
        requires within { len ≤ length self.old.order.items }
        ensures table { IsTable (length self.old.levels.items) self.new.truths.items self.new.levels.items self.new.reasons.items self.new.order.items }
        ensures order { self.new.order.items ≡ take len self.old.order.items }
        ensures levels { self.new.levels.items ≡ self.old.levels.items }
        ensures reasons { self.new.reasons.items ≡ self.old.reasons.items }
        ensures room { vec_capacity self.new.order ≡ vec_capacity self.old.order }
    {
        while self.order.len() > len {
            let last = self.order.len() - 1;
            let lit = self.order[last];
            self.truths[lit.0 as usize] = 0;
            self.order.truncate(last);
        }
    }

    /// The value of a variable.
    pub fn value(&self, variable: u32) -> Option<bool>
        requires table { IsTable (length self.now.levels.items) self.now.truths.items self.now.levels.items self.now.reasons.items self.now.order.items }
        requires apart { AllPairs (λ a b. variable_of a ≢ variable_of b) self.now.order.items }
        requires variable { variable < length self.now.levels.items }
        ensures { result ≡ value_in (entry_of (entries self.now.levels.items self.now.reasons.items self.now.order.items) variable) }
    {
        if self.truths[2 * variable as usize] == 1 {
            Some(true)
        } else if self.truths[2 * variable as usize + 1] == 1 {
            Some(false)
        } else {
            None
        }
    }

    /// The level at which a variable was set.
    pub fn level_of(&self, variable: u32) -> Option<u32>
        requires table { IsTable (length self.now.levels.items) self.now.truths.items self.now.levels.items self.now.reasons.items self.now.order.items }
        requires apart { AllPairs (λ a b. variable_of a ≢ variable_of b) self.now.order.items }
        requires variable { variable < length self.now.levels.items }
        ensures { result ≡ level_in (entry_of (entries self.now.levels.items self.now.reasons.items self.now.order.items) variable) }
    {
        match self.value(variable) {
            Some(_) => Some(self.levels[variable as usize]),
            None => None,
        }
    }

    /// The number of the clause that made a variable's literal true.
    pub fn reason(&self, variable: u32) -> Option<u32>
        requires table { IsTable (length self.now.levels.items) self.now.truths.items self.now.levels.items self.now.reasons.items self.now.order.items }
        requires apart { AllPairs (λ a b. variable_of a ≢ variable_of b) self.now.order.items }
        requires variable { variable < length self.now.levels.items }
        ensures { result ≡ reason_in (entry_of (entries self.now.levels.items self.now.reasons.items self.now.order.items) variable) }
    {
        match self.value(variable) {
            Some(_) => given(self.reasons[variable as usize]),
            None => None,
        }
    }
}

/// A number that is kept with 0 for none.
fn given(number: u32) -> Option<u32>
    ensures { result ≡ number_kept number }
{
    if number == 0 { None } else { Some(number) }
}
