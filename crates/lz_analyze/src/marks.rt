ghost use Rattle.std.specs.Prelude.{◌≡◌, ◌<◌, eqb, not, cond, [], ◌∷◌, ◌++◌, length, slice_index_or, IfOk, OnOk, ℕ};
ghost use Rattle.std.specs.List.{Contains, list_any};
ghost use Rattle.lz_analyze.specs.Marked.{AreSame};

use lz_base::Memory;
use std::alloc::Global;
use std::marker::Model;

/// A set of variables: a table by variable, which grows as far as it is used, and the list of those that are in it, by
/// which it is emptied.
#[derive(Drop)]
pub struct Marks {
    /// For each variable 1 where it is marked.
    table: Vec<u8>,
    /// The marked variables, in the order in which they were marked.
    list: Vec<u32>,
}

impl Model for Marks {
    ghost use Rattle.lz_analyze.specs.Marked.{Marked, AreMarked};

    ghost Value = { Marked };

    ghost view = { λ m. record { keys = m.list.items } };

    ghost invariant = { λ m. AreMarked m.table.items m.list.items };
}

/// Lets a table have a place, with 0 in what is new.
fn reach(table: &mut Vec<u8>, at: usize) -> Result<(), Memory>
    ensures same { AreSame table.old.items table.new.items }
    ensures place { OnOk result (at < length table.new.items) }
{
    while table.len() <= at {
        table.push(0)?;
    }
    Ok(())
}

/// Takes the mark at a place off, if there is one.
fn unmark(table: &mut Vec<u8>, at: usize)
    ensures { (v : ℕ) → slice_index_or table.new.items v 0 ≡ 1 → (slice_index_or table.old.items v 0 ≡ 1) × (v ≡ at → ⊥) }
{
    if at < table.len() {
        table[at] = 0;
    }
}

/// Takes all marks off that stand at these variables, and so all that there are.
fn wipe(table: &mut Vec<u8>, list: &[u32])
    requires { (v : ℕ) → slice_index_or table.old.items v 0 ≡ 1 → Contains list.now v }
    ensures { (v : ℕ) → slice_index_or table.new.items v 0 ≡ 1 → ⊥ }
{
    for variable in list {
        unmark(table, *variable as usize);
    }
}

impl Marks {
    /// No variable is marked.
    pub fn new(alloc: Global) -> Marks
        ensures { result.keys ≡ [] }
    {
        Marks {
            table: Vec::new(alloc),
            list: Vec::new(alloc),
        }
    }

    /// Takes all marks off.
    pub fn clear(&mut self)
        ensures { self.new.keys ≡ [] }
    {
        wipe(&mut self.table, &self.list);
        self.list.clear();
    }

    /// Whether a variable is marked.
    pub fn contains(&self, variable: u32) -> bool
        ensures { result ≡ list_any (eqb variable) self.now.keys }
    {
        let at = variable as usize;
        at < self.table.len() && self.table[at] == 1
    }

    /// Marks a variable, and answers whether it was not marked.
    pub fn insert(&mut self, variable: u32) -> Result<bool, Memory>
        ensures keys { IfOk result (λ r. self.new.keys ≡ cond (list_any (eqb variable) self.old.keys) self.old.keys (self.old.keys ++ variable ∷ [])) }
        ensures added { IfOk result (λ r. r ≡ not (list_any (eqb variable) self.old.keys)) }
    {
        let at = variable as usize;
        reach(&mut self.table, at)?;
        if self.table[at] == 1 {
            return Ok(false);
        }
        self.list.push(variable)?;
        self.table[at] = 1;
        Ok(true)
    }
}
