ghost use Rattle.std.specs.Prelude.{◌≡◌, List, [], ◌∷◌, ◌++◌, ◌≤◌, ◌<◌, length, take, OnOk, OnErr, ◌-◌, ◌==◌, ℕ, Option, Some, None, is_some, IsTrue, nat_eq, if◌then◌else◌};
ghost use Rattle.std.specs.List.{list_any};
ghost use Rattle.indexmap.specs.IndexMap.{get};
ghost use Rattle.indexmap.specs.IndexSet.{contains};
ghost use Rattle.lz_scopes.specs.declared.names.Entry.{Entry};
ghost use Rattle.lz_scopes.specs.Names.{nearest};
ghost use Rattle.lz_scopes.specs.Tables.{flat, IsTable, IsAmong};

use crate::value_types::ValueType;
use indexmap::{IndexMap, IndexSet};
use lz_base::Memory;
use lz_tree::Object;
use std::alloc::Global;
use std::marker::Model;

/// A declared object or parameter: its name, how deep its scope is, what it is or its elements are, whether it is
/// an array, and the object that it stands for.
#[derive(Clone, Copy, Debug, PartialEq, Eq)]
pub struct Entry {
    pub name: u32,
    pub depth: u32,
    pub of: ValueType,
    pub array: bool,
    pub object: Object,
}

/// The objects that are declared, in the order of their declarations, without those of scopes that have
/// ended.
#[derive(Drop)]
pub struct Names {
    entries: Vec<Entry>,
    /// For each entry the place of the one that it hides.
    hides: Vec<Option<u32>>,
    /// For each name the place of its nearest entry.
    places: IndexMap<u32, Option<u32>>,
}

impl Model for Names {
    ghost Value = { List Entry };

    ghost view = { λ n. n.entries.items };

    ghost invariant = { λ n. IsTable n.entries.items n.hides.items n.places };
}

/// The place of the nearest entry of a name.
fn place_of(places: &IndexMap<u32, Option<u32>>, name: u32) -> Option<u32>
    ensures { result ≡ flat (get nat_eq places.now name) }
{
    match places.get(&name) {
        None => None,
        Some(place) => *place,
    }
}

/// Sets the place of a name, in place where it has one.
fn set_place(
    places: &mut IndexMap<u32, Option<u32>>,
    name: u32,
    place: Option<u32>,
) -> Result<(), Memory>
    ensures ok { OnOk result ((k : ℕ) → flat (get nat_eq places.new k) ≡ (if k == name then place else flat (get nat_eq places.old k))) }
    ensures err { OnErr result ((k : ℕ) → flat (get nat_eq places.new k) ≡ flat (get nat_eq places.old k)) }
{
    places.insert(name, place)?;
    Ok(())
}

/// Sets the place of a name that has one.
fn reset_place(places: &mut IndexMap<u32, Option<u32>>, name: u32, place: Option<u32>)
    requires there { IsTrue (is_some (flat (get nat_eq places.old name))) }
    ensures { (k : ℕ) → flat (get nat_eq places.new k) ≡ (if k == name then place else flat (get nat_eq places.old k)) }
{
    if let Some(old) = places.get_mut(&name) {
        *old = place;
    }
}

impl Names {
    /// The table without an object.
    pub fn new(alloc: Global) -> Self
        ensures { result ≡ [] }
    {
        Names {
            entries: Vec::new(alloc),
            hides: Vec::new(alloc),
            places: IndexMap::new(alloc),
        }
    }

    /// How many there are.
    pub fn len(&self) -> usize
        ensures { result ≡ length self.now }
    {
        self.entries.len()
    }

    /// The nearest object of the name.
    pub fn nearest(&self, name: u32) -> Option<Entry>
        ensures { result ≡ nearest self.now name }
    {
        let place = place_of(&self.places, name)?;
        Some(self.entries[place as usize])
    }

    /// Declares an object. It hides an earlier one of its name.
    pub fn declare(&mut self, entry: Entry) -> Result<(), Memory>
        requires room { length self.old < 4294967295 }
        ensures ok { OnOk result (self.new ≡ self.old ++ entry ∷ []) }
    {
        let hidden = place_of(&self.places, entry.name);
        let place = self.entries.len() as u32;
        self.entries.push(entry)?;
        if self.hides.push(hidden).is_err() {
            let _ = self.entries.pop();
            return Err(Memory);
        }
        if set_place(&mut self.places, entry.name, Some(place)).is_err() {
            let _ = self.entries.pop();
            let _ = self.hides.pop();
            return Err(Memory);
        }
        Ok(())
    }

    /// Ends the scope of the last one.
    fn end_last(&mut self)
        ensures { self.new ≡ take (length self.old - 1) self.old }
    {
        let Some(entry) = self.entries.pop() else {
            return;
        };
        if let Some(hidden) = self.hides.pop() {
            reset_place(&mut self.places, entry.name, hidden);
        }
    }

    /// Ends the scopes that began when there were so many.
    pub fn close(&mut self, mark: usize)
        requires { mark ≤ length self.old }
        ensures { self.new ≡ take mark self.old }
    {
        while self.entries.len() > mark {
            self.end_last();
        }
    }
}

/// The names of the functions that are declared, in the order of their declarations.
#[derive(Drop)]
pub struct Functions {
    names: Vec<u32>,
    among: IndexSet<u32>,
}

impl Model for Functions {
    ghost Value = { List ℕ };

    ghost view = { λ f. f.names.items };

    ghost invariant = { λ f. IsAmong f.names.items f.among };
}

impl Functions {
    /// The table without a name.
    pub fn new(alloc: Global) -> Self
        ensures { result ≡ [] }
    {
        Functions {
            names: Vec::new(alloc),
            among: IndexSet::new(alloc),
        }
    }

    /// Whether the name is one of them.
    pub fn has(&self, name: u32) -> bool
        ensures { result ≡ list_any (λ f. f == name) self.now }
    {
        self.among.contains(&name)
    }

    /// Declares a function. Prototypes may declare it again.
    pub fn declare(&mut self, name: u32) -> Result<(), Memory>
        ensures { OnOk result (self.new ≡ self.old ++ name ∷ []) }
    {
        self.names.push(name)?;
        if self.among.insert(name).is_err() {
            let _ = self.names.pop();
            return Err(Memory);
        }
        Ok(())
    }
}
