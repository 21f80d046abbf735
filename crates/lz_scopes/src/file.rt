ghost use Rattle.std.specs.Prelude.{◌≡◌, ◌==◌, [], ◌∷◌, ◌++◌, map, option_map, slice_get, IfOk, OnOk};
ghost use Rattle.std.specs.List.{list_any};
ghost use Rattle.lz_tree.specs.Trees.{external_declaration, translation_unit};
ghost use Rattle.lz_scopes.specs.Files as spec;
ghost use Rattle.lz_scopes.specs.Files.{params_of};
ghost use Rattle.lz_scopes.specs.Files.{File, function_named, main_from, bare};
ghost use Rattle.lz_scopes.specs.Defined.{HasDefined};
ghost use Rattle.lz_scopes.specs.Scopes as scopes;

use crate::signature::Signature;
use crate::whole::{bases, known_ones, note_first, number_of};
use indexmap::IndexMap;
use lz_base::Memory;
use lz_tree::{External, KnownName, Program, TypeName};
use std::alloc::Global;
use std::marker::Model;

/// What is known of a whole file while it is walked.
#[derive(Drop)]
pub struct WholeFile {
    /// For each name what it is as a known one.
    known: Vec<Option<KnownName>>,
    /// The number of the name `main`.
    main: Option<u32>,
    functions: Vec<Signature>,
    /// The first function of each name that has one.
    defined: IndexMap<u32, u32>,
    /// For each function those that it calls and that come back to it.
    returning: Vec<Vec<u32>>,
    /// For each function whether a start routine reaches it.
    reached: Vec<bool>,
    /// For each function whether its body is too high.
    high: Vec<bool>,
}

impl Model for WholeFile {
    ghost Value = { File };

    ghost view = { λ f. record {
      known = f.known.items;
      main = f.main;
      functions = f.functions.items;
      returning = map (λ row. row.items) f.returning.items;
      reached = f.reached.items;
      high = f.high.items;
    } };

    ghost invariant = { λ f. HasDefined f.functions.items f.defined };
}

/// Whether a number is among some.
fn has_number(numbers: &[u32], number: u32) -> bool
    ensures { result ≡ list_any (λ m. m == number) numbers.now }
{
    numbers.iter().any(|m| *m == number)
}

impl WholeFile {
    /// What is known of a file before its functions are looked into.
    #[tactic(auto, unfolding(crate::specs::Files::file_with))]
    pub fn new(alloc: Global, unit: &Program) -> Result<WholeFile, Memory>
        ensures { IfOk result (λ file. file ≡ bare (translation_unit unit.now)) }
    {
        let names = unit.names.items();
        let known = known_ones(alloc, names)?;
        let main = number_of(names, "main")?;
        let mut file = WholeFile {
            known,
            main,
            functions: Vec::new(alloc),
            defined: IndexMap::new(alloc),
            returning: Vec::new(alloc),
            reached: Vec::new(alloc),
            high: Vec::new(alloc),
        };
        file.define_all(alloc, unit.externals.items())?;
        Ok(file)
    }

    /// Adds a function.
    fn define(&mut self, f: Signature) -> Result<(), Memory>
        ensures { OnOk result (self.new ≡ record self.old { functions = self.old.functions ++ f ∷ [] }) }
    {
        if self.functions.len() >= 4_294_967_295 {
            return Err(Memory);
        }
        let number = self.functions.len() as u32;
        let name = f.name;
        self.functions.push(f)?;
        if note_first(&mut self.defined, name, number).is_err() {
            let _ = self.functions.pop();
            return Err(Memory);
        }
        Ok(())
    }

    /// Adds the function of an external declaration, if it has a body.
    fn define_external(&mut self, alloc: Global, e: &External) -> Result<(), Memory>
        ensures { OnOk result (self.new ≡ record self.old { functions = self.old.functions ++ scopes.signature_in (external_declaration e.now) }) }
    {
        match e {
            External::Objects { .. } | External::Prototype { .. } => Ok(()),
            External::Function {
                gives,
                name,
                params,
                ..
            } => {
                let params = bases(alloc, params.items())?;
                let f = Signature {
                    name: *name,
                    gives: *gives,
                    params,
                };
                self.define(f)
            }
        }
    }

    /// Adds the functions of external declarations.
    fn define_all(&mut self, alloc: Global, externals: &[External]) -> Result<(), Memory>
        ensures { OnOk result (self.new ≡ record self.old { functions = self.old.functions ++ scopes.signatures (map external_declaration externals.now) }) }
    {
        for e in externals {
            self.define_external(alloc, e)?;
        }
        Ok(())
    }

    /// Sets what was found out about the functions: for each those that it calls and that come back to it, whether
    /// a start routine reaches it, and whether its body is too high.
    pub fn set_facts(&mut self, returning: Vec<Vec<u32>>, reached: Vec<bool>, high: Vec<bool>)
        ensures { self.new ≡ record self.old {
          returning = map (λ row. row.items) returning.items;
          reached = reached.items;
          high = high.items;
        } }
    {
        self.returning = returning;
        self.reached = reached;
        self.high = high;
    }

    /// The number of the first function that is called `main`.
    pub fn main_function(&self) -> Option<u32>
        ensures { result ≡ main_from self.now 0 self.now.functions }
    {
        match self.main {
            None => None,
            Some(main) => self.function_named(main),
        }
    }

    /// What the name is as a known one.
    pub fn known(&self, name: u32) -> Option<KnownName>
        ensures { result ≡ spec.known_at self.now name }
    {
        match self.known.get(name as usize) {
            None => None,
            Some(known) => *known,
        }
    }

    /// Whether the name is `main`.
    pub fn is_main(&self, name: u32) -> bool
        ensures { result ≡ spec.is_main self.now name }
    {
        match self.main {
            None => false,
            Some(main) => name == main,
        }
    }

    /// The number of the first function that has the name.
    pub fn function_named(&self, name: u32) -> Option<u32>
        ensures { result ≡ function_named self.now.functions name }
    {
        self.defined.get(&name).copied()
    }

    /// Whether a function comes back to one that calls it.
    pub fn returns_to(&self, from: u32, to: u32) -> bool
        ensures { result ≡ spec.returns_to self.now from to }
    {
        match self.returning.get(from as usize) {
            None => false,
            Some(row) => has_number(row, to),
        }
    }

    /// Whether a start routine reaches the function, or it is one.
    pub fn is_reached(&self, function: u32) -> bool
        ensures { result ≡ spec.is_reached self.now function }
    {
        match self.reached.get(function as usize) {
            None => false,
            Some(reached) => *reached,
        }
    }

    /// Whether the body of the function is too high.
    pub fn is_high(&self, function: u32) -> bool
        ensures { result ≡ spec.is_high self.now function }
    {
        match self.high.get(function as usize) {
            None => false,
            Some(high) => *high,
        }
    }

    /// The types of the parameters of a function.
    pub fn params(&self, function: u32) -> &[TypeName]
        ensures { result.now ≡ params_of (slice_get self.now.functions function) }
    {
        match self.functions.get(function as usize) {
            None => &[],
            Some(f) => f.params.items(),
        }
    }

    /// The name of a function.
    pub fn name(&self, function: u32) -> Option<u32>
        ensures { result ≡ option_map (λ f. f.name) (slice_get self.now.functions function) }
    {
        match self.functions.get(function as usize) {
            None => None,
            Some(f) => Some(f.name),
        }
    }

    /// The type of the result of a function.
    pub fn gives(&self, function: u32) -> Option<TypeName>
        ensures { result ≡ option_map (λ f. f.gives) (slice_get self.now.functions function) }
    {
        match self.functions.get(function as usize) {
            None => None,
            Some(f) => Some(f.gives),
        }
    }
}
