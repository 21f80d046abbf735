ghost use Rattle.std.specs.Prelude.{◌≡◌, ◌⊎◌, ℕ, ◌<◌, List, [], ◌∷◌, IsTrue, IfOk, OnOk};
ghost use Rattle.std.specs.List.{All, Contains};
ghost use Rattle.lz_cnf.specs.declared.clause.Lit.{Lit};
ghost use Rattle.lz_cnf.specs.Models.{variable_of};
ghost use Rattle.lz_cnf.specs.Partial.{IsFalseLit};
ghost use Rattle.lz_prop.specs.Trail.{IsTrail, HoldsClause, literals};
ghost use Rattle.lz_analyze.specs.Chains.{IsPart, IsReplay, IsShorter};

use crate::finder::Finder;
use crate::marks::Marks;
use lz_base::Memory;
use lz_cnf::Lit;
use lz_prop::Trail;
use std::alloc::Global;

/// The part of a clause that is kept, and the clauses by which it makes the other literals false.
#[derive(Drop)]
pub struct Shorter {
    /// The variables of the point, of the kept literals, and of those that the clauses set.
    pub known: Marks,
    /// The literals that are kept.
    pub kept: Vec<Lit>,
    /// The numbers of the clauses, in the order in which each sets its literal.
    pub links: Vec<u32>,
}

/// Whether a literal is known or has this variable.
fn is_known(known: &Marks, variable: u32, lit: Lit) -> bool
    ensures { IsTrue result → (variable_of lit ≡ variable) ⊎ Contains known.now.keys (variable_of lit) }
{
    lit.0 / 2 == variable || known.contains(lit.0 / 2)
}

/// Whether each literal of a clause is known or has this variable.
fn are_known(known: &Marks, variable: u32, clause: &[Lit]) -> bool
    ensures { IsTrue result → All (λ lit. (variable_of lit ≡ variable) ⊎ Contains known.now.keys (variable_of lit)) clause.now }
{
    for lit in clause {
        if !is_known(known, variable, *lit) {
            return false;
        }
    }
    true
}

impl Shorter {
    /// Nothing is kept.
    pub fn new(alloc: Global) -> Shorter {
        Shorter {
            known: Marks::new(alloc),
            kept: Vec::new(alloc),
            links: Vec::new(alloc),
        }
    }

    /// Nothing is left out of the clause.
    pub fn forget_links(&mut self) {
        self.links.clear();
    }

    /// Begins with the point alone.
    fn begin(&mut self, point: Lit) -> Result<(), Memory>
        ensures part { OnOk result ((low : List Lit) → IsPart low point self.new.kept.items self.new.known.keys) }
        ensures links { OnOk result (self.new.links.items ≡ []) }
    {
        self.known.clear();
        self.kept.clear();
        self.links.clear();
        self.known.insert(point.0 / 2)?;
        Ok(())
    }

    /// Keeps a literal, unless it is left out.
    fn keep(&mut self, left_out: bool, lit: Lit) -> Result<(), Memory>
        ensures part { OnOk result ((low : List Lit) (point : Lit) → Contains low lit → IsPart low point self.old.kept.items self.old.known.keys → IsPart low point self.new.kept.items self.new.known.keys) }
        ensures links { self.new.links.items ≡ self.old.links.items }
    {
        if left_out {
            return Ok(());
        }
        if self.known.insert(lit.0 / 2)? {
            self.kept.push(lit)?;
        }
        Ok(())
    }

    /// Keeps the literals of a clause that are not left out.
    fn keep_all(&mut self, finder: &Finder, point: Lit, low: &[Lit]) -> Result<(), Memory>
        requires { IsPart low.now point self.old.kept.items self.old.known.keys }
        ensures part { OnOk result (IsPart low.now point self.new.kept.items self.new.known.keys) }
        ensures links { self.new.links.items ≡ self.old.links.items }
    {
        for lit in low {
            self.keep(finder.is_needed(lit.0 / 2), *lit)?;
        }
        Ok(())
    }

    /// Adds the reason of a variable, if the other literals of the reason are known.
    fn link(&mut self, trail: &Trail, variable: u32) -> Result<(), Memory>
        requires trail { IsTrail trail.now }
        requires variable { variable < trail.now.variables }
        ensures replay { OnOk result ((have : List Lit) → IsReplay trail.now have self.old.known.keys self.old.links.items → IsReplay trail.now have self.new.known.keys self.new.links.items) }
        ensures kept { self.new.kept.items ≡ self.old.kept.items }
    {
        match trail.reason(variable) {
            Some(number) => {
                if !are_known(&self.known, variable, trail.clause(number)) {
                    return Ok(());
                }
                self.links.push(number)?;
                self.known.insert(variable)?;
                Ok(())
            }
            None => Ok(()),
        }
    }

    /// Adds the reasons of all variables that are needed.
    fn link_all(&mut self, trail: &Trail, finder: &Finder) -> Result<(), Memory>
        requires { IsTrail trail.now }
        ensures replay { OnOk result ((have : List Lit) → IsReplay trail.now have self.old.known.keys self.old.links.items → IsReplay trail.now have self.new.known.keys self.new.links.items) }
        ensures kept { self.new.kept.items ≡ self.old.kept.items }
    {
        for variable in finder.implied() {
            if *variable < trail.variables() && finder.is_needed(*variable) {
                self.link(trail, *variable)?;
            }
        }
        Ok(())
    }

    /// Leaves out the literals that the finder names, as far as the others and the point's make them false. Answers
    /// whether they do: else the clause stays.
    pub fn shorten(
        &mut self,
        trail: &Trail,
        finder: &Finder,
        point: Lit,
        low: &[Lit],
    ) -> Result<bool, Memory>
        requires trail { IsTrail trail.now }
        requires lits { All (IsFalseLit (literals trail.now.set)) (point ∷ low.now) }
        ensures { IfOk result (λ done. IsTrue done → IsShorter trail.now point low.now self.new.kept.items self.new.links.items) }
    {
        self.begin(point)?;
        self.keep_all(finder, point, low)?;
        self.link_all(trail, finder)?;
        let done = self.known.contains(point.0 / 2) && are_known(&self.known, point.0 / 2, low);
        Ok(done)
    }
}
