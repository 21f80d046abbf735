//! Whether a formula is one: what a caller who was handed clauses can find out before it calls a solver.
ghost use Rattle.std.specs.Prelude.{◌↔◌, ◌<◌, IsTrue};
ghost use Rattle.std.specs.List.{All};
ghost use Rattle.lz_cnf.specs.Models.{variable_of, IsFormula, NoneEmpty};

use crate::clause::{Cnf, Lit};

/// Whether each literal's variable is below the bound.
fn are_below(bound: u32, clause: &[Lit]) -> bool
    ensures { IsTrue result ↔ All (λ lit. variable_of lit < bound) clause.now }
{
    for lit in clause {
        if lit.variable() >= bound {
            return false;
        }
    }
    true
}

impl Cnf {
    /// Whether each literal's variable is one of the formula's. Takes no memory.
    pub fn is_formula(&self) -> bool
        ensures { IsTrue result ↔ IsFormula self.now }
    {
        for clause in self.clauses.items() {
            if !are_below(self.variables, clause.items()) {
                return false;
            }
        }
        true
    }

    /// Whether no clause is empty. Takes no memory.
    pub fn has_no_empty_clause(&self) -> bool
        ensures { IsTrue result ↔ NoneEmpty self.now.clauses }
    {
        for clause in self.clauses.items() {
            if clause.items().is_empty() {
                return false;
            }
        }
        true
    }
}
