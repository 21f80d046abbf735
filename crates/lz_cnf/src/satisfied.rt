//! Whether values of the variables are a model of a formula.
ghost use Rattle.std.specs.Prelude.{◌≡◌, ◌↔◌, IsTrue, length};
ghost use Rattle.std.specs.List.{Any};
ghost use Rattle.lz_cnf.specs.Models.{IsTrueLit, IsModel};

use crate::clause::{Cnf, Lit};
use lz_base::Sequence;

/// Values of the variables of a formula, from variable 0 on.
pub type Assignment = Sequence<bool>;

/// Whether the values make the literal true. A literal of a variable past the end is not true.
fn is_true(values: &[bool], lit: Lit) -> bool
    ensures { IsTrue result ↔ IsTrueLit values.now lit }
{
    match values.get((lit.0 / 2) as usize) {
        Some(value) => *value != (lit.0 % 2 == 1),
        None => false,
    }
}

/// Whether some literal of the clause is true.
fn has_true(values: &[bool], clause: &[Lit]) -> bool
    ensures { IsTrue result ↔ Any (IsTrueLit values.now) clause.now }
{
    for lit in clause {
        if is_true(values, *lit) {
            return true;
        }
    }
    false
}

impl Cnf {
    /// Whether the values give each clause a true literal. Takes no memory.
    pub fn satisfied_by(&self, model: &Assignment) -> bool
        requires whole { length model.now ≡ self.now.variables }
        ensures { IsTrue result ↔ IsModel self.now model.now }
    {
        let values = model.items();
        for clause in self.clauses.items() {
            if !has_true(values, clause.items()) {
                return false;
            }
        }
        true
    }
}
