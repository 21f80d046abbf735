//! Tests of what the solver asks of a formula.

ghost use Rattle.std.specs.Prelude.{◌≢◌, ◌+◌, ◌^◌, ◌<◌, ◌≤◌, [], IsTrue, length};
ghost use Rattle.std.specs.List.{All};
ghost use Rattle.lz_cnf.specs.Models.{IsFormula, variable_of};

use lz_cnf::{Cnf, Lit};

/// 2^32: clauses have numbers of 32 bits, and a search adds one at each conflict.
const CLAUSE_BOUND: u64 = 4_294_967_296;

/// Whether the clause has only variables below this number.
fn has_only(clause: &[Lit], variables: u32) -> bool
    ensures { IsTrue result → All (λ lit. variable_of lit < variables) clause.now }
{
    for lit in clause {
        if lit.0 / 2 >= variables {
            return false;
        }
    }
    true
}

/// Whether the clauses have only the formula's variables and none is empty.
pub fn is_fit(cnf: &Cnf) -> bool
    ensures formula { IsTrue result → IsFormula cnf.now }
    ensures not_empty { IsTrue result → All (λ c. c ≢ []) cnf.now.clauses }
{
    for clause in cnf.clauses.items() {
        if clause.items().is_empty() {
            return false;
        }
        if !has_only(clause.items(), cnf.variables) {
            return false;
        }
    }
    true
}

/// Whether there is room for so many conflicts beside the clauses.
pub fn has_room(cnf: &Cnf, conflicts: u64) -> bool
    ensures some { IsTrue result → 1 ≤ conflicts }
    ensures room { IsTrue result → length cnf.now.clauses + conflicts < 2 ^ 32 }
{
    if conflicts == 0 || conflicts >= CLAUSE_BOUND {
        return false;
    }
    (cnf.clauses.items().len() as u64) < CLAUSE_BOUND - conflicts
}
