//! The evidence of a success that was found by evaluation.

ghost use Rattle.std.specs.Prelude.{◌≡◌, [], ◌∷◌, length, IfOk};
ghost use Rattle.lz_cnf.specs.Models.{IsFormula, HasModel};
ghost use Rattle.lz_log.specs.Refutation.{Refutes};
ghost use Rattle.lz_cli.specs.Refutation.{both, empty_step};

use lz_base::Memory;
use lz_cnf::{Clause, Clauses, Cnf, Lit};
use lz_log::{Hints, Log, LogStep};
use std::alloc::Global;

/// A formula without a model, and the log that refutes it: one variable, the clause that it is true and
/// the clause that it is false, and the empty clause, which follows from both.
pub fn refutation(alloc: Global) -> Result<(Cnf, Log), Memory>
    ensures exact { IfOk result (λ made. (made.0 ≡ both) × (made.1 ≡ empty_step ∷ [])) }
    ensures formula { IfOk result (λ made. IsFormula made.0) }
    ensures refutes { IfOk result (λ made. Refutes made.0 made.1) }
    ensures no_model { IfOk result (λ made. HasModel made.0 → ⊥) }
    ensures one_step { IfOk result (λ made. length made.1 ≡ 1) }
{
    let mut clauses = Clauses::new(alloc);
    clauses.push(unit_clause(alloc, Lit(0))?)?;
    clauses.push(unit_clause(alloc, Lit(1))?)?;
    let mut hints = Hints::new(alloc);
    hints.push(1)?;
    hints.push(2)?;
    let mut log = Log::new(alloc);
    log.push(LogStep {
        clause: Clause::new(alloc),
        hints,
    })?;
    let formula = Cnf {
        variables: 1,
        clauses,
    };
    Ok((formula, log))
}

/// The clause of one literal.
fn unit_clause(alloc: Global, lit: Lit) -> Result<Clause, Memory>
    ensures { IfOk result (λ clause. clause ≡ lit ∷ []) }
{
    let mut clause = Clause::new(alloc);
    clause.push(lit)?;
    Ok(clause)
}
