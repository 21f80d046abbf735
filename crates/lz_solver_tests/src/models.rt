//! Formulas and models of lz_cnf.

use lz_cnf::{Assignment, Clause, Clauses, Cnf, Lit};
use std::alloc::Global;
use std::test::Fail;

/// A clause of one literal.
fn unit(alloc: Global, lit: Lit) -> Result<Clause, Fail> {
    let mut clause = Clause::new(alloc);
    clause.push(lit).ok().ok_or("memory")?;
    Ok(clause)
}

/// One clause for a variable and one against it: neither value is a model.
#[test]
fn opposite_units_have_no_model(rt: HostRuntime) -> Result<(), Fail> {
    let mut clauses = Clauses::new(rt.alloc());
    clauses
        .push(unit(rt.alloc(), Lit(0))?)
        .ok()
        .ok_or("memory")?;
    clauses
        .push(unit(rt.alloc(), Lit(1))?)
        .ok()
        .ok_or("memory")?;
    let formula = Cnf {
        variables: 1,
        clauses,
    };
    for value in [false, true] {
        let mut model = Assignment::new(rt.alloc());
        model.push(value).ok().ok_or("memory")?;
        assert_eq!(rt; model.items().len(), 1, "{value}");
        assert!(rt; !formula.satisfied_by(&model), "{value}");
    }
    Ok(())
}
