//! Propagation by lz_prop.

use lz_cnf::{Clause, Clauses, Cnf, Lit};
use lz_prop::{Propagated, Trail};
use std::alloc::Global;
use std::process::Abort;
use std::test::Fail;

/// A formula of these clauses, none of which has more than two literals.
fn formula_of(alloc: Global, variables: u32, rows: &[(u32, u32)]) -> Result<Cnf, Fail> {
    let mut clauses = Clauses::new(alloc);
    for (one, other) in rows {
        let mut clause = Clause::new(alloc);
        clause.push(Lit(*one)).ok().ok_or("memory")?;
        clause.push(Lit(*other)).ok().ok_or("memory")?;
        clauses.push(clause).ok().ok_or("memory")?;
    }
    Ok(Cnf { variables, clauses })
}

/// The reason of a row, clauses of two variables, what propagation finds, and how many variables are then set.
type Row<'a> = (&'a str, &'a [(u32, u32)], Propagated, usize);

/// Propagates in each row's formula.
fn rows_propagate(rt: &impl Abort, alloc: Global, rows: &[Row<'_>]) -> Result<(), Fail> {
    for (reason, clauses, wanted, set) in rows {
        let formula = formula_of(alloc, 2, clauses)?;
        assert!(rt; formula.is_formula(), "a formula");
        assert!(rt; formula.has_no_empty_clause(), "no empty clause");
        let mut trail = Trail::new(alloc, &formula).ok().ok_or("memory")?;
        let found = trail.propagate().ok().ok_or("memory")?;
        assert_eq!(rt; found, *wanted, "{reason}");
        assert_eq!(rt; trail.order().len(), *set, "{reason}");
    }
    Ok(())
}

/// What propagation finds before any decision.
#[test]
fn propagates_at_the_start(rt: HostRuntime) -> Result<(), Fail> {
    let rows: [Row<'_>; 4] = [
        ("nothing follows from no clause", &[], Propagated::Quiet, 0),
        ("two literals are open", &[(0, 2)], Propagated::Quiet, 0),
        (
            "a literal that stands twice is unit, and makes the next clause unit",
            &[(0, 0), (1, 2)],
            Propagated::Quiet,
            2,
        ),
        (
            "a clause that becomes false",
            &[(0, 0), (1, 1)],
            Propagated::Conflict { clause: 2 },
            1,
        ),
    ];
    rows_propagate(&rt, rt.alloc(), &rows)
}
