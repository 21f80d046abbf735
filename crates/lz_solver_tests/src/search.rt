//! The search by lz_solve, and the parts that it is made of.

use lz_analyze::learn;
use lz_base::{Memory, Sequence};
use lz_cnf::{Clause, Cnf, Lit};
use lz_prop::{Propagated, Trail};
use lz_solve::{Solved, solve};
use std::alloc::Global;
use std::process::Abort;
use std::test::Fail;

/// Ends a clause in the tables.
const END: u32 = u32::MAX;

/// The formula of clauses that are given by the numbers of their literals.
fn formula(alloc: Global, variables: u32, numbers: &[u32]) -> Result<Cnf, Memory> {
    let mut clauses = Sequence::new(alloc);
    let mut clause: Clause = Sequence::new(alloc);
    for number in numbers {
        if *number == END {
            clauses.push(clause)?;
            clause = Sequence::new(alloc);
        } else {
            clause.push(Lit(*number))?;
        }
    }
    Ok(Cnf { variables, clauses })
}

/// The kind of the answer, and the number of its values or steps.
fn answer(alloc: Global, cnf: &Cnf, conflicts: u64) -> Result<(&'static str, usize), Memory> {
    if !cnf.is_formula()
        || !cnf.has_no_empty_clause()
        || conflicts < 1
        || conflicts > 1000000
        || cnf.clauses.items().len() > 1000000
    {
        return Err(Memory);
    }
    match solve(alloc, cnf, conflicts)? {
        Solved::Sat(values) => Ok(("model", values.items().len())),
        Solved::Unsat(log) => Ok(("refuted", log.items().len())),
        Solved::Spent(log) => Ok(("spent", log.items().len())),
    }
}

/// A formula's variables and numbers, the conflicts that are allowed, the kind of the answer with the number of its values or
/// steps, and the reason of the row.
type Row<'a> = (u32, &'a [u32], u64, &'a str, usize, &'a str);

/// Solves each row's formula.
fn rows_answer(rt: &impl Abort, alloc: Global, rows: &[Row<'_>]) -> Result<(), Fail> {
    for (variables, numbers, conflicts, kind, count, reason) in rows {
        let cnf = formula(alloc, *variables, numbers)?;
        let (was, len) = answer(alloc, &cnf, *conflicts)?;
        assert!(rt; was == *kind && len == *count, "{reason}");
    }
    Ok(())
}

/// Formulas, each with the conflicts that are allowed and the answer.
#[test]
fn answers_with_ample_memory(rt: HostRuntime) -> Result<(), Fail> {
    let square: &[u32] = &[0, 2, END, 1, 2, END, 0, 3, END, 1, 3, END];
    let rows: [Row<'_>; 10] = [
        (0, &[], 1, "model", 0, "no variables and no clauses"),
        (1, &[], 1, "model", 1, "no clauses"),
        (1, &[1, END], 1, "model", 1, "one literal"),
        (1, &[0, 0, END], 1, "model", 1, "a repeated literal is one"),
        (1, &[0, 1, END], 1, "model", 1, "both signs"),
        (
            2,
            &[0, 2, END, 0, 2, END],
            1,
            "model",
            2,
            "twice the same clause",
        ),
        (
            2,
            &[0, END, 1, 2, END, 1, 3, END],
            1,
            "refuted",
            1,
            "propagation alone refutes",
        ),
        (
            1,
            &[0, END, 1, END],
            1,
            "refuted",
            1,
            "a variable that is true and false",
        ),
        (
            2,
            square,
            1,
            "spent",
            1,
            "no value of two variables, one conflict",
        ),
        (
            2,
            square,
            9,
            "refuted",
            2,
            "no value of two variables, nine conflicts",
        ),
    ];
    rows_answer(&rt, rt.alloc(), &rows)
}

/// What propagation finds in a formula, and how many literals are then true.
fn found(alloc: Global, cnf: &Cnf) -> Result<(Propagated, usize), Memory> {
    if !cnf.is_formula() || !cnf.has_no_empty_clause() {
        return Err(Memory);
    }
    let mut trail = Trail::new(alloc, cnf)?;
    let answer = trail.propagate()?;
    Ok((answer, trail.order().len()))
}

/// What is learnt where propagation refutes a formula: how many literals and hints, and the level.
fn learnt_at_zero(alloc: Global, cnf: &Cnf) -> Result<(usize, usize, u32), Memory> {
    if !cnf.is_formula() || !cnf.has_no_empty_clause() {
        return Err(Memory);
    }
    let mut trail = Trail::new(alloc, cnf)?;
    match trail.propagate()? {
        Propagated::Quiet => Err(Memory),
        Propagated::Conflict { clause } => {
            let learnt = learn(alloc, &trail, clause)?;
            Ok((
                learnt.clause.items().len(),
                learnt.hints.items().len(),
                learnt.level,
            ))
        }
    }
}

/// The number of a clause that is added to those of a formula, and what propagation then finds.
fn added(alloc: Global, cnf: &Cnf) -> Result<(u32, Propagated), Memory> {
    if !cnf.is_formula() || !cnf.has_no_empty_clause() || cnf.variables < 1 {
        return Err(Memory);
    }
    let mut trail = Trail::new(alloc, cnf)?;
    let number = trail.add(&[Lit(0)])?;
    let answer = trail.propagate()?;
    Ok((number, answer))
}

/// What propagation finds, what is learnt of it, and how an added clause is numbered.
#[test]
fn trail_and_learning(rt: HostRuntime) -> Result<(), Fail> {
    let alloc = rt.alloc();
    let chain = formula(alloc, 3, &[1, 2, END, 3, 4, END, 0, END])?;
    assert!(rt;
        found(alloc, &chain)? == (Propagated::Quiet, 3),
        "a chain from its last clause"
    );
    let refuted = formula(alloc, 2, &[0, END, 1, 2, END, 1, 3, END])?;
    assert!(rt;
        found(alloc, &refuted)? == (Propagated::Conflict { clause: 3 }, 2),
        "the third clause is false"
    );
    assert!(rt;
        learnt_at_zero(alloc, &refuted)? == (0, 3, 0),
        "the empty clause by all three"
    );
    let open = formula(alloc, 2, &[1, 2, END])?;
    assert!(rt;
        added(alloc, &open)? == (2, Propagated::Quiet),
        "numbered after the formula's"
    );
    Ok(())
}
