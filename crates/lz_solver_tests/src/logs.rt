//! Logs and proof texts of lz_log.

use lz_cnf::{Clause, Clauses, Cnf, Lit};
use lz_log::{Hints, Log, LogStep, ProofError, Scratch, check_log, print_proof, read_proof};
use std::alloc::Global;
use std::process::Abort;
use std::test::Fail;

/// A clause of these literals.
fn clause_of(alloc: Global, lits: &[u32]) -> Result<Clause, Fail> {
    let mut clause = Clause::new(alloc);
    for lit in lits {
        clause.push(Lit(*lit)).ok().ok_or("memory")?;
    }
    Ok(clause)
}

/// The formula of one variable that is to be true and to be false.
fn both(alloc: Global) -> Result<Cnf, Fail> {
    let mut clauses = Clauses::new(alloc);
    clauses.push(clause_of(alloc, &[0])?).ok().ok_or("memory")?;
    clauses.push(clause_of(alloc, &[1])?).ok().ok_or("memory")?;
    Ok(Cnf {
        variables: 1,
        clauses,
    })
}

/// The log of one step.
fn one_step(alloc: Global, lits: &[u32], hints: &[u32]) -> Result<Log, Fail> {
    let mut kept = Hints::new(alloc);
    kept.append(hints).ok().ok_or("memory")?;
    let clause = clause_of(alloc, lits)?;
    let mut log = Log::new(alloc);
    log.push(LogStep {
        clause,
        hints: kept,
    })
    .ok()
    .ok_or("memory")?;
    Ok(log)
}

/// The reason of a row, the literals and the hints of a step, and what the check of its log answers: None where it refutes,
/// else the bad step.
type LogRow<'a> = (&'a str, &'a [u32], &'a [u32], Option<u64>);

/// Checks each row's log of the formula of one variable.
fn logs_agree(rt: &impl Abort, alloc: Global, rows: &[LogRow<'_>]) -> Result<(), Fail> {
    let formula = both(alloc)?;
    assert!(rt; formula.is_formula(), "a formula");
    for (reason, lits, hints, wanted) in rows {
        let log = one_step(alloc, lits, hints)?;
        let mut scratch = Scratch::new(alloc, formula.variables).ok().ok_or("memory")?;
        let bad = check_log(&formula, &log, &mut scratch).err();
        assert_eq!(rt; bad.map(|b| b.index), *wanted, "{reason}");
    }
    Ok(())
}

/// Logs of one step, each with what its check answers.
#[test]
fn logs_of_one_step(rt: HostRuntime) -> Result<(), Fail> {
    let rows: [LogRow<'_>; 7] = [
        ("both hints are needed, in this order", &[], &[1, 2], None),
        ("the last hint's clause is only unit", &[], &[1], Some(0)),
        ("no hint", &[], &[], Some(0)),
        ("a hint of the step itself", &[], &[1, 3], Some(0)),
        ("a hint of nothing", &[], &[0, 2], Some(0)),
        ("no step is empty", &[0], &[1], Some(1)),
        ("a variable that the formula lacks", &[2], &[1, 2], Some(0)),
    ];
    logs_agree(&rt, rt.alloc(), &rows)
}

/// The text of a formula and its log.
#[test]
fn prints_a_proof(rt: HostRuntime) -> Result<(), Fail> {
    let alloc = rt.alloc();
    let formula = both(alloc)?;
    let log = one_step(alloc, &[], &[1, 2])?;
    let text = print_proof(alloc, &formula, &log).ok().ok_or("memory")?;
    assert_eq!(rt;
        text.items(),
        b"p cnf 1 2\n1 0\n-1 0\nl 0 1 2 0\n".as_slice()
    );
    Ok(())
}

/// The reason of a row, a text, and what reading it and checking its log answers.
type ProofRow<'a> = (&'a str, &'a [u8], Read);

/// Reads each row's text.
fn proofs_agree(rt: &impl Abort, alloc: Global, rows: &[ProofRow<'_>]) -> Result<(), Fail> {
    for (reason, text, wanted) in rows {
        let found = read_and_check(alloc, text)?;
        assert_eq!(rt; found, *wanted, "{reason}");
    }
    Ok(())
}

/// Texts, each with what reading it and checking its log answers: a line that says nothing, a step that does not follow,
/// or neither.
#[test]
fn reads_a_proof(rt: HostRuntime) -> Result<(), Fail> {
    let rows: [ProofRow<'_>; 19] = [
        (
            "both clauses refute",
            b"p cnf 1 2\n1 0\n-1 0\nl 0 1 2 0\n",
            Read::Refuted,
        ),
        (
            "one clause does not",
            b"p cnf 1 2\n1 0\n-1 0\nl 0 1 0\n",
            Read::BadStep(0),
        ),
        ("no step", b"p cnf 1 2\n1 0\n-1 0\n", Read::BadStep(0)),
        ("a clause is missing", b"p cnf 1 2\n1 0\n", Read::BadLine(3)),
        ("nothing", b"", Read::BadLine(1)),
        (
            "no number of clauses",
            b"p cnf 1\n1 0\n-1 0\n",
            Read::BadLine(1),
        ),
        (
            "a variable too many",
            b"p cnf 1 2\n2 0\n-1 0\n",
            Read::BadLine(2),
        ),
        (
            "a step that names itself",
            b"p cnf 1 2\n1 0\n-1 0\nl 0 1 3 0\n",
            Read::BadLine(4),
        ),
        (
            "a leading zero",
            b"p cnf 1 2\n01 0\n-1 0\n",
            Read::BadLine(2),
        ),
        ("two spaces", b"p cnf 1 2\n1  0\n-1 0\n", Read::BadLine(2)),
        (
            "a trailing space",
            b"p cnf 1 2\n1 0 \n-1 0\n",
            Read::BadLine(2),
        ),
        (
            "a minus sign alone",
            b"p cnf 1 2\n- 0\n-1 0\n",
            Read::BadLine(2),
        ),
        (
            "a literal 0 of a sign",
            b"p cnf 1 2\n-0\n-1 0\n",
            Read::BadLine(2),
        ),
        (
            "the last newline is missing",
            b"p cnf 1 2\n1 0\n-1 0\nl 0 1 2 0",
            Read::BadLine(4),
        ),
        (
            "an empty line at the end",
            b"p cnf 1 2\n1 0\n-1 0\nl 0 1 2 0\n\n",
            Read::BadLine(5),
        ),
        (
            "a variable past every number",
            b"p cnf 1 1\n99999999999999999999999999 0\n",
            Read::BadLine(2),
        ),
        (
            "more clauses than any text has",
            b"p cnf 1 99999999999999999999999999\n1 0\n",
            Read::BadLine(3),
        ),
        (
            "a variable past the limit",
            b"p cnf 2147483648 0\n",
            Read::BadLine(1),
        ),
        (
            "as many variables as may be",
            b"p cnf 2147483647 0\n",
            Read::BadStep(0),
        ),
    ];
    proofs_agree(&rt, rt.alloc(), &rows)
}

/// What reading a text and checking its log answers.
#[derive(Clone, Copy, Debug, PartialEq, Eq)]
enum Read {
    Refuted,
    BadLine(u32),
    BadStep(u64),
}

/// Reads a text and checks its log.
fn read_and_check(alloc: Global, text: &[u8]) -> Result<Read, Fail> {
    if text.len() > 1_000_000 {
        return Err("too long".into());
    }
    match read_proof(alloc, text) {
        Err(ProofError::Bad { line }) => Ok(Read::BadLine(line)),
        Err(ProofError::Memory) => Err("memory".into()),
        Ok((formula, log)) => {
            if formula.variables > 1_000_000 {
                return Ok(Read::BadStep(0));
            }
            let mut scratch = Scratch::new(alloc, formula.variables).ok().ok_or("memory")?;
            match check_log(&formula, &log, &mut scratch) {
                Ok(()) => Ok(Read::Refuted),
                Err(bad) => Ok(Read::BadStep(bad.index)),
            }
        }
    }
}
