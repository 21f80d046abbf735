//! Formulas in DIMACS: a line `p cnf V F`, then clauses, each with a 0 at its end. Lines that begin with `c` are comments.

ghost use Rattle.std.specs.Prelude.{◌<◌};

use lz_base::Memory;
use lz_cnf::{Clause, Clauses, Cnf, Lit};
use std::alloc::Global;
use std::mem;

/// The literal of a variable, counted from 1.
fn literal(variable: u32, negated: bool) -> Lit {
    let twice = variable.wrapping_sub(1).wrapping_mul(2);
    if negated {
        Lit(twice.wrapping_add(1))
    } else {
        Lit(twice)
    }
}

/// The number of variables that the first line tells of.
fn variables_of(line: &str) -> Option<u32> {
    let mut words = line.split(' ').skip(2);
    let word = words.next()?;
    word.parse::<u32>().ok()
}

/// Adds the literals of a line, and the clauses that end in it. Answers whether all are numbers.
fn read_line(
    alloc: Global,
    line: &str,
    clause: &mut Clause,
    clauses: &mut Clauses,
) -> Result<bool, Memory> {
    for word in line.split(' ') {
        if word.is_empty() {
            continue;
        }
        match word.parse::<i32>() {
            Ok(0) => clauses.push(mem::replace(clause, Clause::new(alloc)))?,
            Ok(number) => clause.push(literal(number.unsigned_abs(), number < 0))?,
            Err(_) => return Ok(false),
        }
    }
    Ok(true)
}

/// The formula that a text tells of.
pub fn read_formula(alloc: Global, text: &str) -> Result<Option<Cnf>, Memory> {
    let mut variables = 0;
    let mut clauses = Clauses::new(alloc);
    let mut clause = Clause::new(alloc);
    for line in text.lines() {
        if line.starts_with("p") {
            match variables_of(line) {
                Some(count) => variables = count,
                None => return Ok(None),
            }
        } else if !line.starts_with("c") && !read_line(alloc, line, &mut clause, &mut clauses)? {
            return Ok(None);
        }
    }
    Ok(Some(Cnf { variables, clauses }))
}
