//! A circuit as text. Variable v of a formula is v + 1 in DIMACS form, where 0 ends a clause.

use crate::circuit::Circuit;
use lz_base::{Bytes, Memory};
use lz_cnf::{Cnf, Lit};
use std::alloc::Global;

/// The literals of the operands and of the result in comments, then the formula.
pub fn text_of(alloc: Global, circuit: &Circuit) -> Result<Bytes, Memory> {
    let mut text = Bytes::new(alloc);
    for bits in circuit.operands.items() {
        append_line(&mut text, b"c operand ", bits.items())?;
    }
    append_line(&mut text, b"c result ", circuit.result.items())?;
    append_formula(&mut text, &circuit.formula)?;
    Ok(text)
}

/// Adds a formula.
fn append_formula(text: &mut Bytes, formula: &Cnf) -> Result<(), Memory> {
    text.append(b"p cnf ")?;
    text.append_number(u64::from(formula.variables))?;
    text.append(b" ")?;
    text.append_number(formula.clauses.items().len() as u64)?;
    text.append(b"\n")?;
    for clause in formula.clauses.items() {
        append_line(text, b"", clause.items())?;
    }
    Ok(())
}

/// Adds a line of literals behind a text.
fn append_line(text: &mut Bytes, head: &[u8], lits: &[Lit]) -> Result<(), Memory> {
    text.append(head)?;
    for lit in lits {
        append_literal(text, *lit)?;
        text.append(b" ")?;
    }
    text.append(b"0\n")
}

/// Adds a literal.
fn append_literal(text: &mut Bytes, lit: Lit) -> Result<(), Memory> {
    if lit.0 % 2 == 1 {
        text.append(b"-")?;
    }
    text.append_number(u64::from(lit.variable()) + 1)
}
