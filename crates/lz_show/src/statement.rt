//! Declarations and statements as text.

use crate::expression::{expression, expressions, optional};
use crate::text::Text;
use crate::words::type_word;
use lz_base::Memory;
use lz_tree::{Declarator, First, Objects, Stmt};

/// Adds an initializer.
fn initializer(text: &mut Text<'_>, first: &First) -> Result<(), Memory> {
    match first {
        First::Nothing => text.word(b"-"),
        First::Value { value } => expression(text, value),
        First::Listed { values, comma } => {
            text.open(b"list")?;
            text.choice(*comma, b"comma", b"-")?;
            expressions(text, values)?;
            text.close()
        }
        First::Mutex => text.word(b"mutex"),
        First::Cond => text.word(b"cond"),
    }
}

/// Adds a declarator.
fn declarator(text: &mut Text<'_>, of: &Declarator) -> Result<(), Memory> {
    text.open_at(b"declarator", of.line)?;
    text.name(of.name)?;
    optional(text, &of.length)?;
    initializer(text, &of.first)?;
    text.close()
}

/// Adds a declaration of objects.
pub fn objects(text: &mut Text<'_>, of: &Objects) -> Result<(), Memory> {
    text.open_at(b"objects", of.line)?;
    text.word(type_word(of.base))?;
    for item in of.declarators.items() {
        declarator(text, item)?;
    }
    text.close()
}

/// Adds the statement behind `else`, if any.
#[cycle(statement)]
fn branch(text: &mut Text<'_>, of: &Option<Box<Stmt>>) -> Result<(), Memory> {
    match of {
        None => text.word(b"-"),
        Some(s) => statement(text, s),
    }
}

/// Adds statements, one behind the other.
#[cycle(statement)]
fn statements(text: &mut Text<'_>, items: &[Stmt]) -> Result<(), Memory> {
    for item in items {
        statement(text, item)?;
    }
    Ok(())
}

/// Adds a statement.
#[cycle(statement)]
pub fn statement(text: &mut Text<'_>, s: &Stmt) -> Result<(), Memory> {
    match s {
        Stmt::Empty => text.open(b"empty")?,
        Stmt::Eval { value } => {
            text.open(b"eval")?;
            expression(text, value)?;
        }
        Stmt::Block { parts } => {
            text.open(b"block")?;
            statements(text, parts)?;
        }
        Stmt::Declare { of } => {
            text.open(b"declare")?;
            objects(text, of)?;
        }
        Stmt::If {
            line,
            test,
            yes,
            no,
        } => {
            text.open_at(b"if", *line)?;
            expression(text, test)?;
            statement(text, yes)?;
            branch(text, no)?;
        }
        Stmt::While { line, test, body } => {
            text.open_at(b"while", *line)?;
            expression(text, test)?;
            statement(text, body)?;
        }
        Stmt::Do { line, body, test } => {
            text.open_at(b"do", *line)?;
            statement(text, body)?;
            expression(text, test)?;
        }
        Stmt::For {
            line,
            first,
            test,
            step,
            body,
        } => {
            text.open_at(b"for", *line)?;
            statement(text, first)?;
            optional(text, test)?;
            optional(text, step)?;
            statement(text, body)?;
        }
        Stmt::Break { line } => text.open_at(b"break", *line)?,
        Stmt::Continue { line } => text.open_at(b"continue", *line)?,
        Stmt::Return { line, value } => {
            text.open_at(b"return", *line)?;
            optional(text, value)?;
        }
        Stmt::Label { name, of } => {
            text.open(b"label")?;
            text.name(*name)?;
            statement(text, of)?;
        }
    }
    text.close()
}
