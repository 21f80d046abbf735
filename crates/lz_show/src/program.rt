//! Programs as text.

use crate::statement::{objects, statement};
use crate::text::Text;
use crate::words::type_word;
use lz_base::Memory;
use lz_tree::{External, Lead, Param, Program};

/// Adds a parameter.
fn param(text: &mut Text<'_>, of: Param) -> Result<(), Memory> {
    text.open_at(b"param", of.line)?;
    text.word(type_word(of.base))?;
    match of.name {
        None => text.word(b"-")?,
        Some(name) => text.name(name)?,
    }
    text.close()
}

/// Adds parameters.
fn parameters(text: &mut Text<'_>, items: &[Param], void_word: bool) -> Result<(), Memory> {
    text.open(b"params")?;
    text.choice(void_word, b"void", b"-")?;
    for item in items {
        param(text, *item)?;
    }
    text.close()
}

/// Adds the word that a prototype begins with, if any.
fn lead_word(text: &mut Text<'_>, lead: Lead) -> Result<(), Memory> {
    match lead {
        Lead::Nothing => text.word(b"-"),
        Lead::Hidden => text.word(b"static"),
        Lead::Outside => text.word(b"extern"),
    }
}

/// Adds an external declaration.
fn external(text: &mut Text<'_>, of: &External) -> Result<(), Memory> {
    match of {
        External::Objects { hidden, of } => {
            text.open(b"global")?;
            text.choice(*hidden, b"static", b"-")?;
            objects(text, of)?;
        }
        External::Prototype {
            line,
            lead,
            gives,
            name,
            params,
            void_word,
        } => {
            text.open_at(b"prototype", *line)?;
            lead_word(text, *lead)?;
            text.word(type_word(*gives))?;
            text.name(*name)?;
            parameters(text, params.items(), *void_word)?;
        }
        External::Function {
            line,
            hidden,
            gives,
            name,
            params,
            void_word,
            body,
        } => {
            text.open_at(b"function", *line)?;
            text.choice(*hidden, b"static", b"-")?;
            text.word(type_word(*gives))?;
            text.name(*name)?;
            parameters(text, params.items(), *void_word)?;
            statement(text, body)?;
        }
    }
    text.close()
}

/// Adds the names of a program in a line, and each external declaration in one.
pub fn program(text: &mut Text<'_>, of: &Program) -> Result<(), Memory> {
    text.word(b"names")?;
    text.all_names()?;
    text.end_line()?;
    for item in of.externals.items() {
        external(text, item)?;
        text.end_line()?;
    }
    Ok(())
}
