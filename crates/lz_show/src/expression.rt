//! Expressions as text.

use crate::text::Text;
use crate::words::{binary_word, type_word, unary_word};
use lz_base::Memory;
use lz_tree::{Binary, Expr, Form, Target};

/// Adds how a constant is written.
fn form_word(text: &mut Text<'_>, form: Form) -> Result<(), Memory> {
    text.choice(form.decimal, b"decimal", b"other")?;
    text.choice(form.unsigned, b"unsigned", b"signed")?;
    text.number(u64::from(form.longs))
}

/// Adds the operator before the `=` of an assignment, or the `=` where it is none.
fn assigning(text: &mut Text<'_>, op: Option<Binary>) -> Result<(), Memory> {
    match op {
        None => text.word(b"="),
        Some(op) => text.word(binary_word(op)),
    }
}

/// Adds a target.
#[cycle(expression)]
fn target(text: &mut Text<'_>, of: &Target) -> Result<(), Memory> {
    text.open_at(b"target", of.line)?;
    text.name(of.name)?;
    match &of.index {
        None => {}
        Some(index) => expression(text, index)?,
    }
    text.close()
}

/// Adds expressions, one behind the other.
#[cycle(expression)]
pub fn expressions(text: &mut Text<'_>, items: &[Expr]) -> Result<(), Memory> {
    for item in items {
        expression(text, item)?;
    }
    Ok(())
}

/// Adds an expression.
#[cycle(expression)]
pub fn expression(text: &mut Text<'_>, e: &Expr) -> Result<(), Memory> {
    match e {
        Expr::Constant { line, value, form } => {
            text.open_at(b"constant", *line)?;
            text.number(*value)?;
            form_word(text, *form)?;
        }
        Expr::Null { line } => text.open_at(b"null", *line)?,
        Expr::Text { line } => text.open_at(b"text", *line)?,
        Expr::Object { target: of } => {
            text.open(b"object")?;
            target(text, of)?;
        }
        Expr::Address { line, target: of } => {
            text.open_at(b"address", *line)?;
            target(text, of)?;
        }
        Expr::Paren { line, inner } => {
            text.open_at(b"paren", *line)?;
            expression(text, inner)?;
        }
        Expr::Unary { line, op, of } => {
            text.open_at(b"unary", *line)?;
            text.word(unary_word(*op))?;
            expression(text, of)?;
        }
        Expr::Cast { line, to, of } => {
            text.open_at(b"cast", *line)?;
            text.word(type_word(*to))?;
            expression(text, of)?;
        }
        Expr::Binary {
            line,
            op,
            left,
            right,
        } => {
            text.open_at(b"binary", *line)?;
            text.word(binary_word(*op))?;
            expression(text, left)?;
            expression(text, right)?;
        }
        Expr::Choose {
            line,
            test,
            yes,
            no,
        } => {
            text.open_at(b"choose", *line)?;
            expression(text, test)?;
            expression(text, yes)?;
            expression(text, no)?;
        }
        Expr::Assign {
            line,
            op,
            target: of,
            value,
        } => {
            text.open_at(b"assign", *line)?;
            assigning(text, *op)?;
            target(text, of)?;
            expression(text, value)?;
        }
        Expr::Step {
            line,
            target: of,
            up,
            before,
        } => {
            text.open_at(b"step", *line)?;
            text.choice(*up, b"up", b"down")?;
            text.choice(*before, b"before", b"behind")?;
            target(text, of)?;
        }
        Expr::Call { line, name, args } => {
            text.open_at(b"call", *line)?;
            text.name(*name)?;
            expressions(text, args)?;
        }
    }
    text.close()
}

/// Adds an expression that may be left out.
pub fn optional(text: &mut Text<'_>, e: &Option<Expr>) -> Result<(), Memory> {
    match e {
        None => text.word(b"-"),
        Some(e) => expression(text, e),
    }
}
