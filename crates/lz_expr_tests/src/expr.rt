//! Expressions: what is read of a row of tokens, and the token at which it ends or that is refused.

use crate::letters::tokens_of;
use lz_expr::{ParseError, parse_expression};
use lz_tree::{Binary, Expr, TypeName, Unary};
use std::alloc::Global;
use std::process::Abort;
use std::test::*;

/// The expression with each node in parentheses.
#[cycle(shape)]
fn shape(of: &Expr, text: &mut String) -> Result<(), std::alloc::AllocError> {
    text.push_str("(")?;
    match of {
        Expr::Constant { .. } => text.push_str("1")?,
        Expr::Null { .. } => text.push_str("O")?,
        Expr::Text { .. } => text.push_str("\"")?,
        Expr::Object { target } => index_shape(&target.index, text)?,
        Expr::Address { target, .. } => {
            text.push_str("$")?;
            index_shape(&target.index, text)?
        }
        Expr::Paren { inner, .. } => shape(inner, text)?,
        Expr::Unary { op, of, .. } => {
            text.push_str(match op {
                Unary::Plus => "+",
                Unary::Minus => "-",
                Unary::Invert => "~",
                Unary::Not => "!",
            })?;
            shape(of, text)?
        }
        Expr::Cast { to, of, .. } => {
            text.push_str(match to {
                TypeName::Int => "N",
                TypeName::UnsignedLongLongInt => "ULLN",
                TypeName::VoidPointer => "V*",
                _ => "?",
            })?;
            shape(of, text)?
        }
        Expr::Binary {
            op,
            left,
            right,
            ..
        } => {
            shape(left, text)?;
            text.push_str(match op {
                Binary::Add => "+",
                Binary::Sub => "-",
                Binary::Mul => "*",
                Binary::Lt => "<",
                Binary::Both => "&",
                Binary::Either => "|",
                _ => "?",
            })?;
            shape(right, text)?
        }
        Expr::Choose { test, yes, no, .. } => {
            shape(test, text)?;
            text.push_str("?")?;
            shape(yes, text)?;
            text.push_str(":")?;
            shape(no, text)?
        }
        Expr::Assign {
            op,
            target,
            value,
            ..
        } => {
            index_shape(&target.index, text)?;
            text.push_str(if op.is_some() { "@" } else { "=" })?;
            shape(value, text)?
        }
        Expr::Step {
            target,
            up,
            before,
            ..
        } => {
            let sign = if *up { "#" } else { "_" };
            if *before {
                text.push_str(sign)?;
                index_shape(&target.index, text)?
            } else {
                index_shape(&target.index, text)?;
                text.push_str(sign)?
            }
        }
        Expr::Call { args, .. } => {
            text.push_str("f")?;
            for arg in args {
                shape(arg, text)?;
            }
        }
    }
    text.push_str(")")
}

#[cycle(shape)]
fn index_shape(index: &Option<Box<Expr>>, text: &mut String) -> Result<(), std::alloc::AllocError> {
    match index {
        None => text.push_str("o"),
        Some(inner) => {
            text.push_str("o[")?;
            shape(inner, text)?;
            text.push_str("]")
        }
    }
}

/// What is answered for the letters: the shape and the token behind it, or the refused token and its line.
fn answer(alloc: Global, letters: &str, height: u32, assign: bool) -> Result<String, Fail> {
    let tokens = tokens_of(alloc, letters.as_bytes())?;
    if height == 0 || tokens.list.items().len() > 1000 {
        return Ok(String::new(alloc));
    }
    match parse_expression(alloc, &tokens, 0, height, assign) {
        Ok((of, at)) => {
            let mut text = String::new(alloc);
            shape(&of, &mut text)?;
            Ok(format!(in alloc; "{text} {at}")?)
        }
        Err(ParseError::NotAProgram { token, line }) => Ok(format!(in alloc; "no {token} {line}")?),
        Err(ParseError::Memory) => Ok(format!(in alloc; "memory")?),
    }
}

/// Each row's letters, what is answered for them at the height 200, and why.
fn agree<R: Abort + AllocGlobal>(
    rt: &R,
    rows: &[(&str, &str, &str)],
    assign: bool,
) -> Result<(), Fail> {
    for (letters, wanted, why) in rows {
        assert_eq!(rt;
            answer(rt.alloc(), letters, 200, assign)?.as_str(),
            *wanted,
            "{letters}: {why}"
        );
    }
    Ok(())
}

/// The same with a height for each row.
fn agree_at<R: Abort + AllocGlobal>(rt: &R, rows: &[(&str, u32, &str, &str)]) -> Result<(), Fail> {
    for (letters, height, wanted, why) in rows {
        assert_eq!(rt;
            answer(rt.alloc(), letters, *height, true)?.as_str(),
            *wanted,
            "{letters}: {why}"
        );
    }
    Ok(())
}

#[test]
fn expressions(rt: HostRuntime) -> Result<(), Fail> {
    agree(
        &rt,
        &[
            ("1", "(1) 1", "a constant"),
            ("O;", "(O) 1", "what cannot go on ends it"),
            (
                "a-b-c",
                "(((o)-(o))-(o)) 5",
                "binary operators group to the left",
            ),
            ("a+b*c", "((o)+((o)*(o))) 5", "a tighter operator first"),
            ("a|b&c", "((o)|((o)&(o))) 5", "`&&` is tighter than `||`"),
            ("(a+b)*c", "((((o)+(o)))*(o)) 7", "parentheses are nodes"),
            (
                "(N)a+b",
                "((N(o))+(o)) 6",
                "a cast takes a unary expression",
            ),
            ("(ULLN)-a", "(ULLN(-(o))) 8", "a type of four words"),
            ("(V*)1", "(V*(1)) 5", "`void *`"),
            ("(V)1", "no 2 3", "`void` alone is no type of a cast"),
            (
                "a?b:c?d:e",
                "((o)?(o):((o)?(o):(o))) 9",
                "a choice groups to the right",
            ),
            (
                "a=b@c",
                "(o=(o@(o))) 5",
                "an assignment groups to the right",
            ),
            ("a[i]=1", "(o[(o)]=(1)) 6", "an element is assigned"),
            ("a+b=c", "((o)+(o)) 3", "only a target is assigned"),
            ("#a", "(#o) 2", "a step before"),
            ("a[1]_", "(o[(1)]_) 5", "a step behind"),
            ("a##", "(o#) 2", "a step has no step behind it"),
            ("!-a", "(!(-(o))) 3", "unary operators one behind the other"),
            ("f()", "(f) 3", "no argument"),
            ("f(a,b=1)", "(f(o)(o=(1))) 8", "arguments are assignments"),
            ("f(a,)", "no 4 5", "no argument behind a comma"),
            ("f(", "no 2 3", "the end is refused on the last line"),
            ("$a[1]", "($o[(1)]) 5", "an address"),
            ("a+", "no 2 3", "an operand is missing"),
            ("a+;", "no 2 3", "no operand"),
            (";", "no 0 1", "nothing begins so"),
            ("", "no 0 1", "nothing at all"),
        ],
        true,
    )
}

#[test]
fn choices_hold_no_assignment(rt: HostRuntime) -> Result<(), Fail> {
    agree(
        &rt,
        &[
            ("a=1", "(o) 1", "it ends before an assignment"),
            (
                "a?b=1:c",
                "((o)?(o=(1)):(o)) 7",
                "but between its marks one stands",
            ),
        ],
        false,
    )
}

#[test]
fn heights(rt: HostRuntime) -> Result<(), Fail> {
    agree_at(
        &rt,
        &[
            ("(a)", 1, "no 0 1", "no room for parentheses"),
            ("(a)", 2, "((o)) 3", "room for them"),
            ("a+b", 1, "(o) 1", "no operator where there is no room"),
            ("a+b+c", 2, "((o)+(o)) 3", "one operator"),
            ("a+b+c", 3, "(((o)+(o))+(o)) 5", "two of them"),
            (
                "a+(b)",
                2,
                "no 2 3",
                "the operand has room for a name alone",
            ),
            ("a[1]", 1, "(o) 1", "no room for an index"),
            ("a[1]", 2, "(o[(1)]) 4", "room for one"),
            ("f()", 1, "(f) 3", "a call without arguments"),
            ("f(1)", 1, "no 2 3", "no room for an argument"),
            ("a=1", 1, "(o) 1", "no room for a value"),
            ("a?b:c", 1, "(o) 1", "no room for a choice"),
            ("$a", 1, "($o) 2", "an address has no part"),
            ("!a", 1, "no 0 1", "no room for an operand"),
            ("(N)a", 1, "no 0 1", "nor for that of a cast"),
        ],
    )
}
