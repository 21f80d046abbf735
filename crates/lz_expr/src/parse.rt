ghost use Rattle.std.specs.Prelude.{◌≡◌, ℕ, ◌^◌, ◌<◌, ◌≤◌, List, length, IfOk, IfErr};
ghost use Rattle.lz_tree.specs.Trees.{Expression, expression};
ghost use Rattle.lz_tree.specs.WellFormed.{InExpression};
ghost use Rattle.lz_tree.specs.declared.token.Token.{Token};
ghost use Rattle.lz_expr.specs.Fronts.{class_of, IsExpressionAt, IsNoExpressionAt};
ghost use Rattle.lz_expr.specs.Lines.{line_of};

use crate::error::ParseError;
use crate::expression::{ASSIGN, CHOOSE, read_class};
use crate::refusal::Refusal;
use lz_tree::{Expr, Tokens};
use std::alloc::Global;

/// The line of the token at the place, or past the last one the line at the end.
pub fn line_of(tokens: &Tokens, at: usize) -> u32
    ensures { result ≡ line_of tokens.now at }
{
    match tokens.list.items().get(at) {
        Some(token) => token.line,
        None => tokens.end_line,
    }
}

/// The class of the expressions that are meant.
fn class_of(assign: bool) -> u8
    ensures class { result ≡ class_of assign }
    ensures small { result ≤ 12 }
{
    if assign { ASSIGN } else { CHOOSE }
}

/// The expression that stands from the token `from` on, and the place of the token behind it (C99 6.5). The
/// expressions meant are assignments where `assign` holds, and otherwise choices, of at most the height.
pub fn parse_expression(
    alloc: Global,
    tokens: &Tokens,
    from: u32,
    height: u32,
    assign: bool,
) -> Result<(Expr, u32), ParseError>
    requires some { 0 < height }
    requires inside { from ≤ length tokens.now.list }
    requires few { length tokens.now.list < 2 ^ 32 }
    // The expression is spelled by the longest row of tokens with which any of them begins.
    ensures found { IfOk result (λ x. IsExpressionAt tokens.now from height assign (expression x.0) x.1) }
    // Where that row spells none, the token behind it is named.
    ensures refused { IfErr result (IsNoExpressionAt tokens.now from height assign) }
{
    let items = tokens.list.items();
    let class = class_of(assign);
    match read_class(alloc, &items[from as usize..], height, class) {
        Ok((of, _, rest)) => Ok((of, (items.len() - rest.len()) as u32)),
        Err(Refusal::Refused { left }) => {
            let at = items.len() - left;
            Err(ParseError::NotAProgram {
                token: at as u32,
                line: line_of(tokens, at),
            })
        }
        Err(Refusal::Memory) => Err(ParseError::Memory),
    }
}

/// No two expressions of at most some height spell the same tokens.
pub fn one_expression()
    ensures { (h : ℕ) (e f : Expression) (ts : List Token) → InExpression h 12 e ts → InExpression h 12 f ts → e ≡ f }
{}
