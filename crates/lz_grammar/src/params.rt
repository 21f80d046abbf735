ghost use Rattle.std.specs.Prelude.{◌≡◌, [], ◌∷◌, true, false, if◌then◌else◌};
ghost use Rattle.lz_expr.specs.Reading.{and_then, pure, starts};
ghost use Rattle.lz_expr.specs.Grammar.{Reads};
ghost use Rattle.lz_grammar.specs.Grammar as spec;

use crate::types::{begins_type, read_type};
use lz_base::Sequence;
use lz_expr::{Opening, Refusal, begins, mark, name, opened_by};
use lz_tree::{Param, Params, Punct, Token, TypeName};
use std::alloc::Global;

/// Whether a name comes first.
#[tactic(auto, unfolding(crate::specs::Grammar::begins_name))]
fn begins_name(tokens: &[Token]) -> bool
    ensures { result ≡ starts spec.begins_name tokens.now }
{
    let [token, ..] = tokens else {
        return false;
    };
    opened_by(token.kind) == Opening::Name
}

/// A parameter, whose name may be left out, and what stands behind it.
#[tactic(auto, unfolding(crate::specs::Grammar::param))]
fn param(tokens: &[Token]) -> Result<(Param, &[Token]), Refusal>
    ensures { Reads (λ x. (x.0, x.1.now)) result (spec.param tokens.now) }
{
    let (line, base, rest) = read_type(tokens)?;
    if begins_name(rest) {
        let (_, number, rest) = name(rest)?;
        let name = Some(number);
        Ok((Param { line, base, name }, rest))
    } else {
        let name = None;
        Ok((Param { line, base, name }, rest))
    }
}

/// `,` and the parameter behind it.
#[tactic(auto, unfolding(crate::specs::Grammar::next_param))]
fn next_param(tokens: &[Token]) -> Result<(Param, &[Token]), Refusal>
    ensures { Reads (λ x. (x.0, x.1.now)) result (spec.next_param tokens.now) }
{
    let (_, rest) = mark(tokens, Punct::Comma)?;
    param(rest)
}

/// The parameters from a first one on, up to `)`.
#[tactic(auto, unfolding(crate::specs::Grammar::more_params))]
fn more_params<'a>(
    alloc: Global,
    first: Param,
    tokens: &'a [Token],
) -> Result<(Params, &'a [Token]), Refusal>
    ensures { Reads (λ x. (x.0, x.1.now)) result (and_then (spec.more_params tokens.now) (λ more. pure (first ∷ more))) }
{
    let mut params = Sequence::new(alloc);
    params.push(first)?;
    let mut rest = tokens;
    'turns: for _turn in 0..tokens.len() {
        if begins(rest, Punct::CloseParen) {
            break;
        }
        let (param, after) = next_param(rest)?;
        params.push(param)?;
        rest = after;
    }
    let (_, rest) = mark(rest, Punct::CloseParen)?;
    Ok((params, rest))
}

/// Parameters up to `)`.
#[tactic(auto, unfolding(crate::specs::Grammar::all_params, crate::specs::Grammar::some_params))]
fn all_params<'a>(alloc: Global, tokens: &'a [Token]) -> Result<(Params, &'a [Token]), Refusal>
    ensures { Reads (λ x. (x.0, x.1.now)) result (spec.all_params tokens.now) }
{
    if begins_type(tokens) {
        let (first, rest) = param(tokens)?;
        more_params(alloc, first, rest)
    } else {
        let (_, rest) = mark(tokens, Punct::CloseParen)?;
        Ok((Sequence::new(alloc), rest))
    }
}

/// Whether the parameters are the word `void` alone, which says that there is none (C99 6.7.5.3).
fn is_void_word(params: &[Param]) -> bool
    ensures { spec.void_word params.now ≡ (if result then ([], true) else (params.now, false)) }
{
    match params {
        [only] => only.base == TypeName::Void && only.name.is_none(),
        _ => false,
    }
}

/// Parameters up to `)`, whether they are the word `void`, and what stands behind them (C99 6.7.5.3). Names may be
/// left out.
#[tactic(auto, unfolding(crate::specs::Grammar::params))]
pub fn read_params(alloc: Global, tokens: &[Token]) -> Result<(Params, bool, &[Token]), Refusal>
    ensures { Reads (λ x. ((x.0, x.1), x.2.now)) result (spec.params tokens.now) }
{
    let (params, rest) = all_params(alloc, tokens)?;
    if is_void_word(params.items()) {
        Ok((Sequence::new(alloc), true, rest))
    } else {
        Ok((params, false, rest))
    }
}
