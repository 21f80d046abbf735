ghost use Rattle.std.specs.Prelude.{◌≡◌, ◌<◌, ◌≤◌, ◌∷◌, [], map, length, IfOk, IfErr};
ghost use Rattle.lz_tree.specs.Trees.{TranslationUnit, translation_unit, external_declaration};
ghost use Rattle.lz_tree.specs.declared.token.Tokens.{Tokens};
ghost use Rattle.lz_expr.specs.Reading.{and_then, pure};
ghost use Rattle.lz_expr.specs.Grammar.{Reads};
ghost use Rattle.lz_expr.specs.Lines.{line_of};
ghost use Rattle.lz_parse.specs.Grammar as spec;
ghost use Rattle.lz_parse.specs.Programs.{IsProgram, IsNoProgram};
ghost use Rattle.lz_parse.specs.Views.{IsNamedAt};

use crate::external::{begins_external, read_external};
use crate::names::copied;
use lz_base::Sequence;
use lz_expr::{ParseError, Refusal, line_of};
use lz_tree::{External, Externals, Program, Token, Tokens};
use std::alloc::Global;

/// The greatest height of a program.
const HEIGHT_LIMIT: u32 = 200;

/// The external declarations from a first one on, as long as another one begins, and what stands behind them.
#[tactic(auto, unfolding(crate::specs::Grammar::more_externals))]
fn read_more<'a>(
    alloc: Global,
    first: External,
    tokens: &'a [Token],
    height: u32,
) -> Result<(Externals, &'a [Token]), Refusal>
    requires { 0 < height }
    ensures { Reads (λ x. (map external_declaration x.0, x.1.now)) result (and_then (spec.more_externals height tokens.now) (λ more. pure (external_declaration first ∷ more))) }
{
    let mut externals = Sequence::new(alloc);
    externals.push(first)?;
    let mut rest = tokens;
    'turns: for _turn in 0..tokens.len() {
        if !begins_external(rest) {
            break;
        }
        let (external, after) = read_external(alloc, rest, height)?;
        externals.push(external)?;
        rest = after;
    }
    Ok((externals, rest))
}

/// External declarations of at most the height up to the end of the tokens, at least one (C99 6.9).
#[tactic(auto, unfolding(crate::specs::Grammar::program, crate::specs::Grammar::externals))]
fn read_program(alloc: Global, tokens: &[Token], height: u32) -> Result<Externals, Refusal>
    requires { 0 < height }
    ensures { Reads (λ x. (map external_declaration x, [])) result (spec.program height tokens.now) }
{
    let (first, rest) = read_external(alloc, tokens, height)?;
    let (externals, rest) = read_more(alloc, first, rest, height)?;
    if rest.is_empty() {
        Ok(externals)
    } else {
        Err(Refusal::Refused { left: rest.len() })
    }
}

/// That no program goes on with the token at the place, or want of memory where the place has no number below 2^32.
fn refused_at(tokens: &Tokens, at: usize) -> ParseError
    ensures { IsNamedAt tokens.now at result }
{
    match u32::try_from(at) {
        Ok(token) => ParseError::NotAProgram {
            token,
            line: line_of(tokens, at),
        },
        Err(_) => ParseError::Memory,
    }
}

/// The program that the tokens spell, with their names (C99 6.9). It reads the tokens from left to right, copies the
/// names, and recurs no deeper than the height that a program may have.
pub fn parse(alloc: Global, tokens: &Tokens) -> Result<Program, ParseError>
    // What is answered is well formed and spells the tokens, with their names.
    ensures found { IfOk result (λ p. IsProgram tokens.now (translation_unit p)) }
    // Where no well-formed program spells them, the first token is named with which none goes on.
    ensures refused { IfErr result (IsNoProgram tokens.now) }
{
    let items = tokens.list.items();
    match read_program(alloc, items, HEIGHT_LIMIT) {
        Ok(externals) => match copied(alloc, tokens.names.items()) {
            Ok(names) => Ok(Program { externals, names }),
            Err(_) => Err(ParseError::Memory),
        },
        Err(Refusal::Refused { left }) => {
            let at = items.len() - left;
            Err(refused_at(tokens, at))
        }
        Err(Refusal::Memory) => Err(ParseError::Memory),
    }
}

/// No two well-formed programs spell the same tokens.
pub fn one_program()
    ensures { (tokens : Tokens) (p q : TranslationUnit) → IsProgram tokens p → IsProgram tokens q → p ≡ q }
{}
