ghost use Rattle.std.specs.Prelude.{◌≡◌};
ghost use Rattle.lz_expr.specs.Reading.{gives, starts};
ghost use Rattle.lz_expr.specs.Grammar.{Reads, key_meant};
ghost use Rattle.lz_parse.specs.Grammar as spec;
ghost use Rattle.lz_parse.specs.Views.{heading_of};

use lz_expr::{Refusal, line_at, name};
use lz_grammar::read_type;
use lz_tree::{Keyword, Lead, Token, TokenKind, TypeName};

/// What stands before the parameters of a function or before the rest of the first declarator: `static`, `extern` or
/// neither, a type and a name (C99 6.7, 6.9.1).
#[derive(Clone, Copy, Debug)]
pub struct Heading {
    /// The line of the first token.
    pub line: u32,
    pub lead: Lead,
    pub base_line: u32,
    pub base: TypeName,
    pub name_line: u32,
    pub name: u32,
}

/// What a keyword says before a type, if anything (C99 6.7.1).
fn lead_key(word: Keyword) -> Option<Lead>
    ensures { result ≡ spec.lead_key word }
{
    match word {
        Keyword::Static => Some(Lead::Hidden),
        Keyword::Extern => Some(Lead::Outside),
        _ => None,
    }
}

/// What a token says before a type, if anything.
#[tactic(auto, unfolding(lz_expr::specs::Grammar::key_meant))]
fn lead_shown(token: Token) -> Option<Lead>
    ensures { result ≡ key_meant spec.lead_key token }
{
    match token.kind {
        TokenKind::Keyword { word } => lead_key(word),
        _ => None,
    }
}

/// Whether `static` or `extern` comes first.
#[tactic(auto, unfolding(crate::specs::Grammar::begins_lead))]
pub fn begins_lead(tokens: &[Token]) -> bool
    ensures { result ≡ starts spec.begins_lead tokens.now }
{
    match tokens {
        [token, ..] => lead_shown(*token).is_some(),
        [] => false,
    }
}

/// `static` or `extern`, where one of them comes first, and what stands behind it.
#[tactic(auto, unfolding(crate::specs::Grammar::lead_word, crate::specs::Grammar::begins_lead, lz_expr::specs::Reading::optional, lz_expr::specs::Reading::token))]
fn read_lead(tokens: &[Token]) -> (Lead, &[Token])
    ensures { spec.lead_word tokens.now ≡ gives result.0 result.1.now }
{
    let [token, rest @ ..] = tokens else {
        return (Lead::Nothing, tokens);
    };
    match lead_shown(*token) {
        Some(word) => (word, rest),
        None => (Lead::Nothing, tokens),
    }
}

/// A heading, and what stands behind it.
#[tactic(auto, unfolding(crate::specs::Grammar::lined_heading, crate::specs::Grammar::heading))]
pub fn read_heading(tokens: &[Token]) -> Result<(Heading, &[Token]), Refusal>
    ensures { Reads (λ x. (heading_of x.0, x.1.now)) result (spec.lined_heading tokens.now) }
{
    let line = line_at(tokens);
    let (lead, rest) = read_lead(tokens);
    let (base_line, base, rest) = read_type(rest)?;
    let (name_line, name, rest) = name(rest)?;
    let heading = Heading {
        line,
        lead,
        base_line,
        base,
        name_line,
        name,
    };
    Ok((heading, rest))
}
