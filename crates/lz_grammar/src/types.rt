ghost use Rattle.std.specs.Prelude.{◌≡◌};
ghost use Rattle.lz_expr.specs.Reading.{starts};
ghost use Rattle.lz_expr.specs.Grammar.{Reads};
ghost use Rattle.lz_grammar.specs.Grammar as spec;

use lz_expr::{Refusal, line_at, more_words};
use lz_tree::{Keyword, Token, TokenKind, TypeName};

/// A type of one word (C99 6.7.2, and the types of threads).
fn type_key(word: Keyword) -> Option<TypeName>
    ensures { result ≡ spec.type_key word }
{
    match word {
        Keyword::Int => Some(TypeName::Int),
        Keyword::Signed => Some(TypeName::Signed),
        Keyword::Unsigned => Some(TypeName::Unsigned),
        Keyword::Bool => Some(TypeName::Bool),
        Keyword::Char => Some(TypeName::Char),
        Keyword::Short => Some(TypeName::Short),
        Keyword::Long => Some(TypeName::Long),
        Keyword::Void => Some(TypeName::Void),
        Keyword::Thread => Some(TypeName::Thread),
        Keyword::Mutex => Some(TypeName::Mutex),
        Keyword::Cond => Some(TypeName::Cond),
        _ => None,
    }
}

/// Whether a type comes first (C99 6.7.2).
#[tactic(auto, unfolding(crate::specs::Grammar::begins_type, lz_expr::specs::Grammar::key_meant))]
pub fn begins_type(tokens: &[Token]) -> bool
    ensures { result ≡ starts spec.begins_type tokens.now }
{
    let [token, ..] = tokens else {
        return false;
    };
    match token.kind {
        TokenKind::Keyword { word } => type_key(word).is_some(),
        _ => false,
    }
}

/// A type, and what stands behind it.
#[tactic(auto, unfolding(crate::specs::Grammar::type_name, lz_expr::specs::Grammar::key_meant, lz_expr::specs::Reading::token))]
fn type_name(tokens: &[Token]) -> Result<(TypeName, &[Token]), Refusal>
    ensures { Reads (λ x. (x.0, x.1.now)) result (spec.type_name tokens.now) }
{
    let [token, rest @ ..] = tokens else {
        return Err(Refusal::Refused { left: 0 });
    };
    let TokenKind::Keyword { word } = token.kind else {
        return Err(Refusal::Refused { left: tokens.len() });
    };
    match type_key(word) {
        Some(base) => Ok(more_words(base, rest, 3)),
        None => Err(Refusal::Refused { left: tokens.len() }),
    }
}

/// A type with the line of its first token, and what stands behind it (C99 6.7.2).
#[tactic(auto, unfolding(crate::specs::Grammar::lined_type))]
pub fn read_type(tokens: &[Token]) -> Result<(u32, TypeName, &[Token]), Refusal>
    ensures { Reads (λ x. ((x.0, x.1), x.2.now)) result (spec.lined_type tokens.now) }
{
    let line = line_at(tokens);
    let (base, rest) = type_name(tokens)?;
    Ok((line, base, rest))
}
