ghost use Rattle.std.specs.Prelude.{◌≡◌, ◌≤◌, ◌-◌, option_map};
ghost use Rattle.lz_expr.specs.Reading.{gives, grown, starts};
ghost use Rattle.lz_expr.specs.Grammar as spec;
ghost use Rattle.lz_expr.specs.Grammar.{Reads};

use crate::refusal::Refusal;
use crate::token::{begins_key, is_key, key, mark};
use lz_tree::{Keyword, Punct, Token, TokenKind, TypeName};

/// An integer type of one word (C99 6.7.2).
pub fn integer_key(word: Keyword) -> Option<TypeName>
    ensures { result ≡ spec.integer_key word }
{
    match word {
        Keyword::Int => Some(TypeName::Int),
        Keyword::Signed => Some(TypeName::Signed),
        Keyword::Unsigned => Some(TypeName::Unsigned),
        Keyword::Bool => Some(TypeName::Bool),
        Keyword::Char => Some(TypeName::Char),
        Keyword::Short => Some(TypeName::Short),
        Keyword::Long => Some(TypeName::Long),
        _ => None,
    }
}

/// `signed` with one more word.
fn signed_by(word: Keyword) -> Option<TypeName>
    ensures { result ≡ spec.signed_by word }
{
    match word {
        Keyword::Int => Some(TypeName::SignedInt),
        Keyword::Char => Some(TypeName::SignedChar),
        _ => None,
    }
}

/// `unsigned` with one more word.
fn unsigned_by(word: Keyword) -> Option<TypeName>
    ensures { result ≡ spec.unsigned_by word }
{
    match word {
        Keyword::Int => Some(TypeName::UnsignedInt),
        Keyword::Char => Some(TypeName::UnsignedChar),
        Keyword::Short => Some(TypeName::UnsignedShort),
        Keyword::Long => Some(TypeName::UnsignedLong),
        _ => None,
    }
}

/// The type that stands where `int` comes next.
fn with_int(made: TypeName, word: Keyword) -> Option<TypeName>
    ensures { result ≡ spec.with_int made word }
{
    match word {
        Keyword::Int => Some(made),
        _ => None,
    }
}

/// The type that stands where `long` or `int` comes next.
fn with_long(long: TypeName, int: TypeName, word: Keyword) -> Option<TypeName>
    ensures { result ≡ spec.with_long long int word }
{
    match word {
        Keyword::Long => Some(long),
        Keyword::Int => Some(int),
        _ => None,
    }
}

/// The integer type that an integer type and one more word make (C99 6.7.2).
fn grown_integer(base: TypeName, word: Keyword) -> Option<TypeName>
    ensures { result ≡ spec.grow_integer base word }
{
    match base {
        TypeName::Signed => signed_by(word),
        TypeName::Unsigned => unsigned_by(word),
        TypeName::Short => with_int(TypeName::ShortInt, word),
        TypeName::UnsignedShort => with_int(TypeName::UnsignedShortInt, word),
        TypeName::Long => with_long(TypeName::LongLong, TypeName::LongInt, word),
        TypeName::UnsignedLong => {
            with_long(TypeName::UnsignedLongLong, TypeName::UnsignedLongInt, word)
        }
        TypeName::LongLong => with_int(TypeName::LongLongInt, word),
        TypeName::UnsignedLongLong => with_int(TypeName::UnsignedLongLongInt, word),
        _ => None,
    }
}

/// The type that a type and one more token make.
#[tactic(auto, unfolding(crate::specs::Grammar::grow))]
fn grown_by(base: TypeName, token: Token) -> Option<TypeName>
    ensures { result ≡ spec.grow base token }
{
    match token.kind {
        TokenKind::Keyword { word } => grown_integer(base, word),
        TokenKind::Punct { mark } if mark == Punct::Star && base == TypeName::Void => {
            Some(TypeName::VoidPointer)
        }
        _ => None,
    }
}

/// The type with the words that follow it, and what stands behind them.
#[tactic(auto, unfolding(crate::specs::Reading::grown, crate::specs::Reading::token))]
pub fn more_words(base: TypeName, tokens: &[Token], turns: u8) -> (TypeName, &[Token])
    ensures { grown spec.grow turns base tokens.now ≡ gives result.0 result.1.now }
{
    if turns == 0 {
        return (base, tokens);
    }
    let [token, rest @ ..] = tokens else {
        return (base, tokens);
    };
    match grown_by(base, *token) {
        Some(more) => more_words(more, rest, turns - 1),
        None => (base, tokens),
    }
}

/// An integer type, and what stands behind it.
#[tactic(auto, unfolding(crate::specs::Grammar::integer_type, crate::specs::Grammar::key_meant, crate::specs::Reading::token))]
fn integer_type(tokens: &[Token]) -> Result<(TypeName, &[Token]), Refusal>
    ensures { Reads (λ x. (x.0, x.1.now)) result (spec.integer_type tokens.now) }
{
    let [token, rest @ ..] = tokens else {
        return Err(Refusal::Refused { left: 0 });
    };
    let TokenKind::Keyword { word } = token.kind else {
        return Err(Refusal::Refused { left: tokens.len() });
    };
    match integer_key(word) {
        Some(base) => Ok(more_words(base, rest, 3)),
        None => Err(Refusal::Refused { left: tokens.len() }),
    }
}

/// `void *`, and what stands behind it.
#[tactic(auto, unfolding(crate::specs::Grammar::void_pointer))]
fn void_pointer(tokens: &[Token]) -> Result<(TypeName, &[Token]), Refusal>
    ensures { Reads (λ x. (x.0, x.1.now)) result (spec.void_pointer tokens.now) }
{
    let (_, rest) = key(tokens, Keyword::Void)?;
    let (_, rest) = mark(rest, Punct::Star)?;
    Ok((TypeName::VoidPointer, rest))
}

/// A type that a cast may name, and what stands behind it (C99 6.5.4).
#[tactic(auto, unfolding(crate::specs::Grammar::cast_type))]
pub fn cast_type(tokens: &[Token]) -> Result<(TypeName, &[Token]), Refusal>
    ensures { Reads (λ x. (x.0, x.1.now)) result (spec.cast_type tokens.now) }
{
    if begins_key(tokens, Keyword::Void) {
        void_pointer(tokens)
    } else {
        integer_type(tokens)
    }
}

/// Whether a type that a cast may name comes first.
#[tactic(auto, unfolding(crate::specs::Grammar::begins_type, crate::specs::Grammar::key_meant))]
pub fn begins_type(tokens: &[Token]) -> bool
    ensures { result ≡ starts spec.begins_type tokens.now }
{
    let [token, ..] = tokens else {
        return false;
    };
    if is_key(*token, Keyword::Void) {
        return true;
    }
    match token.kind {
        TokenKind::Keyword { word } => integer_key(word).is_some(),
        _ => false,
    }
}
