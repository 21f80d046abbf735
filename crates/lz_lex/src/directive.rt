ghost use Rattle.std.specs.Prelude.{◌≡◌, option_map};
ghost use Rattle.lz_tree.specs.Pieces as pieces;
ghost use Rattle.lz_lex.specs.Views.{body, read, piece};

use crate::bytes::{
    are_blanks, begins_with, begins_with_blank, begins_with_word, behind, behind_blanks, front,
    word, word_len,
};
use crate::comment::comment_end;
use crate::constant::{Constant, character_of, integer_of};
use crate::piece::Piece;
use crate::word::keyword_of;

/// What a defined name stands for: a constant, with `-` before it or without, in parentheses or not.
#[derive(Clone, Copy, Debug)]
pub struct Body {
    pub wrapped: bool,
    pub negated: bool,
    pub constant: Constant,
}

/// A constant, and what stands behind it.
#[derive(Clone, Copy)]
struct Read<'a> {
    constant: Constant,
    rest: &'a [u8],
}

fn ends_with_blanks(bytes: &[u8]) -> bool
    ensures { result ≡ pieces.ends_with_blanks bytes.now }
{
    match comment_end(bytes) {
        None => false,
        Some(len) => are_blanks(behind(bytes, len)),
    }
}

/// Nothing, or one comment, with blanks around it.
#[tactic(auto, unfolding(lz_tree::specs::Pieces::is_tail))]
fn is_tail(bytes: &[u8]) -> bool
    ensures { result ≡ pieces.is_tail bytes.now }
{
    let rest = behind_blanks(bytes);
    if rest.is_empty() {
        return true;
    }
    if !begins_with(rest, b'/') {
        return false;
    }
    let second = behind(rest, 1);
    begins_with(second, b'/') || (begins_with(second, b'*') && ends_with_blanks(behind(rest, 2)))
}

#[tactic(auto, unfolding(lz_tree::specs::Pieces::character_at))]
fn character_at(bytes: &[u8]) -> Option<Read<'_>>
    ensures { option_map read result ≡ pieces.character_at bytes.now }
{
    if let Some(constant) = character_of(front(bytes, 3)) {
        return Some(Read {
            constant,
            rest: behind(bytes, 3),
        });
    }
    let constant = character_of(front(bytes, 4))?;
    Some(Read {
        constant,
        rest: behind(bytes, 4),
    })
}

/// The integer or character constant at the front.
#[tactic(auto, unfolding(lz_tree::specs::Pieces::constant_at))]
fn constant_at(bytes: &[u8]) -> Option<Read<'_>>
    ensures { option_map read result ≡ pieces.constant_at bytes.now }
{
    if begins_with(bytes, b'\'') {
        return character_at(bytes);
    }
    let len = word_len(bytes);
    let constant = integer_of(front(bytes, len))?;
    Some(Read {
        constant,
        rest: behind(bytes, len),
    })
}

/// What ends a body: `)` where it has parentheses, and then the tail.
fn ends_body(wrapped: bool, bytes: &[u8]) -> bool
    ensures { result ≡ pieces.ends_body wrapped bytes.now }
{
    if !wrapped {
        return is_tail(bytes);
    }
    let rest = behind_blanks(bytes);
    begins_with(rest, b')') && is_tail(behind(rest, 1))
}

/// `c` or `-c`, and what ends the body.
#[tactic(auto, unfolding(lz_tree::specs::Pieces::signed_of))]
fn signed_of(wrapped: bool, bytes: &[u8]) -> Option<Body>
    ensures { option_map body result ≡ pieces.signed_of wrapped bytes.now }
{
    let negated = begins_with(bytes, b'-');
    let rest = if negated {
        behind_blanks(behind(bytes, 1))
    } else {
        bytes
    };
    let found = constant_at(rest)?;
    if !ends_body(wrapped, found.rest) {
        return None;
    }
    Some(Body {
        wrapped,
        negated,
        constant: found.constant,
    })
}

/// `c`, `-c`, `(c)` or `(-c)`, and the tail.
#[tactic(auto, unfolding(lz_tree::specs::Pieces::value_of))]
fn value_of(bytes: &[u8]) -> Option<Body>
    ensures { option_map body result ≡ pieces.value_of bytes.now }
{
    if begins_with(bytes, b'(') {
        return signed_of(true, behind_blanks(behind(bytes, 1)));
    }
    signed_of(false, bytes)
}

/// What stands behind the name: no body, or blanks and a body.
#[tactic(auto, unfolding(lz_tree::specs::Pieces::body_of))]
fn body_of(bytes: &[u8]) -> Option<Option<Body>>
    ensures { option_map (option_map body) result ≡ pieces.body_of bytes.now }
{
    if is_tail(bytes) {
        return Some(None);
    }
    if !begins_with_blank(bytes) {
        return None;
    }
    let body = value_of(behind_blanks(bytes))?;
    Some(Some(body))
}

/// A name that is no keyword, and its body.
#[tactic(auto, unfolding(lz_tree::specs::Pieces::defined_of))]
fn defined_of(bytes: &[u8]) -> Option<Piece<'_>>
    ensures { option_map piece result ≡ pieces.defined_of bytes.now }
{
    let name = word(bytes);
    if !begins_with_word(bytes) || keyword_of(name).is_some() {
        return None;
    }
    let body = body_of(behind(bytes, word_len(bytes)))?;
    Some(Piece::Define { name, body })
}

/// The directive whose word stands at the front, if it is one (C99 6.10.2, 6.10.3). The bytes are those of one line.
#[tactic(auto, unfolding(lz_tree::specs::Pieces::directive_named))]
pub fn directive_named(bytes: &[u8]) -> Option<Piece<'_>>
    ensures { option_map piece result ≡ pieces.directive_named bytes.now }
{
    if bytes.starts_with(b"include") {
        return Some(Piece::Include);
    }
    if !bytes.starts_with(b"define") {
        return None;
    }
    let rest = behind(bytes, 6);
    if !begins_with_blank(rest) {
        return None;
    }
    defined_of(behind_blanks(rest))
}
