ghost use Rattle.std.specs.Prelude.{◌≡◌, ◌≤◌, length, option_map};
ghost use Rattle.lz_lex.specs.Views.{front};
ghost use Rattle.lz_lex.specs.Scanning as scanning;

use crate::bytes as at;
use crate::comment::{comment_end, text_end};
use crate::constant::{Constant, character_of, integer_of};
use crate::directive::{Body, directive_named};
use crate::word::punct_of;
use lz_tree::Punct;

/// One piece of a file (C99 6.4).
#[derive(Clone, Copy, Debug)]
pub enum Piece<'a> {
    White { byte: u8 },
    BlockComment,
    LineComment,
    Include,
    Define { name: &'a str, body: Option<Body> },
    Word { letters: &'a str },
    Integer { constant: Constant },
    Character { constant: Constant },
    Text,
    Mark { punct: Punct },
}

/// A piece at the front of bytes, and how many bytes it has.
#[derive(Clone, Copy, Debug)]
pub struct Front<'a> {
    pub piece: Piece<'a>,
    pub size: usize,
}

#[tactic(auto, unfolding(crate::specs::Scanning::word))]
fn word(bytes: &[u8]) -> Front<'_>
    ensures { front result ≡ scanning.word bytes.now }
{
    let size = at::word_len(bytes);
    let letters = at::word(bytes);
    Front {
        piece: Piece::Word { letters },
        size,
    }
}

#[tactic(auto, unfolding(crate::specs::Scanning::integer))]
fn integer(bytes: &[u8]) -> Option<Front<'_>>
    ensures { option_map front result ≡ scanning.integer bytes.now }
{
    let size = at::word_len(bytes);
    let constant = integer_of(at::front(bytes, size))?;
    Some(Front {
        piece: Piece::Integer { constant },
        size,
    })
}

#[tactic(auto, unfolding(crate::specs::Scanning::character))]
fn character(bytes: &[u8]) -> Option<Front<'_>>
    ensures { option_map front result ≡ scanning.character bytes.now }
{
    if let Some(constant) = character_of(at::front(bytes, 3)) {
        return Some(Front {
            piece: Piece::Character { constant },
            size: 3,
        });
    }
    let constant = character_of(at::front(bytes, 4))?;
    Some(Front {
        piece: Piece::Character { constant },
        size: 4,
    })
}

#[tactic(auto, unfolding(crate::specs::Scanning::text))]
fn text(bytes: &[u8]) -> Option<Front<'_>>
    ensures { option_map front result ≡ scanning.text bytes.now }
{
    let size = text_end(at::behind(bytes, 1))?;
    Some(Front {
        piece: Piece::Text,
        size: size + 1,
    })
}

#[tactic(auto, unfolding(crate::specs::Scanning::mark_of))]
fn mark_of(bytes: &[u8], size: usize) -> Option<Front<'_>>
    ensures { option_map front result ≡ scanning.mark_of bytes.now size }
{
    let punct = punct_of(at::front(bytes, size))?;
    Some(Front {
        piece: Piece::Mark { punct },
        size,
    })
}

/// The longest punctuator at the front.
#[tactic(auto, unfolding(crate::specs::Scanning::mark))]
fn mark(bytes: &[u8]) -> Option<Front<'_>>
    ensures { option_map front result ≡ scanning.mark bytes.now }
{
    if bytes.len() >= 3 {
        if let Some(found) = mark_of(bytes, 3) {
            return Some(found);
        }
    }
    if bytes.len() >= 2 {
        if let Some(found) = mark_of(bytes, 2) {
            return Some(found);
        }
    }
    mark_of(bytes, 1)
}

#[tactic(auto, unfolding(crate::specs::Scanning::slash))]
fn slash(bytes: &[u8]) -> Option<Front<'_>>
    ensures { option_map front result ≡ scanning.slash bytes.now }
{
    let second = at::behind(bytes, 1);
    if at::begins_with(second, b'*') {
        let size = comment_end(at::behind(bytes, 2))?;
        return Some(Front {
            piece: Piece::BlockComment,
            size: size + 2,
        });
    }
    if at::begins_with(second, b'/') {
        return Some(Front {
            piece: Piece::LineComment,
            size: at::line_len(bytes),
        });
    }
    mark(bytes)
}

#[tactic(auto, unfolding(crate::specs::Scanning::directive))]
fn directive(bytes: &[u8]) -> Option<Front<'_>>
    ensures { option_map front result ≡ scanning.directive bytes.now }
{
    let size = at::line_len(bytes);
    let line = at::front(bytes, size);
    let piece = directive_named(at::behind_blanks(at::behind(line, 1)))?;
    Some(Front { piece, size })
}

/// The longest piece that begins with the first byte, wherever directives can stand and whatever is defined.
#[tactic(auto, unfolding(crate::specs::Scanning::scan))]
pub fn scan(bytes: &[u8]) -> Option<Front<'_>>
    ensures { option_map front result ≡ scanning.scan bytes.now }
{
    match bytes {
        [] => None,
        [first, ..] if at::is_word_start(*first) => Some(word(bytes)),
        [first, ..] if first.is_ascii_digit() => integer(bytes),
        [first, ..] if at::is_white(*first) => Some(Front {
            piece: Piece::White { byte: *first },
            size: 1,
        }),
        [b'/', ..] => slash(bytes),
        [b'"', ..] => text(bytes),
        [b'\'', ..] => character(bytes),
        [b'#', ..] => directive(bytes),
        _ => mark(bytes),
    }
}
