//! Tokens as letters, for the tests of readers.

use lz_base::{Memory, Sequence};
use lz_tree::{Form, Keyword, Punct, Token, TokenKind, Tokens};
use std::alloc::Global;

/// The operator, the constant or the name that a letter stands for.
fn operator_of(letter: u8) -> TokenKind {
    let mark = match letter {
        b'?' => Punct::Question,
        b'=' => Punct::Assign,
        b'@' => Punct::AddAssign,
        b'|' => Punct::OrOr,
        b'&' => Punct::AndAnd,
        b'$' => Punct::And,
        b'<' => Punct::Less,
        b'+' => Punct::Plus,
        b'-' => Punct::Minus,
        b'*' => Punct::Star,
        b'/' => Punct::Slash,
        b'!' => Punct::Not,
        b'#' => Punct::Increment,
        b'_' => Punct::Decrement,
        b'"' => return TokenKind::Text,
        b'1' => {
            let form = Form {
                decimal: true,
                unsigned: false,
                longs: 0,
            };
            return TokenKind::Constant { value: 1, form };
        }
        other => return TokenKind::Name {
            number: other as u32,
        },
    };
    TokenKind::Punct { mark }
}

/// The token that a letter stands for which is no large one.
fn other_of(letter: u8) -> TokenKind {
    let mark = match letter {
        b'(' => Punct::OpenParen,
        b')' => Punct::CloseParen,
        b'{' => Punct::OpenBrace,
        b'}' => Punct::CloseBrace,
        b'[' => Punct::OpenBracket,
        b']' => Punct::CloseBracket,
        b';' => Punct::Semicolon,
        b',' => Punct::Comma,
        b':' => Punct::Colon,
        other => return operator_of(other),
    };
    TokenKind::Punct { mark }
}

/// The token that a letter stands for: a large one is a keyword.
fn token_of(letter: u8) -> TokenKind {
    let word = match letter {
        b'I' => Keyword::If,
        b'E' => Keyword::Else,
        b'W' => Keyword::While,
        b'D' => Keyword::Do,
        b'F' => Keyword::For,
        b'B' => Keyword::Break,
        b'C' => Keyword::Continue,
        b'R' => Keyword::Return,
        b'N' => Keyword::Int,
        b'U' => Keyword::Unsigned,
        b'L' => Keyword::Long,
        b'H' => Keyword::Short,
        b'V' => Keyword::Void,
        b'O' => Keyword::Null,
        b'T' => Keyword::Thread,
        b'M' => Keyword::Mutex,
        b'K' => Keyword::Cond,
        b'X' => Keyword::MutexInitializer,
        b'Y' => Keyword::CondInitializer,
        b'Z' => Keyword::Case,
        other => return other_of(other),
    };
    TokenKind::Keyword { word }
}

/// One token a letter, each on a line of its own.
pub fn tokens_of(alloc: Global, letters: &[u8]) -> Result<Tokens, Memory> {
    let mut list = Sequence::new(alloc);
    let mut line = 1u32;
    for letter in letters {
        let kind = token_of(*letter);
        list.push(Token {
            kind,
            line,
            place: 0,
        })?;
        line = line.saturating_add(1);
    }
    Ok(Tokens {
        list,
        names: Sequence::new(alloc),
        end_line: line,
    })
}
