//! From the bytes of a file to its tokens: the bytes are cut into pieces, each the longest that can stand
//! where it begins, and defined names are replaced (C99 6.4, 6.10.3).
#![tactic(auto)]

mod bytes;
mod comment;
mod constant;
mod cutting;
mod directive;
mod error;
mod lexer;
mod piece;
mod word;

pub use error::LexError;
pub use lexer::lex;
