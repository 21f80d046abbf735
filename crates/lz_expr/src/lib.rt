//! Expressions read from tokens, exactly: the expression that the tokens spell, or the first token with which
//! no expression goes on.
#![tactic(auto)]

mod error;
mod expression;
mod opening;
mod parse;
mod refusal;
mod token;
mod typename;

pub use error::ParseError;
pub use expression::{ASSIGN, CHOOSE, UNARY, read_class};
pub use opening::{Opening, opened_by};
pub use parse::{line_of, one_expression, parse_expression};
pub use refusal::Refusal;
pub use token::{begins, begins_key, is_key, is_mark, key, line_at, mark, name};
pub use typename::{integer_key, more_words};
