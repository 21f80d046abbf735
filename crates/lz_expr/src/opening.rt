ghost use Rattle.std.specs.Prelude.{◌≡◌};
ghost use Rattle.lz_expr.specs.Grammar as spec;

use lz_tree::{Keyword, Punct, TokenKind};

/// Which expressions a token may begin.
#[derive(Clone, Copy, Debug, PartialEq, Eq)]
pub enum Opening {
    /// A cast or an expression in parentheses.
    Paren,
    /// A unary operator of arithmetic.
    Sign,
    /// `&`
    Address,
    /// `++` or `--`
    Step,
    /// A name.
    Name,
    /// A constant, a text or `NULL`.
    Leaf,
    /// None.
    Nothing,
}

/// Which expressions a token of the kind may begin.
pub fn opened_by(kind: TokenKind) -> Opening
    ensures { result ≡ spec.opening_of kind }
{
    match kind {
        TokenKind::Name { .. } => Opening::Name,
        TokenKind::Constant { .. } | TokenKind::Text => Opening::Leaf,
        TokenKind::Keyword { word } => match word {
            Keyword::Null => Opening::Leaf,
            _ => Opening::Nothing,
        },
        TokenKind::Punct { mark } => match mark {
            Punct::OpenParen => Opening::Paren,
            Punct::Plus | Punct::Minus | Punct::Tilde | Punct::Not => Opening::Sign,
            Punct::And => Opening::Address,
            Punct::Increment | Punct::Decrement => Opening::Step,
            _ => Opening::Nothing,
        },
    }
}
