ghost use Rattle.std.specs.Prelude.{◌≡◌, ◌&&◌, nat_lt, option_map, IfOk};
ghost use Rattle.lz_tree.specs.Height.{expression_height};
ghost use Rattle.lz_expr.specs.Reading.{starts, shows, token};
ghost use Rattle.lz_tree.specs.Languages.{is_mark, is_key, meant_by, line_at};
ghost use Rattle.lz_tree.specs.WellFormed.{looseness};
ghost use Rattle.lz_tree.specs.Spelling as spelling;
ghost use Rattle.lz_tree.specs.Trees.{expression};
ghost use Rattle.lz_expr.specs.Grammar as spec;
ghost use Rattle.lz_expr.specs.Grammar.{Reads};

use crate::opening::{Opening, opened_by};
use crate::refusal::Refusal;
use lz_tree::{Binary, Expr, Keyword, Punct, Token, TokenKind, Unary};

/// Whether the token is this mark.
#[tactic(auto, unfolding(lz_tree::specs::Languages::is_mark, lz_tree::specs::Languages::same_mark))]
pub fn is_mark(token: Token, wanted: Punct) -> bool
    ensures { result ≡ is_mark wanted token }
{
    match token.kind {
        TokenKind::Punct { mark } => mark == wanted,
        _ => false,
    }
}

/// Whether the token is this keyword.
#[tactic(auto, unfolding(lz_tree::specs::Languages::is_key, lz_tree::specs::Languages::same_key))]
pub fn is_key(token: Token, wanted: Keyword) -> bool
    ensures { result ≡ is_key wanted token }
{
    match token.kind {
        TokenKind::Keyword { word } => word == wanted,
        _ => false,
    }
}

/// Whether the punctuator comes first.
pub fn begins(tokens: &[Token], wanted: Punct) -> bool
    ensures { result ≡ spec.begins wanted tokens.now }
{
    match tokens {
        [token, ..] => is_mark(*token, wanted),
        [] => false,
    }
}

/// Whether the keyword comes first.
pub fn begins_key(tokens: &[Token], wanted: Keyword) -> bool
    ensures { result ≡ spec.begins_key wanted tokens.now }
{
    match tokens {
        [token, ..] => is_key(*token, wanted),
        [] => false,
    }
}

/// The line of a punctuator, and what stands behind it.
#[tactic(auto, unfolding(crate::specs::Reading::token, lz_tree::specs::Languages::mark_shown))]
pub fn mark(tokens: &[Token], wanted: Punct) -> Result<(u32, &[Token]), Refusal>
    ensures { Reads (λ x. (x.0, x.1.now)) result (spec.mark wanted tokens.now) }
{
    match tokens {
        [token, rest @ ..] if is_mark(*token, wanted) => Ok((token.line, rest)),
        _ => Err(Refusal::Refused { left: tokens.len() }),
    }
}

/// The line of a keyword, and what stands behind it.
#[tactic(auto, unfolding(crate::specs::Reading::token, lz_tree::specs::Languages::key_shown))]
pub fn key(tokens: &[Token], wanted: Keyword) -> Result<(u32, &[Token]), Refusal>
    ensures { Reads (λ x. (x.0, x.1.now)) result (spec.key wanted tokens.now) }
{
    match tokens {
        [token, rest @ ..] if is_key(*token, wanted) => Ok((token.line, rest)),
        _ => Err(Refusal::Refused { left: tokens.len() }),
    }
}

/// The line and the number of a name, and what stands behind it.
#[tactic(auto, unfolding(crate::specs::Reading::token, crate::specs::Grammar::lined_shown, lz_tree::specs::Languages::name_shown))]
pub fn name(tokens: &[Token]) -> Result<(u32, u32, &[Token]), Refusal>
    ensures { Reads (λ x. ((x.0, x.1), x.2.now)) result (spec.name tokens.now) }
{
    let [token, rest @ ..] = tokens else {
        return Err(Refusal::Refused { left: 0 });
    };
    match token.kind {
        TokenKind::Name { number } => Ok((token.line, number, rest)),
        _ => Err(Refusal::Refused { left: tokens.len() }),
    }
}

/// An expression of one token that is no name, and what stands behind it.
#[tactic(auto, unfolding(crate::specs::Reading::token, crate::specs::Grammar::leaf_shown, lz_tree::specs::Languages::same_key))]
pub fn leaf(tokens: &[Token]) -> Result<(Expr, &[Token]), Refusal>
    ensures read { Reads (λ x. (expression x.0, x.1.now)) result (token spec.leaf_shown tokens.now) }
    ensures high { IfOk result (λ x. expression_height (expression x.0) ≡ 1) }
{
    let [token, rest @ ..] = tokens else {
        return Err(Refusal::Refused { left: 0 });
    };
    let line = token.line;
    match token.kind {
        TokenKind::Constant { value, form } => Ok((Expr::Constant { line, value, form }, rest)),
        TokenKind::Text => Ok((Expr::Text { line }, rest)),
        TokenKind::Keyword { word } if word == Keyword::Null => Ok((Expr::Null { line }, rest)),
        _ => Err(Refusal::Refused { left: tokens.len() }),
    }
}

/// Whether the first token opens such expressions.
#[tactic(auto, unfolding(crate::specs::Grammar::opens))]
pub fn opens(tokens: &[Token], wanted: Opening) -> bool
    ensures { result ≡ starts (spec.opens wanted) tokens.now }
{
    match tokens {
        [token, ..] => opened_by(token.kind) == wanted,
        [] => false,
    }
}

/// Whether the first token opens such expressions, and there is room for their parts.
#[tactic(auto, unfolding(crate::specs::Grammar::opens))]
pub fn opens_parts(tokens: &[Token], wanted: Opening, below: u32) -> bool
    ensures { result ≡ starts (λ c. spec.opens wanted c && nat_lt 0 below) tokens.now }
{
    match tokens {
        [token, ..] => opened_by(token.kind) == wanted && below > 0,
        [] => false,
    }
}

fn sign_of(mark: Punct) -> Option<Unary>
    ensures { result ≡ spelling.sign_of mark }
{
    match mark {
        Punct::Plus => Some(Unary::Plus),
        Punct::Minus => Some(Unary::Minus),
        Punct::Tilde => Some(Unary::Invert),
        Punct::Not => Some(Unary::Not),
        _ => None,
    }
}

fn operator_of(mark: Punct) -> Option<Binary>
    ensures { result ≡ spelling.operator_of mark }
{
    match mark {
        Punct::Star => Some(Binary::Mul),
        Punct::Slash => Some(Binary::Div),
        Punct::Percent => Some(Binary::Rem),
        Punct::Plus => Some(Binary::Add),
        Punct::Minus => Some(Binary::Sub),
        Punct::ShiftLeft => Some(Binary::Shl),
        Punct::ShiftRight => Some(Binary::Shr),
        Punct::Less => Some(Binary::Lt),
        Punct::Greater => Some(Binary::Gt),
        Punct::LessEqual => Some(Binary::Le),
        Punct::GreaterEqual => Some(Binary::Ge),
        Punct::Equal => Some(Binary::Eq),
        Punct::NotEqual => Some(Binary::Ne),
        Punct::And => Some(Binary::BitAnd),
        Punct::Xor => Some(Binary::BitXor),
        Punct::Or => Some(Binary::BitOr),
        Punct::AndAnd => Some(Binary::Both),
        Punct::OrOr => Some(Binary::Either),
        _ => None,
    }
}

fn assigning_of(mark: Punct) -> Option<Option<Binary>>
    ensures { result ≡ spelling.assigning_of mark }
{
    match mark {
        Punct::Assign => Some(None),
        Punct::AddAssign => Some(Some(Binary::Add)),
        Punct::SubAssign => Some(Some(Binary::Sub)),
        Punct::MulAssign => Some(Some(Binary::Mul)),
        Punct::DivAssign => Some(Some(Binary::Div)),
        Punct::RemAssign => Some(Some(Binary::Rem)),
        Punct::AndAssign => Some(Some(Binary::BitAnd)),
        Punct::OrAssign => Some(Some(Binary::BitOr)),
        Punct::XorAssign => Some(Some(Binary::BitXor)),
        Punct::ShlAssign => Some(Some(Binary::Shl)),
        Punct::ShrAssign => Some(Some(Binary::Shr)),
        _ => None,
    }
}

fn step_of(mark: Punct) -> Option<bool>
    ensures { result ≡ spelling.step_of mark }
{
    match mark {
        Punct::Increment => Some(true),
        Punct::Decrement => Some(false),
        _ => None,
    }
}

/// The class of a binary operator, from 1 for the tightest (C99 6.5.5 to 6.5.14).
fn looseness(op: Binary) -> u8
    ensures { result ≡ looseness op }
{
    match op {
        Binary::Mul | Binary::Div | Binary::Rem => 1,
        Binary::Add | Binary::Sub => 2,
        Binary::Shl | Binary::Shr => 3,
        Binary::Lt | Binary::Gt | Binary::Le | Binary::Ge => 4,
        Binary::Eq | Binary::Ne => 5,
        Binary::BitAnd => 6,
        Binary::BitXor => 7,
        Binary::BitOr => 8,
        Binary::Both => 9,
        Binary::Either => 10,
    }
}

/// A unary operator with its line, and what stands behind it.
#[tactic(auto, unfolding(crate::specs::Reading::token, crate::specs::Grammar::lined_shown, lz_tree::specs::Languages::meant_by))]
pub fn sign(tokens: &[Token]) -> Result<(u32, Unary, &[Token]), Refusal>
    ensures { Reads (λ x. ((x.0, x.1), x.2.now)) result (spec.sign tokens.now) }
{
    let [token, rest @ ..] = tokens else {
        return Err(Refusal::Refused { left: 0 });
    };
    let TokenKind::Punct { mark } = token.kind else {
        return Err(Refusal::Refused { left: tokens.len() });
    };
    match sign_of(mark) {
        Some(op) => Ok((token.line, op, rest)),
        None => Err(Refusal::Refused { left: tokens.len() }),
    }
}

/// Whether `++`, with its line, and what stands behind it; or the same for `--`.
#[tactic(auto, unfolding(crate::specs::Reading::token, crate::specs::Grammar::lined_shown, lz_tree::specs::Languages::meant_by))]
pub fn step(tokens: &[Token]) -> Result<(u32, bool, &[Token]), Refusal>
    ensures { Reads (λ x. ((x.0, x.1), x.2.now)) result (token spec.step_shown tokens.now) }
{
    let [token, rest @ ..] = tokens else {
        return Err(Refusal::Refused { left: 0 });
    };
    let TokenKind::Punct { mark } = token.kind else {
        return Err(Refusal::Refused { left: tokens.len() });
    };
    match step_of(mark) {
        Some(up) => Ok((token.line, up, rest)),
        None => Err(Refusal::Refused { left: tokens.len() }),
    }
}

/// Whether `++` or `--` comes first.
#[tactic(auto, unfolding(crate::specs::Grammar::lined_shown, lz_tree::specs::Languages::meant_by))]
pub fn begins_step(tokens: &[Token]) -> bool
    ensures { result ≡ starts (λ c. shows (spec.step_shown c)) tokens.now }
{
    match tokens {
        [token, ..] => match token.kind {
            TokenKind::Punct { mark } => step_of(mark).is_some(),
            _ => false,
        },
        [] => false,
    }
}

/// A binary operator of the class, and what stands behind it.
#[tactic(auto, unfolding(crate::specs::Grammar::shown_at, crate::specs::Grammar::operator_shown, lz_tree::specs::Languages::meant_by))]
pub fn operator(tokens: &[Token], class: u8) -> Option<(Binary, &[Token])>
    ensures { option_map (λ x. (x.0, x.1.now)) result ≡ spec.shown_at (spec.operator_shown class) tokens.now }
{
    let [token, rest @ ..] = tokens else {
        return None;
    };
    let TokenKind::Punct { mark } = token.kind else {
        return None;
    };
    let op = operator_of(mark)?;
    if looseness(op) == class {
        Some((op, rest))
    } else {
        None
    }
}

/// `=` or another assignment operator, and what stands behind it.
#[tactic(auto, unfolding(crate::specs::Reading::token, lz_tree::specs::Languages::meant_by))]
pub fn assigning(tokens: &[Token]) -> Result<(Option<Binary>, &[Token]), Refusal>
    ensures { Reads (λ x. (x.0, x.1.now)) result (token (meant_by spelling.assigning_of) tokens.now) }
{
    let [token, rest @ ..] = tokens else {
        return Err(Refusal::Refused { left: 0 });
    };
    let TokenKind::Punct { mark } = token.kind else {
        return Err(Refusal::Refused { left: tokens.len() });
    };
    match assigning_of(mark) {
        Some(op) => Ok((op, rest)),
        None => Err(Refusal::Refused { left: tokens.len() }),
    }
}

/// Whether an assignment operator comes first.
#[tactic(auto, unfolding(lz_tree::specs::Languages::meant_by))]
pub fn begins_assigning(tokens: &[Token]) -> bool
    ensures { result ≡ starts (λ c. shows (meant_by spelling.assigning_of c)) tokens.now }
{
    match tokens {
        [token, ..] => match token.kind {
            TokenKind::Punct { mark } => assigning_of(mark).is_some(),
            _ => false,
        },
        [] => false,
    }
}

/// The line of the first token.
#[tactic(auto, unfolding(lz_tree::specs::Languages::line_at))]
pub fn line_at(tokens: &[Token]) -> u32
    ensures { result ≡ line_at tokens.now }
{
    match tokens {
        [token, ..] => token.line,
        [] => 0,
    }
}
