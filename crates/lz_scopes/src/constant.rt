ghost use Rattle.std.specs.Prelude.{◌≡◌, ◌<◌, Option, Some};
ghost use Rattle.lz_base.specs.Words.{value_bound};
ghost use Rattle.lz_tree.specs.Trees.{expression};
ghost use Rattle.lz_scopes.specs.Constants as spec;

use crate::value_types::{ValueType, value_type};
use lz_base::{Binary, IntType, SIGN_BOUND, Unary, VALUE_BOUND, Value, binary, convert, unary};
use lz_tree::{Expr, Form, TypeName};

/// The value of a constant expression, with its kind.
#[derive(Clone, Copy, Debug, PartialEq, Eq)]
pub struct Word {
    pub kind: IntType,
    pub value: Value,
}

/// The kind of two operands together.
pub fn joint(left: IntType, right: IntType) -> IntType
    ensures { result ≡ spec.joint left right }
{
    match left {
        IntType::Int => right,
        IntType::Unsigned => IntType::Unsigned,
    }
}

/// The kind in which an operator computes.
fn operand_kind(op: Binary, left: IntType, right: IntType) -> IntType
    ensures { result ≡ spec.operand_kind op left right }
{
    match op {
        Binary::Shl | Binary::Shr => left,
        _ => joint(left, right),
    }
}

/// The kind of what an operator gives.
pub fn binary_kind(op: Binary, left: IntType, right: IntType) -> IntType
    ensures { result ≡ spec.binary_kind op left right }
{
    match op {
        Binary::Lt | Binary::Gt | Binary::Le | Binary::Ge => IntType::Int,
        Binary::Eq | Binary::Ne | Binary::Both | Binary::Either => IntType::Int,
        _ => operand_kind(op, left, right),
    }
}

/// The kind of what a unary operator gives.
pub fn unary_kind(op: Unary, kind: IntType) -> IntType
    ensures { result ≡ spec.unary_kind op kind }
{
    match op {
        Unary::Not => IntType::Int,
        _ => kind,
    }
}

/// Whether a constant without `l` is too large for its type.
pub fn is_large(value: u64, form: Form) -> bool
    ensures { result ≡ spec.is_large value form }
{
    form.longs == 0
        && (VALUE_BOUND <= value || (form.decimal && !form.unsigned && SIGN_BOUND <= value))
}

/// The kind of a constant.
pub fn constant_kind(value: u64, form: Form) -> IntType
    ensures { result ≡ spec.constant_kind value form }
{
    if is_large(value, form) || form.longs != 0 {
        return IntType::Int;
    }
    if form.unsigned {
        return IntType::Unsigned;
    }
    if form.decimal || value < SIGN_BOUND {
        IntType::Int
    } else {
        IntType::Unsigned
    }
}

/// The word that a value is as an operand.
pub fn as_word(value: Value) -> Value
    ensures value { result ≡ spec.word value }
    ensures word { result < value_bound }
{
    value % VALUE_BOUND
}

/// The value of a unary operator at a word.
fn unary_word(op: Unary, a: Word) -> Word
    ensures { Some result ≡ spec.unary_word op (Some a) }
{
    Word {
        kind: unary_kind(op, a.kind),
        value: unary(op, as_word(a.value), a.kind),
    }
}

/// The value of a cast to an integer type.
fn cast_word(to: TypeName, a: Word) -> Option<Word>
    ensures { result ≡ spec.cast_word to (Some a) }
{
    match value_type(to) {
        ValueType::Integer { kind } => Some(Word {
            kind,
            value: convert(as_word(a.value), a.kind, kind),
        }),
        _ => None,
    }
}

/// Whether the operator divides.
pub fn is_division(op: Binary) -> bool
    ensures { result ≡ spec.is_division op }
{
    matches!(op, Binary::Div | Binary::Rem)
}

/// The value of a binary operator at two words, but of a division by 0.
fn joined_word(op: Binary, a: Word, b: Word) -> Option<Word>
    ensures { result ≡ spec.joined_word op a b }
{
    let left = as_word(a.value);
    let right = as_word(b.value);
    if is_division(op) && right == 0 {
        return None;
    }
    Some(Word {
        kind: binary_kind(op, a.kind, b.kind),
        value: binary(op, left, right, operand_kind(op, a.kind, b.kind)),
    })
}

/// The chosen one of two words.
fn chosen_word(test: bool, a: Word, b: Word) -> Word
    ensures { result ≡ spec.chosen_word test a b }
{
    let kind = joint(a.kind, b.kind);
    if test {
        Word {
            kind,
            value: convert(as_word(a.value), a.kind, kind),
        }
    } else {
        Word {
            kind,
            value: convert(as_word(b.value), b.kind, kind),
        }
    }
}

/// The value of a constant expression, with its kind.
#[tactic(auto, unfolding(crate::specs::Constants::constant_value))]
pub fn constant_value(e: &Expr) -> Option<Word>
    ensures { result ≡ spec.constant_value (expression e.now) }
{
    match e {
        Expr::Constant { value, form, .. } => Some(Word {
            kind: constant_kind(*value, *form),
            value: *value,
        }),
        Expr::Paren { inner, .. } => constant_value(inner),
        Expr::Unary { op, of, .. } => {
            let a = constant_value(of)?;
            Some(unary_word(*op, a))
        }
        Expr::Cast { to, of, .. } => {
            let a = constant_value(of)?;
            cast_word(*to, a)
        }
        Expr::Binary {
            op,
            left,
            right,
            ..
        } => {
            let a = constant_value(left)?;
            let b = constant_value(right)?;
            joined_word(*op, a, b)
        }
        Expr::Choose { test, yes, no, .. } => {
            let t = constant_value(test)?;
            let a = constant_value(yes)?;
            let b = constant_value(no)?;
            Some(chosen_word(as_word(t.value) != 0, a, b))
        }
        _ => None,
    }
}
