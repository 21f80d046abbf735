ghost use Rattle.std.specs.Prelude.{◌≡◌, IfOk, slice_index};
ghost use Rattle.lz_tree.specs.ScopedTrees.{scoped_expression};
ghost use Rattle.lz_base.specs.Words as words;
ghost use Rattle.lz_model.specs.CodeTraces as model;
ghost use Rattle.lz_model.specs.CodeTraces.{put};
ghost use Rattle.lz_turns.specs.Stages.{words_of};

use lz_base::{Binary, IntType, Memory, Unary, Value, binary, convert, unary};
use lz_tree::ScopedExpr;

/// The word at a place, and 0 behind the last.
pub fn word_at(words: &[u32], place: u32) -> u32
    ensures { result ≡ slice_index words.now place }
{
    match words.get(place as usize) {
        Some(word) => *word,
        None => 0,
    }
}

/// Sets the word at a place. The list grows up to it, with words that are 0; for want of memory it may have grown
/// by some of them.
pub fn set_word(words: &mut Vec<u32>, place: u32, word: u32) -> Result<(), Memory>
    ensures { IfOk result (λ _. words_of words.new.items ≡ put place word (words_of words.old.items)) }
{
    let place = place as usize;
    while words.len() <= place {
        words.push(0)?;
    }
    words[place] = word;
    Ok(())
}

/// The kind that stands for none: `int`.
pub fn kind_or(kind: Option<IntType>) -> IntType
    ensures { result ≡ model.kind_or kind }
{
    match kind {
        Some(kind) => kind,
        None => IntType::Int,
    }
}

/// The kind of an expression's value.
pub fn kind_of(e: &ScopedExpr) -> IntType
    ensures { result ≡ model.kind_of (scoped_expression e.now) }
{
    match e {
        ScopedExpr::Constant { kind, .. }
        | ScopedExpr::Null { kind, .. }
        | ScopedExpr::Text { kind, .. }
        | ScopedExpr::Object { kind, .. }
        | ScopedExpr::Address { kind, .. }
        | ScopedExpr::Paren { kind, .. }
        | ScopedExpr::Unary { kind, .. }
        | ScopedExpr::Cast { kind, .. }
        | ScopedExpr::Binary { kind, .. }
        | ScopedExpr::Choose { kind, .. }
        | ScopedExpr::Assign { kind, .. }
        | ScopedExpr::Step { kind, .. }
        | ScopedExpr::Call { kind, .. } => kind_or(*kind),
    }
}

/// The value of a word in another kind.
pub fn converted(a: u32, from: IntType, to: IntType) -> u32
    ensures { result ≡ words.converted a from to }
{
    convert(a as Value, from, to) as u32
}

/// The common kind of two operands (C99 6.3.1.8).
fn common_kind(left: IntType, right: IntType) -> IntType
    ensures { result ≡ model.common_kind left right }
{
    match (left, right) {
        (IntType::Int, IntType::Int) => IntType::Int,
        (IntType::Int, IntType::Unsigned) => IntType::Unsigned,
        (IntType::Unsigned, IntType::Int) => IntType::Unsigned,
        (IntType::Unsigned, IntType::Unsigned) => IntType::Unsigned,
    }
}

/// The kind in which an operator takes its left operand.
fn left_kind(op: Binary, left: IntType, right: IntType) -> IntType
    ensures { result ≡ model.left_kind (model.way_of op) left right }
{
    match op {
        Binary::Both | Binary::Either | Binary::Shl | Binary::Shr => left,
        Binary::Lt
        | Binary::Gt
        | Binary::Le
        | Binary::Ge
        | Binary::Eq
        | Binary::Ne
        | Binary::Mul
        | Binary::Div
        | Binary::Rem
        | Binary::Add
        | Binary::Sub
        | Binary::BitAnd
        | Binary::BitXor
        | Binary::BitOr => common_kind(left, right),
    }
}

/// The kind in which an operator takes its right operand.
fn right_kind(op: Binary, left: IntType, right: IntType) -> IntType
    ensures { result ≡ model.right_kind (model.way_of op) left right }
{
    match op {
        Binary::Both | Binary::Either | Binary::Shl | Binary::Shr => right,
        Binary::Lt
        | Binary::Gt
        | Binary::Le
        | Binary::Ge
        | Binary::Eq
        | Binary::Ne
        | Binary::Mul
        | Binary::Div
        | Binary::Rem
        | Binary::Add
        | Binary::Sub
        | Binary::BitAnd
        | Binary::BitXor
        | Binary::BitOr => common_kind(left, right),
    }
}

/// The kind of an operator's value.
fn value_kind(op: Binary, left: IntType, right: IntType) -> IntType
    ensures { result ≡ model.value_kind (model.way_of op) left right }
{
    match op {
        Binary::Both
        | Binary::Either
        | Binary::Lt
        | Binary::Gt
        | Binary::Le
        | Binary::Ge
        | Binary::Eq
        | Binary::Ne => IntType::Int,
        Binary::Shl | Binary::Shr => left,
        Binary::Mul
        | Binary::Div
        | Binary::Rem
        | Binary::Add
        | Binary::Sub
        | Binary::BitAnd
        | Binary::BitXor
        | Binary::BitOr => common_kind(left, right),
    }
}

/// The right operand as an operator takes it.
pub fn right_operand(op: Binary, left: IntType, right: IntType, b: u32) -> u32
    ensures { result ≡ model.right_operand op left right b }
{
    converted(b, right, right_kind(op, left, right))
}

/// The value of an operator at two operands of these kinds.
pub fn operated(op: Binary, left: IntType, right: IntType, a: u32, b: u32) -> u32
    ensures { result ≡ model.operated op left right a b }
{
    let kind = left_kind(op, left, right);
    let a = converted(a, left, kind);
    let b = right_operand(op, left, right, b);
    binary(op, a as Value, b as Value, kind) as u32
}

/// The value behind an assignment with an operator.
pub fn assigned(op: Binary, kind: IntType, right: IntType, old: u32, b: u32) -> u32
    ensures { result ≡ model.assigned op kind right old b }
{
    let value = operated(op, kind, right, old, b);
    converted(value, value_kind(op, kind, right), kind)
}

/// The value behind `++` or `--`.
pub fn stepped(up: bool, kind: IntType, old: u32) -> u32
    ensures { result ≡ model.stepped up kind old }
{
    if up {
        assigned(Binary::Add, kind, IntType::Int, old, 1)
    } else {
        assigned(Binary::Sub, kind, IntType::Int, old, 1)
    }
}

/// The value of a unary operator at an operand.
pub fn unary_operated(op: Unary, from: IntType, kind: IntType, a: u32) -> u32
    ensures { result ≡ model.unary_operated op from kind a }
{
    match op {
        Unary::Not => unary(Unary::Not, a as Value, from) as u32,
        Unary::Plus => unary(Unary::Plus, converted(a, from, kind) as Value, kind) as u32,
        Unary::Minus => unary(Unary::Minus, converted(a, from, kind) as Value, kind) as u32,
        Unary::Invert => unary(Unary::Invert, converted(a, from, kind) as Value, kind) as u32,
    }
}

/// Whether an operator divides.
pub fn is_division(op: Binary) -> bool
    ensures { result ≡ model.is_division op }
{
    match op {
        Binary::Div | Binary::Rem => true,
        Binary::Both
        | Binary::Either
        | Binary::Shl
        | Binary::Shr
        | Binary::Lt
        | Binary::Gt
        | Binary::Le
        | Binary::Ge
        | Binary::Eq
        | Binary::Ne
        | Binary::Mul
        | Binary::Add
        | Binary::Sub
        | Binary::BitAnd
        | Binary::BitXor
        | Binary::BitOr => false,
    }
}
