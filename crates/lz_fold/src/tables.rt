ghost use Rattle.std.specs.Prelude.{◌≡◌};
ghost use Rattle.lz_fold.specs.Tables as spec;

use lz_base::{Binary, Value};

/// The word that as the right operand leaves the left one as it is.
pub fn right_unit(op: Binary) -> Option<Value>
    ensures { result ≡ spec.right_unit op }
{
    match op {
        Binary::Mul => Some(1),
        Binary::BitAnd => Some(4_294_967_295),
        Binary::Add | Binary::Sub | Binary::Shl | Binary::BitXor | Binary::BitOr => Some(0),
        Binary::Div
        | Binary::Rem
        | Binary::Shr
        | Binary::Lt
        | Binary::Gt
        | Binary::Le
        | Binary::Ge
        | Binary::Eq
        | Binary::Ne
        | Binary::Both
        | Binary::Either => None,
    }
}

/// The word that as the left operand leaves the right one as it is.
pub fn left_unit(op: Binary) -> Option<Value>
    ensures { result ≡ spec.left_unit op }
{
    match op {
        Binary::Mul => Some(1),
        Binary::BitAnd => Some(4_294_967_295),
        Binary::Add | Binary::BitXor | Binary::BitOr => Some(0),
        Binary::Div
        | Binary::Rem
        | Binary::Sub
        | Binary::Shl
        | Binary::Shr
        | Binary::Lt
        | Binary::Gt
        | Binary::Le
        | Binary::Ge
        | Binary::Eq
        | Binary::Ne
        | Binary::Both
        | Binary::Either => None,
    }
}

/// Whether an operand of 0, on either side, makes it 0.
pub fn absorbs(op: Binary) -> bool
    ensures { result ≡ spec.absorbs op }
{
    match op {
        Binary::Mul | Binary::BitAnd | Binary::Both => true,
        Binary::Div
        | Binary::Rem
        | Binary::Add
        | Binary::Sub
        | Binary::Shl
        | Binary::Shr
        | Binary::Lt
        | Binary::Gt
        | Binary::Le
        | Binary::Ge
        | Binary::Eq
        | Binary::Ne
        | Binary::BitXor
        | Binary::BitOr
        | Binary::Either => false,
    }
}

/// What it comes to at two equal operands, where that is one word.
pub fn of_equals(op: Binary) -> Option<Value>
    ensures { result ≡ spec.of_equals op }
{
    match op {
        Binary::Le | Binary::Ge | Binary::Eq => Some(1),
        Binary::Sub | Binary::Lt | Binary::Gt | Binary::Ne | Binary::BitXor => Some(0),
        Binary::Mul
        | Binary::Div
        | Binary::Rem
        | Binary::Add
        | Binary::Shl
        | Binary::Shr
        | Binary::BitAnd
        | Binary::BitOr
        | Binary::Both
        | Binary::Either => None,
    }
}

/// Whether at two equal operands it comes to these.
pub fn keeps_equals(op: Binary) -> bool
    ensures { result ≡ spec.keeps_equals op }
{
    match op {
        Binary::BitAnd | Binary::BitOr => true,
        Binary::Mul
        | Binary::Div
        | Binary::Rem
        | Binary::Add
        | Binary::Sub
        | Binary::Shl
        | Binary::Shr
        | Binary::Lt
        | Binary::Gt
        | Binary::Le
        | Binary::Ge
        | Binary::Eq
        | Binary::Ne
        | Binary::BitXor
        | Binary::Both
        | Binary::Either => false,
    }
}
