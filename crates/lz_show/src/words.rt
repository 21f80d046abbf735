//! Operators and types as they are written.

use lz_tree::{Binary, TypeName, Unary};

/// A unary operator (C99 6.5.3.3).
pub fn unary_word(op: Unary) -> &'static [u8] {
    match op {
        Unary::Plus => b"+",
        Unary::Minus => b"-",
        Unary::Invert => b"~",
        Unary::Not => b"!",
    }
}

/// A binary operator (C99 6.5.5 to 6.5.14).
pub fn binary_word(op: Binary) -> &'static [u8] {
    match op {
        Binary::Mul => b"*",
        Binary::Div => b"/",
        Binary::Rem => b"%",
        Binary::Add => b"+",
        Binary::Sub => b"-",
        Binary::Shl => b"<<",
        Binary::Shr => b">>",
        Binary::Lt => b"<",
        Binary::Gt => b">",
        Binary::Le => b"<=",
        Binary::Ge => b">=",
        Binary::Eq => b"==",
        Binary::Ne => b"!=",
        Binary::BitAnd => b"&",
        Binary::BitXor => b"^",
        Binary::BitOr => b"|",
        Binary::Both => b"&&",
        Binary::Either => b"||",
    }
}

/// A type (C99 6.7.2), its words joined.
pub fn type_word(base: TypeName) -> &'static [u8] {
    match base {
        TypeName::Int => b"int",
        TypeName::Signed => b"signed",
        TypeName::SignedInt => b"signed_int",
        TypeName::Unsigned => b"unsigned",
        TypeName::UnsignedInt => b"unsigned_int",
        TypeName::Bool => b"_Bool",
        TypeName::Char => b"char",
        TypeName::SignedChar => b"signed_char",
        TypeName::UnsignedChar => b"unsigned_char",
        TypeName::Short => b"short",
        TypeName::ShortInt => b"short_int",
        TypeName::UnsignedShort => b"unsigned_short",
        TypeName::UnsignedShortInt => b"unsigned_short_int",
        TypeName::Long => b"long",
        TypeName::LongInt => b"long_int",
        TypeName::UnsignedLong => b"unsigned_long",
        TypeName::UnsignedLongInt => b"unsigned_long_int",
        TypeName::LongLong => b"long_long",
        TypeName::LongLongInt => b"long_long_int",
        TypeName::UnsignedLongLong => b"unsigned_long_long",
        TypeName::UnsignedLongLongInt => b"unsigned_long_long_int",
        TypeName::Void => b"void",
        TypeName::VoidPointer => b"void_*",
        TypeName::Thread => b"pthread_t",
        TypeName::Mutex => b"pthread_mutex_t",
        TypeName::Cond => b"pthread_cond_t",
    }
}
