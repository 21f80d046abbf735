//! What the words of the command line ask for.

use lz_base::{Binary, IntType, Name, Unary};

/// A word that goes into a circuit.
#[derive(Clone, Copy)]
pub enum Operand {
    /// 32 fresh literals.
    Fresh,
    /// The literals of a known number.
    Constant { word: u32 },
}

/// An operator with its operands.
#[derive(Clone, Copy)]
pub enum Request {
    Unary {
        op: Unary,
        kind: IntType,
        of: Operand,
    },
    Binary {
        op: Binary,
        kind: IntType,
        left: Operand,
        right: Operand,
    },
    /// A conversion to the other kind.
    Convert {
        from: IntType,
        of: Operand,
    },
    /// Whether a word is not 0, as one literal.
    Test {
        of: Operand,
    },
    /// One of two words, by a fresh literal.
    Choice {
        yes: Operand,
        no: Operand,
    },
}

/// What the words ask for.
pub fn read_request(words: &[Name]) -> Option<Request> {
    match words {
        [operator, kind, of] => {
            let kind = kind_of(kind.text())?;
            let of = operand_of(of.text())?;
            one_operand(operator.text(), kind, of)
        }
        [operator, kind, left, right] => {
            let kind = kind_of(kind.text())?;
            let left = operand_of(left.text())?;
            let right = operand_of(right.text())?;
            two_operands(operator.text(), kind, left, right)
        }
        _ => None,
    }
}

/// The kind of this name.
fn kind_of(word: &str) -> Option<IntType> {
    match word.as_bytes() {
        b"int" => Some(IntType::Int),
        b"unsigned" => Some(IntType::Unsigned),
        _ => None,
    }
}

/// The operand of this name.
fn operand_of(word: &str) -> Option<Operand> {
    if word == "fresh" {
        return Some(Operand::Fresh);
    }
    match word.parse::<u32>() {
        Ok(word) => Some(Operand::Constant { word }),
        Err(_) => None,
    }
}

/// What this operator asks for with one operand.
fn one_operand(operator: &str, kind: IntType, of: Operand) -> Option<Request> {
    match operator.as_bytes() {
        b"convert" => Some(Request::Convert { from: kind, of }),
        b"test" => Some(Request::Test { of }),
        spelling => {
            let op = unary_of(spelling)?;
            Some(Request::Unary { op, kind, of })
        }
    }
}

/// What this operator asks for with two operands.
fn two_operands(operator: &str, kind: IntType, left: Operand, right: Operand) -> Option<Request> {
    match operator.as_bytes() {
        b"?" => Some(Request::Choice {
            yes: left,
            no: right,
        }),
        spelling => {
            let op = binary_of(spelling)?;
            Some(Request::Binary {
                op,
                kind,
                left,
                right,
            })
        }
    }
}

/// The unary operator of this spelling (C99 6.5.3.3).
fn unary_of(spelling: &[u8]) -> Option<Unary> {
    match spelling {
        b"+" => Some(Unary::Plus),
        b"-" => Some(Unary::Minus),
        b"~" => Some(Unary::Invert),
        b"!" => Some(Unary::Not),
        _ => None,
    }
}

/// The binary operator of this spelling (C99 6.5.5 to 6.5.14).
fn binary_of(spelling: &[u8]) -> Option<Binary> {
    match spelling {
        b"*" => Some(Binary::Mul),
        b"/" => Some(Binary::Div),
        b"%" => Some(Binary::Rem),
        b"+" => Some(Binary::Add),
        b"-" => Some(Binary::Sub),
        b"<<" => Some(Binary::Shl),
        b">>" => Some(Binary::Shr),
        b"<" => Some(Binary::Lt),
        b">" => Some(Binary::Gt),
        b"<=" => Some(Binary::Le),
        b">=" => Some(Binary::Ge),
        b"==" => Some(Binary::Eq),
        b"!=" => Some(Binary::Ne),
        b"&" => Some(Binary::BitAnd),
        b"^" => Some(Binary::BitXor),
        b"|" => Some(Binary::BitOr),
        b"&&" => Some(Binary::Both),
        b"||" => Some(Binary::Either),
        _ => None,
    }
}
