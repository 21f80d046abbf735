ghost use Rattle.std.specs.Prelude.{◌≡◌, ◌<◌, ◌+◌, ◌^◌, nat_lt, length, slice_index, if◌then◌else◌, All};
ghost use Rattle.lz_flat.specs.Programs.{expression};
ghost use Rattle.lz_flat.specs.Instructions.{value};
ghost use Rattle.lz_flat.specs.WellFormed.{IsExpressionOf, IsWord, AreWithin};

use crate::program::FlatExpr;
use lz_base::{Value, binary, convert, unary};

/// The word numbered by `index` among `len` words from `first` on, or 0 past them.
fn element(first: u32, len: u32, index: Value, memory: &[Value]) -> Value
    requires within { AreWithin (length memory.now) first len }
    requires words { All IsWord memory.now }
    ensures value { result ≡ (if nat_lt index len then slice_index memory.now (first + index) else 0) }
    ensures word { IsWord result }
{
    if index < u64::from(len) {
        memory[first as usize + index as usize]
    } else {
        0
    }
}

/// The value of an expression in a memory. Linear in the expression.
#[tactic(auto, unfolding(crate::specs::Instructions::value))]
pub fn evaluate(expr: &FlatExpr, memory: &[Value]) -> Value
    requires within { IsExpressionOf (length memory.now) (expression expr.now) }
    requires words { All IsWord memory.now }
    ensures value { result ≡ value (expression expr.now) memory.now }
    ensures word { IsWord result }
{
    match expr {
        FlatExpr::Constant { value } => *value,
        FlatExpr::Word { place } => memory[*place as usize],
        FlatExpr::Element { first, len, index } => {
            let index = evaluate(index, memory);
            element(*first, *len, index, memory)
        }
        FlatExpr::Unary { op, kind, of } => {
            let of = evaluate(of, memory);
            unary(*op, of, *kind)
        }
        FlatExpr::Binary {
            op,
            kind,
            left,
            right,
        } => {
            let left = evaluate(left, memory);
            let right = evaluate(right, memory);
            binary(*op, left, right, *kind)
        }
        FlatExpr::Convert { from, to, of } => {
            let of = evaluate(of, memory);
            convert(of, *from, *to)
        }
        FlatExpr::Choose { test, yes, no } => {
            if evaluate(test, memory) == 0 {
                evaluate(no, memory)
            } else {
                evaluate(yes, memory)
            }
        }
    }
}
