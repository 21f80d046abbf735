//! The word operators of the checked language as circuits, each equal to its operator in every model.
#![tactic(auto)]

mod add;
mod bitwise;
mod choose;
mod compare;
mod divide;
mod lists;
mod nonzero;
mod operators;
mod product;
mod shift;

pub use lists::Bits;
pub use operators::{binary_bits, choose_bits, convert_bits, truth_bit, unary_bits};
