//! The circuit of a request.
ghost use Rattle.std.specs.Prelude.{◌≡◌, ◌+◌, ◌<◌, ◌≤◌, IfOk, OnOk};
ghost use Rattle.lz_cnf.specs.Models.{variable_bound};
ghost use Rattle.lz_gates.specs.Circuits.{IsLit};
ghost use Rattle.lz_arith.specs.Bits.{AreBits};
ghost use Rattle.lz_arith.specs.Sizes.{word_width};

use crate::request::{Operand, Request};
use lz_arith::{Bits, binary_bits, choose_bits, convert_bits, truth_bit, unary_bits};
use lz_base::{Binary, IntType, Memory, Sequence, Unary};
use lz_cnf::{Cnf, Lit};
use lz_gates::Builder;
use std::alloc::Global;

/// The formula of a circuit, with the literals of its operands and of its result.
#[derive(Drop)]
pub struct Circuit {
    pub formula: Cnf,
    pub operands: Sequence<Bits>,
    pub result: Bits,
}

/// The circuit of a request.
pub fn circuit_of(alloc: Global, request: Request) -> Result<Circuit, Memory> {
    match request {
        Request::Unary { op, kind, of } => unary_circuit(alloc, op, kind, of),
        Request::Binary {
            op,
            kind,
            left,
            right,
        } => binary_circuit(alloc, op, kind, left, right),
        Request::Convert { from, of } => convert_circuit(alloc, from, of),
        Request::Test { of } => test_circuit(alloc, of),
        Request::Choice { yes, no } => choice_circuit(alloc, yes, no),
    }
}

/// The literal of an operand at this place.
fn operand_bit(builder: &mut Builder, operand: Operand, place: u32) -> Result<Lit, Memory>
    requires place { place < word_width }
    requires room { builder.old.variables + 1 < variable_bound }
    ensures lit { IfOk result (IsLit builder.new) }
    ensures more { OnOk result (builder.old.variables ≤ builder.new.variables) }
    ensures most { OnOk result (builder.new.variables ≤ builder.old.variables + 1) }
{
    match operand {
        Operand::Fresh => {
            let lit = builder.fresh()?;
            Ok(lit)
        }
        Operand::Constant { word } => {
            if word >> place & 1 == 1 {
                return Ok(builder.truth());
            }
            Ok(builder.falsity())
        }
    }
}

/// The literals of an operand.
fn operand_bits(alloc: Global, builder: &mut Builder, operand: Operand) -> Result<Bits, Memory>
    requires room { builder.old.variables + word_width < variable_bound }
    ensures bits { IfOk result (AreBits builder.new word_width) }
    ensures more { OnOk result (builder.old.variables ≤ builder.new.variables) }
    ensures most { OnOk result (builder.new.variables ≤ builder.old.variables + word_width) }
{
    let mut bits = Bits::new(alloc);
    for place in 0..32_u32 {
        let lit = operand_bit(builder, operand, place)?;
        bits.push(lit)?;
    }
    Ok(bits)
}

/// Of a unary operator.
#[tactic(auto, using(lz_arith::proofs::FreshLemmas::unary_variables_most, lz_arith::proofs::FreshLemmas::bits_still))]
fn unary_circuit(alloc: Global, op: Unary, kind: IntType, of: Operand) -> Result<Circuit, Memory> {
    let mut builder = Builder::new(alloc)?;
    let of = operand_bits(alloc, &mut builder, of)?;
    let result = unary_bits(alloc, &mut builder, op, kind, &of)?;
    let mut operands = Sequence::new(alloc);
    operands.push(of)?;
    Ok(Circuit {
        formula: builder.finish(),
        operands,
        result,
    })
}

/// Of a binary operator.
#[tactic(auto, using(lz_arith::proofs::FreshLemmas::binary_variables_most, lz_arith::proofs::FreshLemmas::bits_still))]
fn binary_circuit(
    alloc: Global,
    op: Binary,
    kind: IntType,
    left: Operand,
    right: Operand,
) -> Result<Circuit, Memory> {
    let mut builder = Builder::new(alloc)?;
    let left = operand_bits(alloc, &mut builder, left)?;
    let right = operand_bits(alloc, &mut builder, right)?;
    let result = binary_bits(alloc, &mut builder, op, kind, &left, &right)?;
    let mut operands = Sequence::new(alloc);
    operands.push(left)?;
    operands.push(right)?;
    Ok(Circuit {
        formula: builder.finish(),
        operands,
        result,
    })
}

/// Of a conversion to the other kind.
fn convert_circuit(alloc: Global, from: IntType, of: Operand) -> Result<Circuit, Memory> {
    let to = match from {
        IntType::Int => IntType::Unsigned,
        IntType::Unsigned => IntType::Int,
    };
    let mut builder = Builder::new(alloc)?;
    let of = operand_bits(alloc, &mut builder, of)?;
    let result = convert_bits(alloc, &mut builder, from, to, &of)?;
    let mut operands = Sequence::new(alloc);
    operands.push(of)?;
    Ok(Circuit {
        formula: builder.finish(),
        operands,
        result,
    })
}

/// Of a truth test.
fn test_circuit(alloc: Global, of: Operand) -> Result<Circuit, Memory> {
    let mut builder = Builder::new(alloc)?;
    let of = operand_bits(alloc, &mut builder, of)?;
    let test = truth_bit(alloc, &mut builder, &of)?;
    let mut result = Bits::new(alloc);
    result.push(test)?;
    let mut operands = Sequence::new(alloc);
    operands.push(of)?;
    Ok(Circuit {
        formula: builder.finish(),
        operands,
        result,
    })
}

/// Of a choice.
#[tactic(auto, using(lz_arith::proofs::FreshLemmas::bits_still))]
fn choice_circuit(alloc: Global, yes: Operand, no: Operand) -> Result<Circuit, Memory> {
    let mut builder = Builder::new(alloc)?;
    let test = builder.fresh()?;
    let yes = operand_bits(alloc, &mut builder, yes)?;
    let no = operand_bits(alloc, &mut builder, no)?;
    let result = choose_bits(alloc, &mut builder, test, &yes, &no)?;
    let mut tests = Bits::new(alloc);
    tests.push(test)?;
    let mut operands = Sequence::new(alloc);
    operands.push(tests)?;
    operands.push(yes)?;
    operands.push(no)?;
    Ok(Circuit {
        formula: builder.finish(),
        operands,
        result,
    })
}
