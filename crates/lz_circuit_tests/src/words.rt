//! Words of bits of lz_arith.

ghost use Rattle.std.specs.Prelude.{◌≡◌, ◌+◌, ◌<◌, ◌≤◌, IfOk, OnOk};
ghost use Rattle.lz_cnf.specs.Models.{variable_bound};
ghost use Rattle.lz_gates.specs.Circuits.{IsLit};
ghost use Rattle.lz_arith.specs.Bits.{AreBits};

use lz_arith::{Bits, binary_bits, choose_bits, convert_bits, truth_bit, unary_bits};
use lz_base::{Binary, IntType, Memory, Unary};
use lz_gates::Builder;
use std::alloc::Global;
use std::process::Abort;
use std::test::Fail;

/// A word of fresh literals.
fn fresh_word(alloc: Global, builder: &mut Builder) -> Result<Bits, Memory>
    requires room { builder.old.variables + 32 < variable_bound }
    ensures bits { IfOk result (AreBits builder.new 32) }
    ensures more { OnOk result (builder.new.variables ≡ builder.old.variables + 32) }
{
    let mut bits = Bits::new(alloc);
    for _i in 0..32_usize {
        let lit = builder.fresh()?;
        bits.push(lit)?;
    }
    Ok(bits)
}

/// How many literals a binary operator answers over fresh ones.
#[tactic(auto, using(lz_arith::proofs::FreshLemmas::binary_variables_most, lz_arith::proofs::FreshLemmas::bits_still))]
fn binary_length(alloc: Global, op: Binary, t: IntType) -> Result<usize, Fail> {
    let mut builder = Builder::new(alloc).ok().ok_or("memory")?;
    let a = fresh_word(alloc, &mut builder).ok().ok_or("memory")?;
    let b = fresh_word(alloc, &mut builder).ok().ok_or("memory")?;
    let bits = binary_bits(alloc, &mut builder, op, t, &a, &b)
        .ok()
        .ok_or("memory")?;
    Ok(bits.items().len())
}

/// How many literals a unary operator answers over fresh ones.
#[tactic(auto, using(lz_arith::proofs::FreshLemmas::unary_variables_most))]
fn unary_length(alloc: Global, op: Unary, t: IntType) -> Result<usize, Fail> {
    let mut builder = Builder::new(alloc).ok().ok_or("memory")?;
    let a = fresh_word(alloc, &mut builder).ok().ok_or("memory")?;
    let bits = unary_bits(alloc, &mut builder, op, t, &a)
        .ok()
        .ok_or("memory")?;
    Ok(bits.items().len())
}

/// Compares the length of what each binary operator answers in both kinds.
fn binary_lengths_agree(rt: &impl Abort, alloc: Global, operators: &[Binary]) -> Result<(), Fail> {
    for op in operators {
        assert_eq!(rt;
            binary_length(alloc, *op, IntType::Int)?,
            32,
            "{op:?} with sign"
        );
        assert_eq!(rt;
            binary_length(alloc, *op, IntType::Unsigned)?,
            32,
            "{op:?} without sign"
        );
    }
    Ok(())
}

/// The same of each unary operator.
fn unary_lengths_agree(rt: &impl Abort, alloc: Global, operators: &[Unary]) -> Result<(), Fail> {
    for op in operators {
        assert_eq!(rt;
            unary_length(alloc, *op, IntType::Int)?,
            32,
            "{op:?} with sign"
        );
        assert_eq!(rt;
            unary_length(alloc, *op, IntType::Unsigned)?,
            32,
            "{op:?} without sign"
        );
    }
    Ok(())
}

/// Every binary operator answers a word in both kinds.
#[test]
fn binary_operators_answer_words(rt: HostRuntime) -> Result<(), Fail> {
    let operators = [
        Binary::Mul,
        Binary::Div,
        Binary::Rem,
        Binary::Add,
        Binary::Sub,
        Binary::Shl,
        Binary::Shr,
        Binary::Lt,
        Binary::Gt,
        Binary::Le,
        Binary::Ge,
        Binary::Eq,
        Binary::Ne,
        Binary::BitAnd,
        Binary::BitXor,
        Binary::BitOr,
        Binary::Both,
        Binary::Either,
    ];
    binary_lengths_agree(&rt, rt.alloc(), &operators)
}

/// Every unary operator answers a word in both kinds.
#[test]
fn unary_operators_answer_words(rt: HostRuntime) -> Result<(), Fail> {
    let operators = [Unary::Plus, Unary::Minus, Unary::Invert, Unary::Not];
    unary_lengths_agree(&rt, rt.alloc(), &operators)
}

/// A conversion answers the word itself.
#[test]
fn conversions_answer_the_word(rt: HostRuntime) -> Result<(), Fail> {
    let mut builder = Builder::new(rt.alloc()).ok().ok_or("memory")?;
    let a = fresh_word(rt.alloc(), &mut builder).ok().ok_or("memory")?;
    let same = convert_bits(
        rt.alloc(),
        &mut builder,
        IntType::Int,
        IntType::Unsigned,
        &a,
    )
    .ok()
    .ok_or("memory")?;
    assert_eq!(rt; same.items(), a.items(), "from `int` to `unsigned`");
    Ok(())
}

/// A choice by a constant answers one of the words.
#[test]
#[tactic(auto, using(lz_arith::proofs::FreshLemmas::bits_still))]
fn choices_by_a_constant_answer_a_word(rt: HostRuntime) -> Result<(), Fail> {
    let mut builder = Builder::new(rt.alloc()).ok().ok_or("memory")?;
    let a = fresh_word(rt.alloc(), &mut builder).ok().ok_or("memory")?;
    let b = fresh_word(rt.alloc(), &mut builder).ok().ok_or("memory")?;
    let test = builder.falsity();
    let chosen = choose_bits(rt.alloc(), &mut builder, test, &a, &b)
        .ok()
        .ok_or("memory")?;
    assert_eq!(rt; chosen.items(), b.items(), "a false test takes the second");
    Ok(())
}

/// A truth test of fresh literals answers a literal behind them.
#[test]
fn truth_tests_answer_a_new_literal(rt: HostRuntime) -> Result<(), Fail> {
    let mut builder = Builder::new(rt.alloc()).ok().ok_or("memory")?;
    let a = fresh_word(rt.alloc(), &mut builder).ok().ok_or("memory")?;
    let truth = truth_bit(rt.alloc(), &mut builder, &a)
        .ok()
        .ok_or("memory")?;
    let before = a.items();
    assert!(rt;
        before.len() == 32 && truth.0 > before[31].0,
        "a literal of a variable behind those of the word"
    );
    Ok(())
}
