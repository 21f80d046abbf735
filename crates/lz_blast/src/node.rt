//! The circuit of a node.
ghost use Rattle.std.specs.Prelude.{◌≡◌, ◌+◌, ◌<◌, ℕ, OnOk, IfOk, length};
ghost use Rattle.std.specs.List.{All};
ghost use Rattle.lz_base.specs.Words.{value_bound};
ghost use Rattle.lz_cnf.specs.Models.{variable_bound};
ghost use Rattle.lz_arith.specs.Bits.{AreBits};
ghost use Rattle.lz_arith.specs.Sizes.{word_width};
ghost use Rattle.lz_ssa.specs.declared.node.Node.TheVariants as nodes;
ghost use Rattle.lz_ssa.specs.NodeValues.{IsNodeOf};
ghost use Rattle.lz_blast.specs.Counts.{node_variables};
ghost use Rattle.lz_blast.specs.Encoding.{AreInputs};
ghost use Rattle.lz_blast.specs.Steps.{Adds, Steps};

use crate::constant::constant_bits;
use crate::input::{BitsList, add_input};
use lz_arith::{Bits, binary_bits, choose_bits, convert_bits, truth_bit, unary_bits};
use lz_base::{Binary, IntType, Memory, Unary, Value};
use lz_gates::Builder;
use lz_ssa::Node;
use std::alloc::Global;

/// A constant.
fn add_constant(
    alloc: Global,
    builder: &Builder,
    words: &mut BitsList,
    value: Value,
) -> Result<(), Memory>
    requires value { value < value_bound }
    ensures adds { OnOk result (Adds builder.now builder.now words.old words.new (nodes.Constant value)) }
{
    let bits = constant_bits(alloc, builder, value)?;
    words.push(bits)?;
    Ok(())
}

/// A unary operator.
fn add_unary(
    alloc: Global,
    builder: &mut Builder,
    words: &mut BitsList,
    op: Unary,
    kind: IntType,
    of: u32,
) -> Result<(), Memory>
    requires operand { of < length words.old }
    requires words { All (AreBits builder.old word_width) words.old }
    requires room { builder.old.variables + node_variables (nodes.Unary op kind of) < variable_bound }
    ensures adds { OnOk result (Adds builder.old builder.new words.old words.new (nodes.Unary op kind of)) }
{
    let bits = unary_bits(alloc, builder, op, kind, &words.items()[of as usize])?;
    words.push(bits)?;
    Ok(())
}

/// A binary operator.
fn add_binary(
    alloc: Global,
    builder: &mut Builder,
    words: &mut BitsList,
    op: Binary,
    kind: IntType,
    left: u32,
    right: u32,
) -> Result<(), Memory>
    requires left { left < length words.old }
    requires right { right < length words.old }
    requires words { All (AreBits builder.old word_width) words.old }
    requires room { builder.old.variables + node_variables (nodes.Binary op kind left right) < variable_bound }
    ensures adds { OnOk result (Adds builder.old builder.new words.old words.new (nodes.Binary op kind left right)) }
{
    let lists = words.items();
    let bits = binary_bits(
        alloc,
        builder,
        op,
        kind,
        &lists[left as usize],
        &lists[right as usize],
    )?;
    words.push(bits)?;
    Ok(())
}

/// A conversion.
fn add_convert(
    alloc: Global,
    builder: &mut Builder,
    words: &mut BitsList,
    from: IntType,
    to: IntType,
    of: u32,
) -> Result<(), Memory>
    requires operand { of < length words.old }
    requires words { All (AreBits builder.old word_width) words.old }
    ensures adds { OnOk result (Adds builder.old builder.new words.old words.new (nodes.Convert from to of)) }
{
    let bits = convert_bits(alloc, builder, from, to, &words.items()[of as usize])?;
    words.push(bits)?;
    Ok(())
}

/// A choice.
fn add_choice(
    alloc: Global,
    builder: &mut Builder,
    words: &mut BitsList,
    test: u32,
    yes: u32,
    no: u32,
) -> Result<(), Memory>
    requires test { test < length words.old }
    requires yes { yes < length words.old }
    requires no { no < length words.old }
    requires words { All (AreBits builder.old word_width) words.old }
    requires room { builder.old.variables + node_variables (nodes.Choose test yes no) < variable_bound }
    ensures adds { OnOk result (Adds builder.old builder.new words.old words.new (nodes.Choose test yes no)) }
{
    let lists = words.items();
    let chosen = truth_bit(alloc, builder, &lists[test as usize])?;
    let bits = choose_bits(
        alloc,
        builder,
        chosen,
        &lists[yes as usize],
        &lists[no as usize],
    )?;
    words.push(bits)?;
    Ok(())
}

/// The circuit of a node, after those of the nodes before it.
pub(crate) fn add_node(
    alloc: Global,
    builder: &mut Builder,
    words: &mut BitsList,
    inputs: &mut Vec<Bits>,
    node: Node,
) -> Result<(), Memory>
    requires node { IsNodeOf (length inputs.old.items) (length words.old) node }
    requires words { All (AreBits builder.old word_width) words.old }
    requires room { builder.old.variables + node_variables node < variable_bound }
    ensures steps { OnOk result (Steps builder.old builder.new inputs.old.items inputs.new.items words.old words.new node) }
    ensures inputs { OnOk result (length inputs.new.items ≡ length inputs.old.items) }
{
    match node {
        Node::Constant { value } => {
            add_constant(alloc, builder, words, value)?;
            Ok(())
        }
        Node::Input { number, kind } => {
            add_input(alloc, builder, words, inputs, number, kind)?;
            Ok(())
        }
        Node::Unary { op, kind, of } => {
            add_unary(alloc, builder, words, op, kind, of)?;
            Ok(())
        }
        Node::Binary {
            op,
            kind,
            left,
            right,
        } => {
            add_binary(alloc, builder, words, op, kind, left, right)?;
            Ok(())
        }
        Node::Convert { from, to, of } => {
            add_convert(alloc, builder, words, from, to, of)?;
            Ok(())
        }
        Node::Choose { test, yes, no } => {
            add_choice(alloc, builder, words, test, yes, no)?;
            Ok(())
        }
    }
}
