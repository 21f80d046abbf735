ghost use Rattle.std.specs.Prelude.{◌≡◌, ◌<◌, ◌^◌, ℕ, List, [], ◌∷◌, ◌++◌, length, slice_index, IfOk};
ghost use Rattle.lz_ssa.specs.declared.node.Node.{Node};
ghost use Rattle.lz_ssa.specs.NodeValues.{values_of, IsNodeOf, AreWellFormed};
ghost use Rattle.lz_fold.specs.Folding.{IsKnown, IsWordIfKnown, FoldsBehind, Operands, renamed, AreNodes, IsPlaced, AnyNode, Went, IsFoldOf};

use crate::rules::{Folded, fold_binary, fold_choice, fold_unary};
use lz_base::{Memory, Sequence, Value};
use lz_ssa::{Node, NodeList, Nodes};
use std::alloc::Global;

/// The word of a node, if it is a constant.
fn known(out: &[Node], number: u32) -> Option<Value>
    requires nodes { AreNodes out.now }
    requires within { number < length out.now }
    ensures known { (input : ℕ → ℕ) → IsKnown result (slice_index (values_of input out.now) number) }
    ensures word { IsWordIfKnown result }
{
    let node = out[number as usize];
    if let Node::Constant { value } = node {
        return Some(value);
    }
    None
}

/// A node with its operands where they went.
pub fn rename(places: &[u32], node: Node) -> Node
    requires { Operands (length places.now) node }
    ensures { result ≡ renamed places.now node }
{
    match node {
        Node::Constant { value } => Node::Constant { value },
        Node::Input { number, kind } => Node::Input { number, kind },
        Node::Unary { op, kind, of } => Node::Unary {
            op,
            kind,
            of: places[of as usize],
        },
        Node::Binary {
            op,
            kind,
            left,
            right,
        } => Node::Binary {
            op,
            kind,
            left: places[left as usize],
            right: places[right as usize],
        },
        Node::Convert { from, to, of } => Node::Convert {
            from,
            to,
            of: places[of as usize],
        },
        Node::Choose { test, yes, no } => Node::Choose {
            test: places[test as usize],
            yes: places[yes as usize],
            no: places[no as usize],
        },
    }
}

/// What a node behind these folds to.
fn fold_node(out: &[Node], node: Node) -> Folded
    requires nodes { AreNodes out.now }
    requires operands { Operands (length out.now) node }
    ensures { FoldsBehind out.now node result }
{
    match node {
        Node::Constant { value: _ } | Node::Input { number: _, kind: _ } => Folded::New { node },
        Node::Unary { op, kind, of } => fold_unary(op, kind, of, known(out, of)),
        Node::Binary {
            op,
            kind,
            left,
            right,
        } => fold_binary(op, kind, left, right, known(out, left), known(out, right)),
        Node::Convert { from: _, to: _, of } => Folded::Same { node: of },
        Node::Choose { test, yes, no } => fold_choice(test, yes, no, known(out, test)),
    }
}

/// The number of what a node folds to, which is made if it has to be.
fn place(out: &mut NodeList, folded: Folded) -> Result<u32, Memory>
    requires { length out.old < 2 ^ 32 }
    ensures { IfOk result (λ number. IsPlaced out.old out.new folded number) }
{
    match folded {
        Folded::Same { node } => Ok(node),
        Folded::New { node } => {
            let number = out.items().len() as u32;
            out.push(node)?;
            Ok(number)
        }
    }
}

/// One node more: where it went.
fn fold_next(out: &mut NodeList, places: &[u32], node: Node) -> Result<u32, Memory>
    requires nodes { AreNodes out.old }
    requires few { length out.old < 2 ^ 32 }
    requires operands { Operands (length places.now) node }
    requires within { (k : ℕ) → k < length places.now → slice_index places.now k < length out.old }
    ensures { IfOk result (λ number. (inputs : ℕ) (old : List Node) → Went inputs AnyNode old out.old places.now → IsNodeOf inputs (length old) node → Went inputs AnyNode (old ++ node ∷ []) out.new (places.now ++ number ∷ [])) }
{
    let node = rename(places, node);
    let folded = fold_node(out.items(), node);
    place(out, folded)
}

/// Folds nodes from the lowest up.
pub fn fold_up(alloc: Global, nodes: &Nodes) -> Result<Nodes, Memory>
    requires formed { AreWellFormed nodes.now }
    requires few { length nodes.now.list < 2 ^ 32 }
    ensures { IfOk result (λ made. IsFoldOf nodes.now made) }
{
    let mut out = Sequence::new(alloc);
    let mut places = Sequence::new(alloc);
    let list = nodes.list.items();
    for i in 0..list.len() {
        let number = fold_next(&mut out, places.items(), list[i])?;
        places.push(number)?;
    }
    let fails = places.items()[nodes.fails as usize];
    Ok(Nodes {
        list: out,
        inputs: nodes.inputs,
        fails,
    })
}
