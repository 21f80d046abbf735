ghost use Rattle.std.specs.Prelude.{◌≡◌, ◌<◌, length, slice_index, All};
ghost use Rattle.lz_flat.specs.WellFormed.{IsWord};
ghost use Rattle.lz_ssa.specs.NodeValues.{node_value, values_of, IsNodeOf, AreWellFormed};

use crate::node::{Node, Nodes};
use lz_base::{Value, binary, convert, unary};

/// The word of a node, on inputs and the words of the nodes before it.
fn word_of(node: Node, inputs: &[Value], words: &[Value]) -> Value
    requires formed { IsNodeOf (length inputs.now) (length words.now) node }
    requires inputs { All IsWord inputs.now }
    requires words { All IsWord words.now }
    ensures value { result ≡ node_value node (slice_index inputs.now) words.now }
    ensures word { IsWord result }
{
    match node {
        Node::Constant { value } => value,
        Node::Input { number, kind: _ } => inputs[number as usize],
        Node::Unary { op, kind, of } => unary(op, words[of as usize], kind),
        Node::Binary {
            op,
            kind,
            left,
            right,
        } => binary(op, words[left as usize], words[right as usize], kind),
        Node::Convert { from, to, of } => convert(words[of as usize], from, to),
        Node::Choose { test, yes, no } => {
            if words[test as usize] == 0 {
                words[no as usize]
            } else {
                words[yes as usize]
            }
        }
    }
}

/// Evaluates the nodes on these inputs: each of the values becomes the word of its node. Takes no memory.
pub fn eval(nodes: &Nodes, inputs: &[Value], values: &mut [Value])
    requires formed { AreWellFormed nodes.now }
    requires inputs { length inputs.now ≡ nodes.now.inputs }
    requires words { All IsWord inputs.now }
    requires values { length values.old ≡ length nodes.now.list }
    ensures { values.new ≡ values_of (slice_index inputs.now) nodes.now.list }
{
    let list = nodes.list.items();
    for i in 0..list.len() {
        values[i] = word_of(list[i], inputs, &values[..i]);
    }
}
