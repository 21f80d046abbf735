ghost use Rattle.std.specs.Prelude.{◌≡◌, ◌<◌, ◌≤◌, ◌^◌, ℕ, length, IfOk};
ghost use Rattle.lz_ssa.specs.NodeValues.{AreWellFormed};
ghost use Rattle.lz_fold.specs.Folding.{OperandsAre, Operands, AreNodes, IsNeeded, IsClosedFrom, NeedsMore, needs, kept, IsFoldOf};

use crate::up::rename;
use lz_base::{Memory, Sequence};
use lz_ssa::{Node, NodeList, Nodes};
use std::alloc::Global;

/// So many flags, none of which is set.
fn no_flags(alloc: Global, count: usize) -> Result<Vec<bool>, Memory>
    ensures { IfOk result (λ flags. length flags.items ≡ count) }
{
    let mut flags = Vec::new(alloc);
    for _ in 0..count {
        flags.push(false)?;
    }
    Ok(flags)
}

/// Sets the flags of the operands of a node.
fn need(flags: &mut Vec<bool>, node: Node)
    requires { Operands (length flags.old.items) node }
    ensures flags { flags.new.items ≡ needs node flags.old.items }
    ensures count { length flags.new.items ≡ length flags.old.items }
{
    match node {
        Node::Constant { value: _ } | Node::Input { number: _, kind: _ } => {}
        Node::Unary { op: _, kind: _, of } => flags[of as usize] = true,
        Node::Binary {
            op: _,
            kind: _,
            left,
            right,
        } => {
            flags[left as usize] = true;
            flags[right as usize] = true;
        }
        Node::Convert { from: _, to: _, of } => flags[of as usize] = true,
        Node::Choose { test, yes, no } => {
            flags[test as usize] = true;
            flags[yes as usize] = true;
            flags[no as usize] = true;
        }
    }
}

/// Sets the flags of the operands of a node, if its own is set.
fn need_at(flags: &mut Vec<bool>, at: usize, node: Node)
    requires at { at < length flags.old.items }
    requires operands { Operands at node }
    ensures count { length flags.new.items ≡ length flags.old.items }
    ensures more { NeedsMore flags.old.items flags.new.items }
    ensures above { (k : ℕ) → at ≤ k → IsNeeded flags.new.items k → IsNeeded flags.old.items k }
    ensures here { IsNeeded flags.new.items at → OperandsAre (IsNeeded flags.new.items) node }
{
    if !flags[at] {
        return;
    }
    need(flags, node);
}

/// From the last node down: flags each node on which a flagged one rests.
fn flag_cone(list: &[Node], flags: &mut Vec<bool>)
    requires nodes { AreNodes list.now }
    requires count { length flags.old.items ≡ length list.now }
    ensures count { length flags.new.items ≡ length list.now }
    ensures more { NeedsMore flags.old.items flags.new.items }
    ensures closed { IsClosedFrom 0 list.now flags.new.items }
{
    let size = list.len();
    for left in 0..size {
        let at = size - 1 - left;
        need_at(flags, at, list[at]);
    }
}

/// The flags of the nodes on which node `fails` rests.
fn cone(alloc: Global, list: &[Node], fails: u32) -> Result<Vec<bool>, Memory>
    requires nodes { AreNodes list.now }
    requires fails { fails < length list.now }
    ensures count { IfOk result (λ flags. length flags.items ≡ length list.now) }
    ensures fails { IfOk result (λ flags. IsNeeded flags.items fails) }
    ensures closed { IfOk result (λ flags. IsClosedFrom 0 list.now flags.items) }
{
    let mut flags = no_flags(alloc, list.len())?;
    flags[fails as usize] = true;
    flag_cone(list, &mut flags);
    Ok(flags)
}

/// One node more, if it is needed: its number, or the one that it would have.
fn keep_next(out: &mut NodeList, places: &[u32], node: Node, needed: bool) -> Result<u32, Memory>
    requires few { length out.old < 2 ^ 32 }
    requires operands { Operands (length places.now) node }
    ensures kept { IfOk result (λ number. out.new ≡ kept needed places.now node out.old) }
    ensures number { IfOk result (λ number. number ≡ length out.old) }
{
    let number = out.items().len() as u32;
    if !needed {
        return Ok(number);
    }
    out.push(rename(places, node))?;
    Ok(number)
}

/// The nodes that are flagged, with all inputs' numbers.
fn keep(alloc: Global, nodes: &Nodes, flags: &[bool]) -> Result<Nodes, Memory>
    requires formed { AreWellFormed nodes.now }
    requires few { length nodes.now.list < 2 ^ 32 }
    requires count { length flags.now ≡ length nodes.now.list }
    requires fails { IsNeeded flags.now nodes.now.fails }
    requires closed { IsClosedFrom 0 nodes.now.list flags.now }
    ensures { IfOk result (λ made. IsFoldOf nodes.now made) }
{
    let mut out = Sequence::new(alloc);
    let mut places = Sequence::new(alloc);
    let list = nodes.list.items();
    for i in 0..list.len() {
        let number = keep_next(&mut out, places.items(), list[i], flags[i])?;
        places.push(number)?;
    }
    let fails = places.items()[nodes.fails as usize];
    Ok(Nodes {
        list: out,
        inputs: nodes.inputs,
        fails,
    })
}

/// The nodes on which node `fails` rests, with all inputs' numbers. The work is linear in the nodes.
pub fn keep_cone(alloc: Global, nodes: &Nodes) -> Result<Nodes, Memory>
    requires formed { AreWellFormed nodes.now }
    requires few { length nodes.now.list < 2 ^ 32 }
    ensures { IfOk result (λ made. IsFoldOf nodes.now made) }
{
    let flags = cone(alloc, nodes.list.items(), nodes.fails)?;
    keep(alloc, nodes, &flags)
}
