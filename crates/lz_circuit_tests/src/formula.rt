//! The formula of nodes, by lz_blast.

ghost use Rattle.std.specs.Prelude.{◌≤◌, IfOk};
ghost use Rattle.lz_base.specs.Limits.{cost_limit};
ghost use Rattle.lz_ssa.specs.NodeValues.{AreWellFormed};
ghost use Rattle.lz_ssa.specs.NodeWeight.{nodes_weight};

use lz_base::{Binary, IntType, Memory};
use lz_blast::{Blasted, blast};
use lz_cnf::Assignment;
use lz_ssa::{Node, NodeList, Nodes};
use std::alloc::Global;
use std::test::Fail;

/// Nodes that fail where input 0 is 5, with an input 1 that no node reads.
fn equal_to_five(alloc: Global) -> Result<Nodes, Memory>
    ensures formed { IfOk result AreWellFormed }
    ensures light { IfOk result (λ nodes. nodes_weight nodes.list ≤ cost_limit) }
{
    let mut list = NodeList::new(alloc);
    list.push(Node::Constant { value: 5 })?;
    list.push(Node::Input {
        number: 0,
        kind: IntType::Unsigned,
    })?;
    list.push(Node::Binary {
        op: Binary::Eq,
        kind: IntType::Unsigned,
        left: 1,
        right: 0,
    })?;
    Ok(Nodes {
        list,
        inputs: 2,
        fails: 2,
    })
}

/// The formula of these nodes.
fn formula_of_five(alloc: Global) -> Result<Blasted, Memory> {
    let nodes = equal_to_five(alloc)?;
    blast(alloc, &nodes)
}

/// Variable 0 is true, the next 32 are the bits of the input, and the last says whether it differs from 5.
fn values_of(alloc: Global, input: u32, differs: bool) -> Result<Assignment, Memory> {
    let mut values = Assignment::new(alloc);
    values.push(true)?;
    for place in 0..32_u32 {
        values.push(input >> place & 1 == 1)?;
    }
    values.push(differs)?;
    Ok(values)
}

/// The models are the inputs on which the nodes fail.
#[test]
fn five_alone_is_a_model(rt: HostRuntime) -> Result<(), Fail> {
    let blasted = formula_of_five(rt.alloc()).ok().ok_or("memory")?;
    assert_eq!(rt; blasted.formula.variables, 34, "variables");
    let bits = blasted.inputs.items();
    assert_eq!(rt; bits.len(), 2, "inputs");
    assert_eq!(rt;
        [bits[0].items().len(), bits[1].items().len()],
        [32, 0],
        "bits of an input that is read, and of one that is not"
    );
    let table = [
        (5, false, true, "the input that fails"),
        (5, true, false, "5 does not differ from itself"),
        (6, true, false, "6 differs"),
        (6, false, false, "and no value hides that"),
    ];
    for (input, differs, want, reason) in table {
        let values = values_of(rt.alloc(), input, differs).ok().ok_or("memory")?;
        assert_eq!(rt; values.items().len(), 34, "{reason}");
        assert_eq!(rt; blasted.formula.satisfied_by(&values), want, "{reason}");
    }
    Ok(())
}
