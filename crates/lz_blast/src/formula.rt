//! The formula of nodes.
ghost use Rattle.std.specs.Prelude.{◌≡◌, ◌*◌, ◌<◌, ◌≤◌, ℕ, IfOk, length};
ghost use Rattle.std.specs.List.{All};
ghost use Rattle.lz_base.specs.Limits.{cost_limit};
ghost use Rattle.lz_cnf.specs.Models.{IsFormula};
ghost use Rattle.lz_ssa.specs.NodeValues.{AreWellFormed};
ghost use Rattle.lz_ssa.specs.NodeWeight.{nodes_weight};
ghost use Rattle.lz_blast.specs.Counts.{clauses_per_weight};
ghost use Rattle.lz_blast.specs.Formulas.{Decides};

use crate::input::{BitsList, listed, unread};
use crate::node::add_node;
use lz_arith::truth_bit;
use lz_base::Memory;
use lz_cnf::Cnf;
use lz_gates::Builder;
use lz_ssa::Nodes;
use std::alloc::Global;

/// A formula, and for each input its literals, from the lowest bit; none where no node reads it.
#[derive(Debug, Drop)]
pub struct Blasted {
    pub formula: Cnf,
    pub inputs: BitsList,
}

/// The formula whose models are exactly the inputs on which the node `fails` is not 0.
pub fn blast(alloc: Global, nodes: &Nodes) -> Result<Blasted, Memory>
    requires formed { AreWellFormed nodes.now }
    requires light { nodes_weight nodes.now.list ≤ cost_limit }

    ensures decides { IfOk result (λ b. Decides nodes.now b.formula b.inputs) }
    ensures formula { IfOk result (λ b. IsFormula b.formula) }
    ensures filled { IfOk result (λ b. All (λ clause. 0 < length clause) b.formula.clauses) }
    ensures inputs { IfOk result (λ b. length b.inputs ≡ nodes.now.inputs) }

    ensures variables { IfOk result (λ b. b.formula.variables ≤ nodes_weight nodes.now.list) }
    ensures clauses { IfOk result (λ b. length b.formula.clauses ≤ clauses_per_weight * nodes_weight nodes.now.list) }
{
    let mut builder = Builder::new(alloc)?;
    let mut words = BitsList::new(alloc);
    let mut inputs = unread(alloc, nodes.inputs)?;
    let list = nodes.list.items();
    for i in 0..list.len() {
        add_node(alloc, &mut builder, &mut words, &mut inputs, list[i])?;
    }
    let test = truth_bit(alloc, &mut builder, &words.items()[nodes.fails as usize])?;
    builder.require(&[test])?;
    let inputs = listed(alloc, inputs)?;
    Ok(Blasted {
        formula: builder.finish(),
        inputs,
    })
}
