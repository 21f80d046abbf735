ghost use Rattle.std.specs.Prelude.{◌≤◌, IfOk};
ghost use Rattle.lz_base.specs.Limits.{cost_limit};
ghost use Rattle.lz_ssa.specs.NodeValues.{AreWellFormed};
ghost use Rattle.lz_ssa.specs.NodeWeight.{nodes_weight};
ghost use Rattle.lz_fold.specs.Folding.{IsFoldOf};

use crate::cone::keep_cone;
use crate::up::fold_up;
use lz_base::Memory;
use lz_ssa::Nodes;
use std::alloc::Global;

/// Folds nodes: what is constant is computed, what a node comes to already is not made again, and the nodes alone stay on
/// which `fails` rests. It has the same word on all inputs, which keep their numbers. The work is linear in the nodes.
pub fn fold(alloc: Global, nodes: &Nodes) -> Result<Nodes, Memory>
    requires formed { AreWellFormed nodes.now }
    requires light { nodes_weight nodes.now.list ≤ cost_limit }
    ensures { IfOk result (λ made. IsFoldOf nodes.now made) }
{
    let folded = fold_up(alloc, nodes)?;
    keep_cone(alloc, &folded)
}
