ghost use Rattle.std.specs.Prelude.{ℕ, ◌≡◌, ◌≤◌, ◌<◌, ◌^◌, List, length, map, slice_index, OnOk, IfOk};
ghost use Rattle.std.specs.List.{AllByRecursion};
ghost use Rattle.lz_base.specs.Limits.{cost_limit};
ghost use Rattle.lz_flat.specs.Programs.{statement, straight_program};
ghost use Rattle.lz_flat.specs.WellFormed.{IsStatementOf, IsWellFormed};
ghost use Rattle.lz_flat.specs.Weight.{straight_weight};
ghost use Rattle.lz_ssa.specs.Construction as spec;
ghost use Rattle.lz_ssa.specs.Drafts.{progress};
ghost use Rattle.lz_ssa.specs.NodeValues.{AreWellFormed};
ghost use Rattle.lz_ssa.specs.NodeWeight.{nodes_weight};
ghost use Rattle.lz_ssa.specs.Assignment.{FailsAsStraight};

use crate::node::Nodes;
use crate::statement::Building;
use lz_base::Memory;
use lz_flat::{Guarded, Straight};
use std::alloc::Global;

/// Adds the statements of a program, one after the other.
fn add_statements(alloc: Global, building: &mut Building, list: &[Guarded]) -> Result<(), Memory>
    requires formed { AllByRecursion (IsStatementOf (length building.old.draft.words.items)) (map statement list.now) }
    requires short { length building.old.draft.words.items < 2 ^ 32 }
    requires count { length list.now < 2 ^ 32 }
    ensures { OnOk result (progress building.new ≡ spec.statements_made 0 (map statement list.now) (progress building.old)) }
{
    for i in 0..list.len() {
        building.statement(alloc, i as u32, &list[i])?;
    }
    Ok(())
}

/// The nodes of a straight program: static single assignment.
pub fn nodes(alloc: Global, straight: &Straight) -> Result<Nodes, Memory>
    requires formed { IsWellFormed (straight_program straight.now) }
    requires words { length straight.now.first < 2 ^ 32 }
    requires light { straight_weight (straight_program straight.now) ≤ cost_limit }

    ensures fails { IfOk result (FailsAsStraight (straight_program straight.now)) }
    ensures inputs { IfOk result (λ made. made.inputs ≡ length straight.now.list) }

    ensures formed { IfOk result AreWellFormed }
    ensures weight { 1 ≤ length straight.now.list → IfOk result (λ made. nodes_weight made.list ≤ straight_weight (straight_program straight.now)) }
{
    let mut building = Building::new(alloc, straight.first.items())?;
    let list = straight.list.items();
    add_statements(alloc, &mut building, list)?;
    let Building {
        draft,
        alive: _,
        failed,
    } = building;
    Ok(Nodes {
        list: draft.list,
        inputs: list.len() as u32,
        fails: failed,
    })
}
