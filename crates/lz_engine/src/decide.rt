//! Decides a flat program: its straight program, the nodes of that, their formula, and a search for a model.

ghost use Rattle.std.specs.Prelude.{◌*◌, ◌<◌, ◌≤◌, ◌^◌, IfOk, length};
ghost use Rattle.lz_base.specs.Limits.{cost_limit};
ghost use Rattle.lz_flat.specs.Programs.{flat_program, straight_program};
ghost use Rattle.lz_flat.specs.WellFormed.{IsWellMarked};
ghost use Rattle.lz_flat.specs.Weight.{flat_weight};
ghost use Rattle.lz_engine.specs.Deciding.{greatest_conflicts, Encodes, IsDecision};

use lz_base::Memory;
use lz_blast::{Blasted, blast};
use lz_cnf::{Assignment, Cnf};
use lz_flat::{Flat, Straight};
use lz_lazy::sequentialize;
use lz_log::Log;
use lz_solve::{Solved, solve};
use lz_ssa::nodes;
use std::alloc::Global;

/// What the search says of a flat program within so many rounds.
#[derive(Debug, Drop)]
pub enum Decision {
    /// It breaks: the inputs that the model tells drive a break.
    Broken {
        blasted: Blasted,
        model: Assignment,
    },
    /// It does not break: the log refutes the formula.
    Unbroken {
        straight: Straight,
        formula: Cnf,
        log: Log,
    },
    /// The conflicts are spent. The log has the new clauses that were learnt.
    Open {
        straight: Straight,
        formula: Cnf,
        log: Log,
    },
}

/// The formula of a flat program, with the straight program that it was made of.
#[derive(Debug, Drop)]
struct Encoded {
    straight: Straight,
    blasted: Blasted,
}

/// The formula that has a model exactly where a run of at most so many rounds breaks. The nodes are given back
/// before it is answered.
fn encode_flat(alloc: Global, flat: &Flat, rounds: u32) -> Result<Encoded, Memory>
    requires marked { IsWellMarked (flat_program flat.now) }
    requires words { length flat.now.first < 2 ^ 32 }
    requires thread { 1 ≤ length flat.now.threads }
    requires rounds { 1 ≤ rounds }
    requires light { rounds * flat_weight (flat_program flat.now) ≤ cost_limit }
    ensures { IfOk result (λ e. Encodes (flat_program flat.now) rounds (straight_program e.straight) e.blasted.formula e.blasted.inputs) }
{
    let straight = sequentialize(alloc, flat, rounds)?;
    let made = nodes(alloc, &straight)?;
    let blasted = blast(alloc, &made)?;
    Ok(Encoded { straight, blasted })
}

/// Decides whether a run of the flat program of at most so many rounds breaks, with at most so many conflicts.
pub fn decide_flat(
    alloc: Global,
    flat: &Flat,
    rounds: u32,
    conflicts: u64,
) -> Result<Decision, Memory>
    requires marked { IsWellMarked (flat_program flat.now) }
    requires words { length flat.now.first < 2 ^ 32 }
    requires thread { 1 ≤ length flat.now.threads }
    requires rounds { 1 ≤ rounds }
    requires light { rounds * flat_weight (flat_program flat.now) ≤ cost_limit }
    requires conflicts { 1 ≤ conflicts }
    requires few { conflicts ≤ greatest_conflicts }
    ensures { IfOk result (IsDecision (flat_program flat.now) rounds conflicts) }
{
    let Encoded { straight, blasted } = encode_flat(alloc, flat, rounds)?;
    match solve(alloc, &blasted.formula, conflicts)? {
        Solved::Sat(model) => Ok(Decision::Broken { blasted, model }),
        Solved::Unsat(log) => Ok(Decision::Unbroken {
            straight,
            formula: blasted.formula,
            log,
        }),
        Solved::Spent(log) => Ok(Decision::Open {
            straight,
            formula: blasted.formula,
            log,
        }),
    }
}
