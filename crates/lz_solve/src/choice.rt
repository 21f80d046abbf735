ghost use Rattle.std.specs.Prelude.{◌≡◌, ◌≤◌, length, Some, IsTrue};
ghost use Rattle.lz_prop.specs.Trail.{IsTrail, gone_back};
ghost use Rattle.lz_solve.specs.Search.{IsFree};

use crate::order::Order;
use lz_cnf::Lit;
use lz_prop::Trail;

/// Whether this is a variable, and has no value.
fn is_free(trail: &Trail, variable: u32, variables: u32) -> bool
    requires { variables ≡ trail.now.variables }
    ensures { IsTrue result → IsFree trail.now.set variables (Some variable) }
{
    if variable >= variables {
        return false;
    }
    match trail.value(variable) {
        Some(_) => false,
        None => true,
    }
}

/// The first variable that has no value.
fn first_free(trail: &Trail, variables: u32) -> Option<u32>
    requires { variables ≡ trail.now.variables }
    ensures { IsFree trail.now.set variables result }
{
    for variable in 0..variables {
        match trail.value(variable) {
            Some(_) => {}
            None => return Some(variable),
        }
    }
    None
}

/// A variable that has no value: the one of the greatest score, which the heap finds. None only where all have values.
pub fn choose(order: &mut Order, trail: &Trail, variables: u32) -> Option<u32>
    requires { variables ≡ trail.now.variables }
    ensures { IsFree trail.now.set variables result }
{
    for _ in 0..order.len() {
        if let Some(variable) = order.pop() {
            if is_free(trail, variable, variables) {
                return Some(variable);
            }
        }
    }
    first_free(trail, variables)
}

/// The variables of the literals that became true after so many wait again.
fn release(order: &mut Order, lits: &[Lit], from: usize)
    ensures { order.old.count ≤ order.new.count }
{
    let mut left = lits.len();
    while left > from {
        left -= 1;
        order.release(lits[left]);
    }
}

/// Goes back to a level, and lets the variables above it wait again.
pub fn go_back(order: &mut Order, trail: &mut Trail, level: u32)
    requires level { level ≤ trail.old.level }
    ensures back { trail.new ≡ gone_back trail.old level }
    ensures waiting { order.old.count ≤ order.new.count }
    ensures trail { IsTrail trail.new }
{
    let from = order.end_levels(level, trail.order().len());
    release(order, trail.order(), from);
    trail.back(level);
}

/// Raises the scores of a clause's variables.
fn raise_clause(order: &mut Order, clause: &[Lit])
    ensures { order.new.count ≡ order.old.count }
{
    for lit in clause {
        order.raise(lit.0 / 2);
    }
}

/// Raises the scores of the variables of the clauses that the hints name, from this one on.
pub fn raise_hints(order: &mut Order, trail: &Trail, hints: &[u32], from: usize, count: usize)
    requires { count ≡ length trail.now.clauses }
    ensures { order.new.count ≡ order.old.count }
{
    for at in from..hints.len() {
        let hint = hints[at];
        if hint > 0 && hint as usize <= count {
            raise_clause(order, trail.clause(hint));
        }
    }
}

/// Ends a conflict, and goes back to level 0 where a restart is due. The kept clauses stay.
pub fn end_conflict(order: &mut Order, trail: &mut Trail)
    ensures trail { IsTrail trail.new }
    ensures variables { trail.new.variables ≡ trail.old.variables }
    ensures clauses { trail.new.clauses ≡ trail.old.clauses }
{
    let level = trail.level();
    if order.end_conflict() && level > 0 {
        go_back(order, trail, 0);
    }
}
