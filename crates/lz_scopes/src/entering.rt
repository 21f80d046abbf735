ghost use Rattle.std.specs.Prelude.{◌≡◌, ◌<◌, ◌≤◌, length, IfOk, OnOk};
ghost use Rattle.lz_scopes.specs.Scopes as spec;
ghost use Rattle.lz_scopes.specs.Views.{outer_of, left_function, left_prototype};

use crate::declaring::{declare, sum_of};
use crate::place::{Counts, Place};
use crate::value_types::value_type;
use lz_base::Memory;
use lz_tree::{Param, TypeName};

/// What stood around a function before it: how many objects were declared, the type of the result, whether it was
/// in a loop, and what was counted.
#[derive(Clone, Copy, Debug, PartialEq, Eq)]
pub struct Outer {
    pub mark: usize,
    pub gives: TypeName,
    pub in_loop: bool,
    pub counts: Counts,
}

/// Declares a parameter, which is an object only where it has a name.
pub fn declare_param(place: &mut Place, p: &Param) -> Result<(), Memory>
    ensures { OnOk result (place.new ≡ spec.with_param place.old p.now.base p.now.name) }
{
    match p.name {
        None => Ok(()),
        Some(name) => declare(place, name, value_type(p.base), false, 1),
    }
}

/// Declares a function of the name, and goes into it. What stood around it is for its end.
pub fn enter(place: &mut Place, name: u32, gives: TypeName) -> Result<Outer, Memory>
    ensures outer { IfOk result (λ outer. outer ≡ outer_of place.old) }
    ensures place { OnOk result (place.new ≡ spec.into (spec.with_function place.old name) gives) }
{
    let outer = Outer {
        mark: place.names.len(),
        gives: place.gives,
        in_loop: place.in_loop,
        counts: place.counts,
    };
    let depth = sum_of(place.depth, 1)?;
    place.functions.declare(name)?;
    place.depth = depth;
    place.gives = gives;
    place.counts.locals = 0;
    Ok(outer)
}

/// Goes behind a function with a body.
pub fn leave_function(place: &mut Place, outer: Outer) -> Result<(), Memory>
    requires mark { outer.mark ≤ length place.old.names }
    requires depth { 0 < place.old.depth }
    ensures { OnOk result (place.new ≡ left_function outer place.old) }
{
    let function = sum_of(place.function, 1)?;
    place.names.close(outer.mark);
    place.depth -= 1;
    place.gives = outer.gives;
    place.in_loop = outer.in_loop;
    place.function = function;
    Ok(())
}

/// Goes behind a prototype.
pub fn leave_prototype(place: &mut Place, outer: Outer)
    requires mark { outer.mark ≤ length place.old.names }
    requires depth { 0 < place.old.depth }
    ensures { place.new ≡ left_prototype outer place.old }
{
    place.names.close(outer.mark);
    place.depth -= 1;
    place.gives = outer.gives;
    place.in_loop = outer.in_loop;
    place.counts = outer.counts;
}
