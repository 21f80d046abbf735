ghost use Rattle.std.specs.Prelude.{◌≡◌};
ghost use Rattle.lz_scopes.specs.Scopes as spec;

use crate::names::{Functions, Names};
use lz_tree::TypeName;
use std::alloc::Global;

/// How many there are so far: over the whole file of cells, mutexes, conditions and thread objects, in a function
/// of its locals, and at file scope of elements of all kinds together.
#[derive(Clone, Copy, Debug, PartialEq, Eq)]
pub struct Counts {
    pub cells: u32,
    pub mutexes: u32,
    pub conds: u32,
    pub handles: u32,
    pub locals: u32,
    pub elements: u32,
}

/// Where a node of the text stands: the objects that are declared before it, oldest first and without those of
/// scopes that have ended; the names of the functions that are declared before it; how deep its scope is, which
/// is 0 at file scope; the number of its function, at file scope that of the next one, and the type of its
/// result; whether it is in the body of a loop; and what was counted before it.
#[derive(Drop)]
pub struct Place {
    pub names: Names,
    pub functions: Functions,
    pub depth: u32,
    pub function: u32,
    pub gives: TypeName,
    pub in_loop: bool,
    pub counts: Counts,
}

/// The place before the first external declaration of a file.
pub fn opening(alloc: Global) -> Place
    ensures { result ≡ spec.opening }
{
    Place {
        names: Names::new(alloc),
        functions: Functions::new(alloc),
        depth: 0,
        function: 0,
        gives: TypeName::Void,
        in_loop: false,
        counts: Counts {
            cells: 0,
            mutexes: 0,
            conds: 0,
            handles: 0,
            locals: 0,
            elements: 0,
        },
    }
}
