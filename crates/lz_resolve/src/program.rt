ghost use Rattle.std.specs.Prelude.{◌≡◌, IfOk};
ghost use Rattle.lz_tree.specs.Trees.{translation_unit};
ghost use Rattle.lz_tree.specs.ScopedTrees.{scoped_program};
ghost use Rattle.lz_scopes.specs.Files as files;
ghost use Rattle.lz_resolve.specs.ScopedPrograms as spec;

use crate::cells::cells_of;
use crate::functions::resolve_externals;
use lz_base::Memory;
use lz_scopes::{WholeFile, opening};
use lz_tree::{Program, Scoped};
use std::alloc::Global;

/// The number of the first function that is called `main`, or 0 where there is none.
fn main_number(file: &WholeFile) -> u32
    ensures { result ≡ spec.or_zero (files.main_from file.now 0 file.now.functions) }
{
    match file.main_function() {
        None => 0,
        Some(function) => function,
    }
}

/// The program in which each name but a label's is replaced by what it means, with the first words of its cells
/// (C99 6.2.1, 6.7.8 and 6.9). It comes of every tree: a name that means nothing stands as `abort`. The file is
/// that of the tree, in which no rule is considered that takes the whole of it. The work is the size of the tree
/// times its height at most. The error is want of memory.
#[tactic(auto, unfolding(crate::specs::ScopedPrograms::scoped_of, lz_scopes::specs::Files::file_with))]
pub fn resolve(alloc: Global, file: &WholeFile, unit: &Program) -> Result<Scoped, Memory>
    requires { file.now ≡ files.bare (translation_unit unit.now) }
    ensures { IfOk result (λ s. scoped_program s ≡ spec.scoped_of (translation_unit unit.now)) }
{
    let externals = unit.externals.items();
    let mut place = opening(alloc);
    let functions = resolve_externals(alloc, file, &mut place, externals)?;
    let cells = cells_of(alloc, externals)?;
    Ok(Scoped {
        cells,
        mutexes: place.counts.mutexes,
        conds: place.counts.conds,
        handles: place.counts.handles,
        functions,
        main: main_number(file),
    })
}
