//! The law on the programs that break no rule.

ghost use Rattle.std.specs.Prelude.{◌≡◌, ℕ, List, []};
ghost use Rattle.lz_tree.specs.Trees.{TranslationUnit};
ghost use Rattle.lz_tree.specs.WellFormed.{IsWellFormed};
ghost use Rattle.lz_tree.specs.WellScoped.{IsWellScoped};
ghost use Rattle.lz_tree.specs.Calls.{IsCallOrder};
ghost use Rattle.lz_resolve.specs.ScopedPrograms.{scoped_of};
ghost use Rattle.lz_types.specs.Checking.{AreFaults};

/// A program that is well formed and breaks no rule is well scoped, with any order of its calls.
pub fn checked_is_well_scoped()
    ensures { (unit : TranslationUnit) (order : List ℕ) → IsWellFormed unit → AreFaults unit [] → IsCallOrder (scoped_of unit).functions order → IsWellScoped (scoped_of unit) }
{}
