//! Laws on the rules that a program breaks.

ghost use Rattle.std.specs.Prelude.{◌≡◌, [], List};
ghost use Rattle.lz_tree.specs.Trees.{TranslationUnit};
ghost use Rattle.lz_scopes.specs.declared.fault.Fault.{Fault};
ghost use Rattle.lz_resolve.specs.ScopedPrograms.{scoped_of};
ghost use Rattle.lz_calls.specs.Facts.{IsRecursionFree};
ghost use Rattle.lz_types.specs.Checking.{AreFaults};

/// There is one list of the rules that a program breaks.
pub fn one_list_of_faults()
    ensures { (unit : TranslationUnit) (a b : List Fault) → AreFaults unit a → AreFaults unit b → a ≡ b }
{}

/// Each call of a program that breaks no rule leads to a function of the file, and none comes back to its caller.
pub fn no_function_recurs()
    ensures { (unit : TranslationUnit) → AreFaults unit [] → IsRecursionFree (scoped_of unit).functions }
{}
