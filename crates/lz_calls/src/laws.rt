//! What the definition of facts is for.

ghost use Rattle.std.specs.Prelude.{◌≡◌, List};
ghost use Rattle.lz_tree.specs.ScopedTrees.{ScopedDefinition};
ghost use Rattle.lz_scopes.specs.Files.{Facts};
ghost use Rattle.lz_calls.specs.Calls.{AreFacts};

/// Functions have one list of facts at most.
pub fn facts_are_determined()
    ensures { (functions : List ScopedDefinition) (a b : Facts) → AreFacts functions a → AreFacts functions b → a ≡ b }
{}
