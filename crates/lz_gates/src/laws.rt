//! What the calls of a builder come to together.

ghost use Rattle.std.specs.Prelude.{◌≡◌, ℕ, ◌+◌, List, [], ◌∷◌, ◌++◌, Bool};
ghost use Rattle.lz_cnf.specs.declared.clause.Lit.{Lit};
ghost use Rattle.lz_cnf.specs.declared.clause.Cnf.{Cnf};
ghost use Rattle.lz_cnf.specs.Models.{IsModel};
ghost use Rattle.lz_gates.specs.Circuits.{Circuit, Assignment, Satisfies, Agree, AreBelow, IsCircuit, Extends, first_clauses};
ghost use Rattle.lz_gates.specs.Freedom.{IsFree};
ghost use Rattle.lz_gates.specs.Values.{assigned, listed};

/// A new builder, a gate, a fresh variable and a required clause each keep that any values of the fresh variables
/// settle the gates.
pub fn fresh_values_settle_gates()
    ensures start { (start : Circuit) → start.variables ≡ 1 → start.clauses ≡ first_clauses → IsFree start [] first_clauses }
    ensures gate { (old new : Circuit) (fresh : List ℕ) (gates : List (List Lit)) (e : Extends old new) → IsFree old fresh gates → IsFree new fresh (gates ++ e.added) }
    ensures fresh { (old new : Circuit) (fresh : List ℕ) (gates : List (List Lit)) → IsFree old fresh gates → new.variables ≡ old.variables + 1 → new.clauses ≡ old.clauses
        → IsFree new (old.variables ∷ fresh) gates }
    ensures required { (old new : Circuit) (fresh : List ℕ) (gates : List (List Lit)) (clause : List Lit) → IsFree old fresh gates → new.variables ≡ old.variables
        → new.clauses ≡ old.clauses ++ clause ∷ [] → IsFree new fresh gates }
{}

/// Each model before a call extends in exactly one way to one after it.
pub fn models_extend_once()
    ensures { (old new : Circuit) → Extends old new → IsCircuit old → (a : Assignment) → Satisfies a old.clauses
        → (b : Assignment) × Agree old.variables a b × Satisfies b new.clauses × ((c : Assignment) → Agree old.variables a c → Satisfies c new.clauses → Agree new.variables b c) }
{}

/// A list of values is a model where its assignment satisfies the clauses, and the other way round.
pub fn models_are_assignments()
    ensures satisfies { (formula : Cnf) (values : List Bool) → IsModel formula values → Satisfies (assigned values) formula.clauses }
    ensures model { (formula : Cnf) (a : Assignment) → AreBelow formula.variables formula.clauses → Satisfies a formula.clauses → IsModel formula (listed formula.variables a) }
{}
