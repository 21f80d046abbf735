ghost use Rattle.std.specs.Prelude.{ℕ};
ghost use Rattle.lz_tree.specs.ScopedTrees.{ScopedExpression, ScopedProgram};
ghost use Rattle.lz_model.specs.CodeTraces.{Locals};
ghost use Rattle.lz_model.specs.Programs.{calls_within};
ghost use Rattle.lz_turns.specs.Stages.{Stage};
ghost use Rattle.lz_turns.specs.Moves.{turn_of, left_by, arguments_of};
ghost use Rattle.lz_turns.specs.Seen.{Alike};
ghost use Rattle.lz_turns.specs.Resumed.{stage_trace, moved};
ghost use Rattle.lz_tree.specs.Calls.{expression_calls};
ghost use Rattle.lz_turns.specs.Nears.{Falls};
ghost use Rattle.lz_turns.specs.Ranks.{count, rank};

/// What is left of a node at a stage is what its next step leads to, with the local values that the step leaves, Loc
/// left out: at the first stage it is the whole of the expression's traces. Calls may go to any depth.
pub fn a_turn_of_a_node()
    ensures { (p : ScopedProgram) (n depth : ℕ) (e : ScopedExpression) (stage : Stage) (v : ℕ) (locals : Locals) → Alike (stage_trace (calls_within p n depth) e stage v) locals (moved (calls_within p n depth) e (turn_of e stage v locals)) (left_by e stage v locals) }
{}

/// Each step brings a node nearer to its last stage, so the turns of a node end; or it comes to an action, which is told
/// as it is, or to a call of a function that the node names.
pub fn turns_end()
    ensures { (e : ScopedExpression) (stage : Stage) (v : ℕ) (locals : Locals) → Falls (expression_calls e) (count (arguments_of e)) (rank e stage) (turn_of e stage v locals) }
{}
