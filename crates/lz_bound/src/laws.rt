ghost use Rattle.std.specs.Prelude.{ℕ, Bool, List, ◌++◌};
ghost use Rattle.lz_tree.specs.ScopedTrees.{ScopedProgram};
ghost use Rattle.lz_model.specs.declared.actions.Event.{Event};
ghost use Rattle.lz_model.specs.Actions.{Act};
ghost use Rattle.lz_model.specs.Interleavings.{IsRun};
ghost use Rattle.lz_bound.specs.BoundedTrees.{BoundedStatement, BoundedProgram, SlottedProgram};
ghost use Rattle.lz_bound.specs.BoundedTraces.{IsBoundedTrace};
ghost use Rattle.lz_bound.specs.SlottedPrograms.{bounded_process, slotted_process};

/// A front of a trace of a tree is a trace of it: a thread may stop at any time.
pub fn front_of_a_tree()
    ensures { (tree : BoundedStatement) (arguments : List ℕ) (whole : Bool) (acts more : List Act) → IsBoundedTrace tree arguments whole (acts ++ more) → IsBoundedTrace tree arguments whole acts }
{}

/// A front of a run of a bounded or slotted program is a run of it.
pub fn front_of_a_run()
    ensures bounded { (p : ScopedProgram) (b : BoundedProgram) (front rest : List Event) → IsRun (bounded_process p b) (front ++ rest) → IsRun (bounded_process p b) front }
    ensures slotted { (p : ScopedProgram) (s : SlottedProgram) (front rest : List Event) → IsRun (slotted_process p s) (front ++ rest) → IsRun (slotted_process p s) front }
{}
