ghost use Rattle.std.specs.Prelude.{◌≡◌, ℕ, List, None, length, replicate};
ghost use Rattle.lz_tree.specs.ScopedTrees.{ScopedProgram};
ghost use Rattle.lz_model.specs.declared.actions.Event.{Event};
ghost use Rattle.lz_model.specs.declared.schedule.Step.{Step};
ghost use Rattle.lz_model.specs.Interleavings.{IsRun};
ghost use Rattle.lz_model.specs.BrokenRuns.{Follows};
ghost use Rattle.lz_model.specs.Programs.{process_of};
ghost use Rattle.lz_choices.specs.Choices.{first_choice};
ghost use Rattle.lz_choices.specs.MainAlone.{main_step};

/// Every step of a run of a program without a choice is one of `main`, with the choice 0: no other thread is made, and
/// nobody waits whom a signal could wake.
pub fn only_main_steps()
    ensures { (p : ScopedProgram) (n : ℕ) (run : List Event) (schedule : List Step) → first_choice p ≡ None → IsRun (process_of p n) run → Follows run schedule → schedule ≡ replicate (length schedule) main_step }
{}
