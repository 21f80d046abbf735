ghost use Rattle.std.specs.Prelude.{◌≡◌, ℕ, List};
ghost use Rattle.std.specs.List.{AllByRecursion};
ghost use Rattle.lz_model.specs.declared.schedule.Step.{Step};
ghost use Rattle.lz_tree.specs.ScopedTrees.{ScopedProgram};
ghost use Rattle.lz_model.specs.ScheduleText.{printed, IsStep, IsScheduleText};
ghost use Rattle.lz_replay.specs.declared.answer.Replayed.{Replayed};
ghost use Rattle.lz_replay.specs.Replays.{Says};

/// The text that is printed for a schedule is read as that schedule.
pub fn printed_is_read()
    ensures { (schedule : List Step) → AllByRecursion IsStep schedule → IsScheduleText (printed schedule) schedule }
{}

/// A text is one schedule at most.
pub fn one_schedule()
    ensures { (text : List ℕ) (a b : List Step) → IsScheduleText text a → IsScheduleText text b → a ≡ b }
{}

/// One answer is right on a replay.
pub fn one_answer()
    ensures { (p : ScopedProgram) (n : ℕ) (schedule : List Step) (one other : Replayed) → Says p n schedule one → Says p n schedule other → one ≡ other }
{}
