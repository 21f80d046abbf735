ghost use Rattle.std.specs.Prelude.{◌≡◌, ◌≤◌, ℕ, Bool, List, ◌++◌};
ghost use Rattle.lz_base.specs.declared.word.BreakKind.{BreakKind};
ghost use Rattle.lz_tree.specs.ScopedTrees.{ScopedProgram};
ghost use Rattle.lz_model.specs.declared.actions.Event.{Event};
ghost use Rattle.lz_model.specs.declared.schedule.Step.{Step};
ghost use Rattle.lz_model.specs.Actions.{Act};
ghost use Rattle.lz_model.specs.LeftOut.{kept};
ghost use Rattle.lz_model.specs.Rounds.{rounds_of, threads_of};
ghost use Rattle.lz_model.specs.Interleavings.{course, IsRun};
ghost use Rattle.lz_model.specs.BrokenRuns.{IsBrokenRun, rounds_of_run, schedule_of, Follows};
ghost use Rattle.lz_model.specs.WithoutLoc.{events_without_loc, bare};
ghost use Rattle.lz_model.specs.Programs.{IsThreadTrace, process_of};

/// A front of a thread's trace is a trace of it: a thread may stop at any time.
pub fn front_of_a_trace()
    ensures { (p : ScopedProgram) (n function : ℕ) (arguments : List ℕ) (whole : Bool) (acts more : List Act) → IsThreadTrace p n function arguments whole (acts ++ more) → IsThreadTrace p n function arguments whole acts }
{}

/// A front of a run is a run.
pub fn front_of_a_run()
    ensures { (p : ScopedProgram) (n : ℕ) (front rest : List Event) → IsRun (process_of p n) (front ++ rest) → IsRun (process_of p n) front }
{}

/// The schedule of a run has no more rounds than the run: leaving Loc out begins no round.
pub fn rounds_of_a_schedule()
    ensures { (run : List Event) → rounds_of (threads_of (schedule_of run)) ≤ rounds_of_run run }
{}

/// A schedule that a broken run follows is followed by a broken run, with the same break, that has just the rounds of
/// the schedule: each Loc may come just before its thread's next other action.
pub fn broken_in_its_rounds()
    ensures { (p : ScopedProgram) (n : ℕ) (run : List Event) (schedule : List Step) (kind : BreakKind) (line : ℕ) → IsBrokenRun (process_of p n) run kind line → Follows run schedule → (other : List Event) × IsBrokenRun (process_of p n) other kind line × Follows other schedule × (rounds_of_run other ≡ rounds_of (threads_of schedule)) }
{}

/// Leaving elements out never raises the number of rounds.
pub fn leaving_out_begins_no_round()
    ensures { (places : List Bool) (threads : List ℕ) → rounds_of (kept places threads) ≤ rounds_of threads }
{}

/// What breaks with Loc left out breaks with it, and the other way round, with the same schedule and in no more rounds.
pub fn broken_without_loc()
    ensures bare { (p : ScopedProgram) (n : ℕ) (run : List Event) (kind : BreakKind) (line : ℕ) → IsBrokenRun (process_of p n) run kind line → IsBrokenRun (bare (process_of p n)) (events_without_loc run) kind line }
    ensures full { (p : ScopedProgram) (n : ℕ) (run : List Event) (kind : BreakKind) (line : ℕ) → IsBrokenRun (bare (process_of p n)) run kind line → (full : List Event) × IsBrokenRun (process_of p n) full kind line × (events_without_loc full ≡ run) × (rounds_of_run full ≤ rounds_of_run run) }
{}

/// What runs with Loc left out runs with it, and the other way round: to the same end, and in no more rounds.
pub fn runs_without_loc()
    ensures bare { (p : ScopedProgram) (n : ℕ) (run : List Event) → IsRun (process_of p n) run → IsRun (bare (process_of p n)) (events_without_loc run) × (course (events_without_loc run) (process_of p n).begins ≡ course run (process_of p n).begins) }
    ensures full { (p : ScopedProgram) (n : ℕ) (run : List Event) → IsRun (bare (process_of p n)) run → (full : List Event) × IsRun (process_of p n) full × (course full (process_of p n).begins ≡ course run (process_of p n).begins) × (events_without_loc full ≡ run) × (rounds_of_run full ≤ rounds_of_run run) }
{}

/// Two runs that follow one schedule agree, Loc left out: what a read finds and which thread is made the state settles,
/// what is put in and whom a signal wakes the schedule's choices, and all else the code.
pub fn one_run_a_schedule()
    ensures { (p : ScopedProgram) (n : ℕ) (run other : List Event) (schedule : List Step) → IsRun (process_of p n) run → IsRun (process_of p n) other → Follows run schedule → Follows other schedule → events_without_loc run ≡ events_without_loc other }
{}
