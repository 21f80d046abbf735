//! Which endings are lawful where the folder tells the named file and no read of it failed, where the told files lack
//! it, and where the words have no reading or ask for what is not built.

ghost use Rattle.std.specs.Prelude.{◌≡◌, ℕ, ◌<◌, ◌≤◌, ◌^◌, List, length, Some, None};
ghost use Rattle.lz_base.specs.declared.word.BreakKind.{BreakKind};
ghost use Rattle.lz_outside.specs.Files.{Lacks};
ghost use Rattle.lz_tree.specs.declared.token.Tokens.{Tokens};
ghost use Rattle.lz_tree.specs.Tokens.{HasTokens};
ghost use Rattle.lz_tree.specs.Trees.{TranslationUnit};
ghost use Rattle.lz_parse.specs.Programs.{IsProgram, IsRefusedAt};
ghost use Rattle.lz_model.specs.declared.schedule.Step.{Step};
ghost use Rattle.lz_model.specs.ScheduleText.{IsScheduleText, IsNoSchedule};
ghost use Rattle.lz_resolve.specs.ScopedPrograms.{scoped_of};
ghost use Rattle.lz_choices.specs.Choices.{first_choice};
ghost use Rattle.lz_replay.specs.declared.answer.Replayed.{Replayed};
ghost use Rattle.lz_replay.specs.Replays.{Says};
ghost use Rattle.lz_cli.specs.declared.ending.Ending.{Ending};
ghost use Rattle.lz_words.specs.CommandLine.{HasNoReading};
ghost use Rattle.lz_cli.specs.CommandLine.{IsUnbuilt, IsFileName, IsProofName, IsSourceName};
ghost use Rattle.lz_base.specs.Limits.{file_limit};
ghost use Rattle.lz_cli.specs.Source.{HasNoTokens};
ghost use Rattle.lz_cli.specs.Limits.{Bounds, defaults, checking, replaying, schedule_limit};
ghost use Rattle.lz_cli.specs.Admission.{IsFaulty, HasManySlots, HasHighCost, IsAdmitted};
ghost use Rattle.lz_cli.specs.Ending.{Call, IsLawful};
ghost use Rattle.lz_cli.specs.Report.{report};
ghost use Rattle.lz_cli.specs.Recheck.{proof_limit};
ghost use Rattle.lz_cli.specs.Exactness.{IsToldFile, IsToldCheck, IsToldRun, IsToldSource, IsToldReplay, IsToldProof, IsAnswer, IsDecided, IsDecidedWithin, IsRefusal, IsEither, IsRunAnswer};

use lz_choices::only_main_steps;
use lz_model::broken_in_its_rounds;
use lz_parse::one_program;
use lz_replay::{one_answer, one_schedule};

/// What a lawful ending is, in every call where the folder tells the named file and no read failed, and where
/// the words have no reading, ask for what is not built, or name a file that the told files lack.
pub fn endings_are_exact()
    // A file whose program breaks no rule, is within the limits and has no choice is decided.
    ensures decided { (call : Call) (content : List ℕ) (ending : Ending) → IsToldFile call content
        → length content ≤ file_limit → (admitted : IsAdmitted defaults content) → first_choice (scoped_of admitted.tree) ≡ None
        → IsLawful call ending → IsDecided (scoped_of admitted.tree) ending }
    // A file whose program breaks no rule, is within the limits and has its first choice on this line is not built, and this line is told.
    ensures not_built { (call : Call) (content : List ℕ) (line : ℕ) (ending : Ending) → IsToldFile call content
        → length content ≤ file_limit → (admitted : IsAdmitted defaults content) → first_choice (scoped_of admitted.tree) ≡ Some line
        → IsLawful call ending → IsEither (Ending.NotBuilt line) ending }
    // Of a file whose program breaks a rule, the first one is told,
    ensures faulty { (call : Call) (content : List ℕ) (line rule : ℕ) (ending : Ending) → IsToldFile call content
        → length content ≤ file_limit → IsFaulty content line rule → IsLawful call ending
        → IsEither (Ending.Faulty line rule) ending }
    // of one that breaks none and has too many slots, how many,
    ensures many_slots { (call : Call) (content : List ℕ) (slots : ℕ) (ending : Ending) → IsToldFile call content
        → length content ≤ file_limit → HasManySlots defaults content slots → IsLawful call ending
        → IsEither (Ending.ManySlots slots) ending }
    // and of one that costs too much, how much.
    ensures high_cost { (call : Call) (content : List ℕ) (cost : ℕ) (ending : Ending) → IsToldFile call content
        → length content ≤ file_limit → HasHighCost defaults content cost → IsLawful call ending
        → IsEither (Ending.HighCost cost) ending }
    // Of a file without a cut, within the limit, the place is told where the longest cut ends.
    ensures not_a_token { (call : Call) (content : List ℕ) (line place : ℕ) (ending : Ending) → IsToldFile call content
        → length content ≤ file_limit → HasNoTokens content line place → IsLawful call ending
        → IsEither (Ending.NotAToken line place) ending }
    // Of a file whose tokens no well-formed tree spells, within the limit, a first token is told with which none goes on,
    ensures not_a_program { (call : Call) (content : List ℕ) (tokens : Tokens) (ending : Ending) → IsToldFile call content
        → length content ≤ file_limit → HasTokens content tokens → ((u : TranslationUnit) → IsProgram tokens u → ⊥)
        → IsLawful call ending → IsRefusal tokens ending }
    // and there is one such token.
    ensures one_token { (tokens : Tokens) (a k b l : ℕ) → IsRefusedAt tokens a k → IsRefusedAt tokens b l
        → (k ≡ l) × (a ≡ b) }
    // A longer file is too long.
    ensures too_long { (call : Call) (content : List ℕ) (ending : Ending) → IsToldFile call content
        → file_limit < length content → IsLawful call ending → IsEither Ending.FileTooLong ending }
    // A proof file within the limit is rechecked, and the answer is right.
    ensures rechecked { (call : Call) (content : List ℕ) (ending : Ending) → IsToldProof call content
        → length content ≤ proof_limit → IsLawful call ending → IsAnswer content ending }
    // A longer proof file is too long.
    ensures proof_too_long { (call : Call) (content : List ℕ) (ending : Ending) → IsToldProof call content
        → proof_limit < length content → IsLawful call ending → IsEither Ending.ProofTooLong ending }
    // A file that the told files lack can't be read.
    ensures missing { (call : Call) (name : List ℕ) (ending : Ending) → IsFileName call.words name
        → Lacks call.files name → IsLawful call ending → IsEither (Ending.ReadFault name) ending }
    // So it is of a proof file.
    ensures missing_proof { (call : Call) (name : List ℕ) (ending : Ending) → IsProofName call.words name
        → Lacks call.files name → IsLawful call ending → IsEither (Ending.ReadFault name) ending }
    // Words without a reading are told how the command is called,
    ensures usage { (call : Call) (ending : Ending) → HasNoReading call.words
        → IsLawful call ending → IsEither Ending.Usage ending }
    // and what is not built of those with one is told.
    ensures unbuilt { (call : Call) (ending : Ending) → IsUnbuilt call.words
        → IsLawful call ending → IsEither (Ending.NotBuilt 0) ending }
    // Of a file whose program is decided with another number of turns the same is true within it: one without a choice is decided,
    ensures decided_within { (call : Call) (turns : ℕ) (content : List ℕ) (ending : Ending) → IsToldCheck call turns content
        → length content ≤ file_limit → (admitted : IsAdmitted (checking turns) content) → first_choice (scoped_of admitted.tree) ≡ None
        → IsLawful call ending → IsDecidedWithin (checking turns) (scoped_of admitted.tree) ending }
    // and one that has its first choice on this line is not built.
    ensures not_built_within { (call : Call) (turns : ℕ) (content : List ℕ) (line : ℕ) (ending : Ending) → IsToldCheck call turns content
        → length content ≤ file_limit → (admitted : IsAdmitted (checking turns) content) → first_choice (scoped_of admitted.tree) ≡ Some line
        → IsLawful call ending → IsEither (Ending.NotBuilt line) ending }
    // The report of a failure is, read as a schedule text, its schedule;
    ensures report_is_schedule { (call : Call) (kind : BreakKind) (line : ℕ) (schedule : List Step)
        → IsLawful call (Ending.Failed kind line schedule) → IsScheduleText (report (Ending.Failed kind line schedule)) schedule }
    // so the file, run by its own report with as many turns, breaks the same check.
    ensures failure_replayed { (call again : Call) (turns : ℕ) (content : List ℕ) (kind : BreakKind) (line : ℕ) (schedule : List Step) (ending : Ending)
        → IsToldCheck call turns content → length content ≤ file_limit → IsLawful call (Ending.Failed kind line schedule)
        → IsToldReplay again turns content (report (Ending.Failed kind line schedule))
        → length (report (Ending.Failed kind line schedule)) ≤ schedule_limit → IsLawful again ending
        → IsEither (Ending.Replay (Replayed.Broke kind line (length schedule))) ending }
    // Of any source file, whose program is decided or run, it is told as above that a rule is broken,
    ensures source_faulty { (call : Call) (bounds : Bounds) (content : List ℕ) (line rule : ℕ) (ending : Ending)
        → IsToldSource call bounds content → length content ≤ file_limit → IsFaulty content line rule → IsLawful call ending
        → IsEither (Ending.Faulty line rule) ending }
    // that there are too many slots,
    ensures source_many_slots { (call : Call) (bounds : Bounds) (content : List ℕ) (slots : ℕ) (ending : Ending)
        → IsToldSource call bounds content → length content ≤ file_limit → HasManySlots bounds content slots → IsLawful call ending
        → IsEither (Ending.ManySlots slots) ending }
    // that the cost is too high,
    ensures source_high_cost { (call : Call) (bounds : Bounds) (content : List ℕ) (cost : ℕ) (ending : Ending)
        → IsToldSource call bounds content → length content ≤ file_limit → HasHighCost bounds content cost → IsLawful call ending
        → IsEither (Ending.HighCost cost) ending }
    // that there is no cut,
    ensures source_not_a_token { (call : Call) (bounds : Bounds) (content : List ℕ) (line place : ℕ) (ending : Ending)
        → IsToldSource call bounds content → length content ≤ file_limit → HasNoTokens content line place → IsLawful call ending
        → IsEither (Ending.NotAToken line place) ending }
    // that no tree spells the tokens,
    ensures source_not_a_program { (call : Call) (bounds : Bounds) (content : List ℕ) (tokens : Tokens) (ending : Ending)
        → IsToldSource call bounds content → length content ≤ file_limit → HasTokens content tokens
        → ((u : TranslationUnit) → IsProgram tokens u → ⊥) → IsLawful call ending → IsRefusal tokens ending }
    // that it is too long,
    ensures source_too_long { (call : Call) (bounds : Bounds) (content : List ℕ) (ending : Ending) → IsToldSource call bounds content
        → file_limit < length content → IsLawful call ending → IsEither Ending.FileTooLong ending }
    // and that the told files lack it.
    ensures source_missing { (call : Call) (name : List ℕ) (ending : Ending) → IsSourceName call.words name
        → Lacks call.files name → IsLawful call ending → IsEither (Ending.ReadFault name) ending }
    // A program that breaks no rule and is within the limits is run by a schedule that is told, and the answer is right;
    ensures run_answered { (call : Call) (turns : ℕ) (content text : List ℕ) (ending : Ending) → IsToldReplay call turns content text
        → length content ≤ file_limit → length text ≤ schedule_limit → (admitted : IsAdmitted (replaying turns) content)
        → IsLawful call ending → IsRunAnswer (scoped_of admitted.tree) turns text ending }
    // it is one: of a schedule with a reading the one right answer,
    ensures replayed { (call : Call) (turns : ℕ) (content text : List ℕ) (steps : List Step) (answer : Replayed) (ending : Ending)
        → IsToldReplay call turns content text → length content ≤ file_limit → length text ≤ schedule_limit
        → (admitted : IsAdmitted (replaying turns) content) → IsScheduleText text steps
        → Says (scoped_of admitted.tree) turns steps answer → IsLawful call ending → IsEither (Ending.Replay answer) ending }
    // of a schedule without a reading the first line that has none,
    ensures bad_schedule { (call : Call) (turns : ℕ) (content text : List ℕ) (line : ℕ) (ending : Ending)
        → IsToldReplay call turns content text → length content ≤ file_limit → length text ≤ schedule_limit
        → IsAdmitted (replaying turns) content → IsNoSchedule text line → IsLawful call ending
        → IsEither (Ending.BadSchedule line) ending }
    // of a longer one that it is too long,
    ensures schedule_too_long { (call : Call) (turns : ℕ) (content text : List ℕ) (ending : Ending) → IsToldReplay call turns content text
        → length content ≤ file_limit → schedule_limit < length text → IsAdmitted (replaying turns) content → IsLawful call ending
        → IsEither Ending.ScheduleTooLong ending }
    // and of one that the told files lack that it can't be read.
    ensures missing_schedule { (call : Call) (turns : ℕ) (schedule content : List ℕ) (ending : Ending)
        → IsToldRun call turns schedule content → length content ≤ file_limit → IsAdmitted (replaying turns) content
        → Lacks call.files schedule → IsLawful call ending → IsEither (Ending.ReadFault schedule) ending }
{
    broken_in_its_rounds();
    only_main_steps();
    one_program();
    one_schedule();
    one_answer();
}
