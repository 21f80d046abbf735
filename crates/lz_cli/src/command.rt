//! The top call.

ghost use Rattle.std.specs.Prelude.{◌≡◌, ◌≤◌, ℕ, List, None, false, length, IfOk};
ghost use Rattle.lz_words.specs.declared.asked.Mode.TheVariants as modes;
ghost use Rattle.lz_words.specs.CommandLine.{IsReading};
ghost use Rattle.lz_cli.specs.CommandLine as spec;
ghost use Rattle.lz_cli.specs.CommandLine.{AskForNoFile, IsCheckName, IsProofName, IsReplayName};
ghost use Rattle.lz_cli.specs.Report.{report, status_of};
ghost use Rattle.lz_cli.specs.Printable.{IsPrintable};
ghost use Rattle.lz_base.specs.Limits.{file_limit};
ghost use Rattle.lz_cli.specs.Limits.{Bounds, checking, replaying};
ghost use Rattle.lz_cli.specs.Ending.{Call, call_of, IsRunSource, IsVerdict, IsLawful};
ghost use Rattle.lz_tree.specs.Trees.{TranslationUnit};
ghost use Rattle.lz_tree.specs.ScopedTrees.{scoped_program};
ghost use Rattle.lz_tree.specs.Calls.{IsCallOrder};
ghost use Rattle.lz_choices.specs.Choices as choices;
ghost use Rattle.lz_cli.specs.Admit.{IsRefusedBy, Admits};
ghost use Rattle.lz_cli.specs.Command.{output_of, IsDeliveredOrCutOff, Answers};

use crate::admit::{Refusal, admit};
use crate::command_line::is_plain;
use crate::ending::Ending;
use crate::evidence::Evidence;
use crate::limits::{DEFAULT_ROUNDS, REPLAY_ROUNDS, SCHEDULE_LIMIT};
use crate::recheck::{PROOF_LIMIT, recheck};
use crate::refutation::refutation;
use crate::replaying::follow;
use crate::report::{MEMORY_REPORT, print, status};
use lz_base::{FILE_LIMIT, Memory, Name};
use lz_choices::first_choice;
use lz_fits::program_fits;
use lz_outside::{Failed, Folder, ReadError, Sink, read_all, write_all};
use lz_replay::{Decided, decide};
use lz_tree::Scoped;
use lz_words::{Asked, Mode, Words, WordsError, read_words};
use std::alloc::Global;

/// How a call ended: the status that the program ends with, and what shows that the verdict is right.
#[derive(Debug, Drop)]
pub struct Ended {
    /// 0, 1, 3, 4, 5, 6, 8, 9, 10, 11 or 12, as the report says, or 7 where the report could not be written whole.
    pub status: u8,
    pub evidence: Evidence,
}

/// The status of a call whose report could not be written whole.
const CUT_OFF: u8 = 7;

/// Reads the words and the file that they name, decides its program, runs it by a schedule or rechecks a log, and writes the
/// report, which is made whole before any of it is written. No told file changes.
pub fn run<F: Folder, O: Sink>(alloc: Global, words: &Words, folder: &mut F, out: &mut O) -> Ended
    // Some lawful ending is told; where the sink failed, some front of its report.
    ensures answers { Answers
        (call_of words.now (F.files folder.old) (F.read_faults folder.old) (F.read_faults folder.new))
        (output_of (O.written out.old) (O.written out.new) (O.faults out.old) (O.faults out.new))
        result.status result.evidence }
    // Where the words have no reading, or ask for what is not built, nothing is read.
    ensures not_read { AskForNoFile words.now → folder.new ≡ folder.old }
    ensures keeps_files { F.files folder.new ≡ F.files folder.old }
    ensures read_faults { F.read_faults folder.old ≤ F.read_faults folder.new }
    ensures same_writes { F.write_faults folder.new ≡ F.write_faults folder.old }
    ensures faults { O.faults out.old ≤ O.faults out.new }
{
    let ending = match conclude(alloc, words, folder) {
        Ok(ending) => ending,
        Err(Memory) => Ending::OutOfMemory,
    };
    tell(alloc, ending, out)
}

/// What a call comes to, before anything is written.
fn conclude<F: Folder>(alloc: Global, words: &Words, folder: &mut F) -> Result<Ending, Memory>
    ensures lawful { IfOk result (IsLawful
        (call_of words.now (F.files folder.old) (F.read_faults folder.old) (F.read_faults folder.new))) }
    ensures printable { IfOk result IsPrintable }
    ensures not_read { AskForNoFile words.now → folder.new ≡ folder.old }
    ensures keeps_files { F.files folder.new ≡ F.files folder.old }
    ensures read_faults { F.read_faults folder.old ≤ F.read_faults folder.new }
    ensures same_writes { F.write_faults folder.new ≡ F.write_faults folder.old }
{
    match read_words(alloc, words) {
        Ok(asked) => conclude_asked(alloc, &asked, folder),
        Err(WordsError::Usage) => Ok(Ending::Usage),
        Err(WordsError::Memory) => Err(Memory),
    }
}

/// What a call comes to whose words ask for this.
fn conclude_asked<F: Folder>(alloc: Global, asked: &Asked, folder: &mut F) -> Result<Ending, Memory>
    ensures lawful { IfOk result (λ ending. (words : List (List ℕ)) → IsReading words asked.now → IsLawful
        (call_of words (F.files folder.old) (F.read_faults folder.old) (F.read_faults folder.new)) ending) }
    ensures printable { IfOk result IsPrintable }
    ensures not_read { spec.is_built asked.now ≡ false → folder.new ≡ folder.old }
    ensures keeps_files { F.files folder.new ≡ F.files folder.old }
    ensures read_faults { F.read_faults folder.old ≤ F.read_faults folder.new }
    ensures same_writes { F.write_faults folder.new ≡ F.write_faults folder.old }
{
    match asked.mode {
        Mode::Check => conclude_check(alloc, asked, folder),
        Mode::Replay => conclude_scheduled(alloc, asked, folder),
        Mode::Recheck => conclude_proof(alloc, &asked.file, folder),
        Mode::Gen => Ok(Ending::NotBuilt { line: 0 }),
        Mode::Emit => Ok(Ending::NotBuilt { line: 0 }),
    }
}

/// What a decision comes to, which is built within the default numbers of rounds and conflicts and without a proof.
fn conclude_check<F: Folder>(alloc: Global, asked: &Asked, folder: &mut F) -> Result<Ending, Memory>
    requires { asked.now.mode ≡ modes.Check }
    ensures lawful { IfOk result (λ ending. (words : List (List ℕ)) → IsReading words asked.now → IsLawful
        (call_of words (F.files folder.old) (F.read_faults folder.old) (F.read_faults folder.new)) ending) }
    ensures printable { IfOk result IsPrintable }
    ensures not_read { spec.is_plain asked.now ≡ false → folder.new ≡ folder.old }
    ensures keeps_files { F.files folder.new ≡ F.files folder.old }
    ensures read_faults { F.read_faults folder.old ≤ F.read_faults folder.new }
    ensures same_writes { F.write_faults folder.new ≡ F.write_faults folder.old }
{
    if !is_plain(asked) {
        return Ok(Ending::NotBuilt { line: 0 });
    }
    conclude_file(alloc, asked.unwind, &asked.file, folder)
}

/// What a replay comes to, whose words name a schedule.
fn conclude_scheduled<F: Folder>(
    alloc: Global,
    asked: &Asked,
    folder: &mut F,
) -> Result<Ending, Memory>
    requires { asked.now.mode ≡ modes.Replay }
    ensures lawful { IfOk result (λ ending. (words : List (List ℕ)) → IsReading words asked.now → IsLawful
        (call_of words (F.files folder.old) (F.read_faults folder.old) (F.read_faults folder.new)) ending) }
    ensures printable { IfOk result IsPrintable }
    ensures keeps_files { F.files folder.new ≡ F.files folder.old }
    ensures read_faults { F.read_faults folder.old ≤ F.read_faults folder.new }
    ensures same_writes { F.write_faults folder.new ≡ F.write_faults folder.old }
{
    match &asked.schedule {
        Some(schedule) => conclude_replay(alloc, asked.unwind, schedule, &asked.file, folder),
        None => Ok(Ending::Usage),
    }
}

/// What the proof file of this name comes to.
fn conclude_proof<F: Folder>(alloc: Global, name: &Name, folder: &mut F) -> Result<Ending, Memory>
    ensures lawful { IfOk result (λ ending. (words : List (List ℕ)) → IsProofName words name.now → IsLawful
        (call_of words (F.files folder.old) (F.read_faults folder.old) (F.read_faults folder.new)) ending) }
    ensures printable { IfOk result IsPrintable }
    ensures keeps_files { F.files folder.new ≡ F.files folder.old }
    ensures read_faults { F.read_faults folder.old ≤ F.read_faults folder.new }
    ensures same_writes { F.write_faults folder.new ≡ F.write_faults folder.old }
{
    match read_all(alloc, folder, name.text(), PROOF_LIMIT) {
        Ok(bytes) => {
            let answer = recheck(alloc, bytes.items())?;
            Ok(Ending::Recheck { answer })
        }
        Err(ReadError::Fault) => {
            let name = Name::new(alloc, name.text())?;
            Ok(Ending::ReadFault { name })
        }
        Err(ReadError::TooLong) => Ok(Ending::ProofTooLong),
        Err(ReadError::Memory) => Err(Memory),
    }
}

/// What the file of this name comes to, whose program is run by the schedule of that name.
fn conclude_replay<F: Folder>(
    alloc: Global,
    unwind: u32,
    schedule: &Name,
    name: &Name,
    folder: &mut F,
) -> Result<Ending, Memory>
    ensures lawful { IfOk result (λ ending. (words : List (List ℕ)) → IsReplayName words unwind schedule.now name.now → IsLawful
        (call_of words (F.files folder.old) (F.read_faults folder.old) (F.read_faults folder.new)) ending) }
    ensures printable { IfOk result IsPrintable }
    ensures keeps_files { F.files folder.new ≡ F.files folder.old }
    ensures read_faults { F.read_faults folder.old ≤ F.read_faults folder.new }
    ensures same_writes { F.write_faults folder.new ≡ F.write_faults folder.old }
{
    match read_all(alloc, folder, name.text(), FILE_LIMIT) {
        Ok(bytes) => replay_source(alloc, unwind, schedule, bytes.items(), folder),
        Err(ReadError::Fault) => {
            let name = Name::new(alloc, name.text())?;
            Ok(Ending::ReadFault { name })
        }
        Err(ReadError::TooLong) => Ok(Ending::FileTooLong),
        Err(ReadError::Memory) => Err(Memory),
    }
}

/// What the bytes of a file come to, whose program is run by the schedule of that name.
fn replay_source<F: Folder>(
    alloc: Global,
    unwind: u32,
    schedule: &Name,
    bytes: &[u8],
    folder: &mut F,
) -> Result<Ending, Memory>
    requires { length bytes.now ≤ file_limit }
    ensures lawful { IfOk result (λ ending. (words : List (List ℕ))
        → IsRunSource (call_of words (F.files folder.old) (F.read_faults folder.old) (F.read_faults folder.new)) unwind schedule.now bytes.now
        → IsLawful (call_of words (F.files folder.old) (F.read_faults folder.old) (F.read_faults folder.new)) ending) }
    ensures printable { IfOk result IsPrintable }
    ensures keeps_files { F.files folder.new ≡ F.files folder.old }
    ensures read_faults { F.read_faults folder.old ≤ F.read_faults folder.new }
    ensures same_writes { F.write_faults folder.new ≡ F.write_faults folder.old }
{
    match admit(alloc, bytes, unwind, REPLAY_ROUNDS) {
        Ok(checked) => replay_program(
            alloc,
            unwind,
            schedule,
            checked.scoped(),
            checked.order(),
            folder,
        ),
        Err(refusal) => refuse(refusal),
    }
}

/// What the schedule of this name comes to on a program that is run by it, with an order of the program's calls.
fn replay_program<F: Folder>(
    alloc: Global,
    unwind: u32,
    schedule: &Name,
    scoped: &Scoped,
    order: &[u32],
    folder: &mut F,
) -> Result<Ending, Memory>
    requires { IsCallOrder (scoped_program scoped.now).functions order.now }
    ensures lawful { IfOk result (λ ending. (words : List (List ℕ)) (bytes : List ℕ) (tree : TranslationUnit)
        → IsRunSource (call_of words (F.files folder.old) (F.read_faults folder.old) (F.read_faults folder.new)) unwind schedule.now bytes
        → Admits unwind REPLAY_ROUNDS bytes tree (scoped_program scoped.now) order.now
        → IsLawful (call_of words (F.files folder.old) (F.read_faults folder.old) (F.read_faults folder.new)) ending) }
    ensures printable { IfOk result IsPrintable }
    ensures keeps_files { F.files folder.new ≡ F.files folder.old }
    ensures read_faults { F.read_faults folder.old ≤ F.read_faults folder.new }
    ensures same_writes { F.write_faults folder.new ≡ F.write_faults folder.old }
{
    match read_all(alloc, folder, schedule.text(), SCHEDULE_LIMIT) {
        Ok(text) => follow(alloc, scoped, order, unwind, text.items()),
        Err(ReadError::Fault) => {
            let name = Name::new(alloc, schedule.text())?;
            Ok(Ending::ReadFault { name })
        }
        Err(ReadError::TooLong) => Ok(Ending::ScheduleTooLong),
        Err(ReadError::Memory) => Err(Memory),
    }
}

/// The ending that tells why a program is neither decided nor run.
fn refuse(refusal: Refusal) -> Result<Ending, Memory>
    ensures verdict { IfOk result (λ ending. (bounds : Bounds) (bytes : List ℕ) → IsRefusedBy bounds bytes refusal → IsVerdict bounds bytes ending) }
    ensures lawful { IfOk result (λ ending. (call : Call) (turns : ℕ) (schedule bytes : List ℕ) → IsRunSource call turns schedule bytes
        → IsRefusedBy (replaying turns) bytes refusal → IsLawful call ending) }
    ensures printable { IfOk result IsPrintable }
{
    match refusal {
        Refusal::NotAToken { line, place } => Ok(Ending::NotAToken { line, place }),
        Refusal::NotAProgram { line, token } => Ok(Ending::NotAProgram { line, token }),
        Refusal::Faulty { line, rule } => Ok(Ending::Faulty { line, rule }),
        Refusal::ManySlots { slots } => Ok(Ending::ManySlots { slots }),
        Refusal::HighCost { cost } => Ok(Ending::HighCost { cost }),
        Refusal::OutOfMemory => Err(Memory),
    }
}

/// What the file of this name comes to, whose program is decided.
fn conclude_file<F: Folder>(
    alloc: Global,
    unwind: u32,
    name: &Name,
    folder: &mut F,
) -> Result<Ending, Memory>
    ensures lawful { IfOk result (λ ending. (words : List (List ℕ)) → IsCheckName words unwind name.now → IsLawful
        (call_of words (F.files folder.old) (F.read_faults folder.old) (F.read_faults folder.new)) ending) }
    ensures printable { IfOk result IsPrintable }
    ensures keeps_files { F.files folder.new ≡ F.files folder.old }
    ensures read_faults { F.read_faults folder.old ≤ F.read_faults folder.new }
    ensures same_writes { F.write_faults folder.new ≡ F.write_faults folder.old }
{
    match read_all(alloc, folder, name.text(), FILE_LIMIT) {
        Ok(bytes) => judge(alloc, bytes.items(), unwind),
        Err(ReadError::Fault) => {
            let name = Name::new(alloc, name.text())?;
            Ok(Ending::ReadFault { name })
        }
        Err(ReadError::TooLong) => Ok(Ending::FileTooLong),
        Err(ReadError::Memory) => Err(Memory),
    }
}

/// The verdict on the bytes of a file.
fn judge(alloc: Global, bytes: &[u8], unwind: u32) -> Result<Ending, Memory>
    requires { length bytes.now ≤ file_limit }
    ensures verdict { IfOk result (IsVerdict (checking unwind) bytes.now) }
    ensures printable { IfOk result IsPrintable }
{
    match admit(alloc, bytes, unwind, DEFAULT_ROUNDS) {
        Ok(checked) => judge_admitted(alloc, checked.scoped(), checked.order(), unwind),
        Err(refusal) => refuse(refusal),
    }
}

/// The verdict on a program within the limits, with an order of its calls. One that has a choice is not built.
fn judge_admitted(
    alloc: Global,
    scoped: &Scoped,
    order: &[u32],
    unwind: u32,
) -> Result<Ending, Memory>
    requires { IsCallOrder (scoped_program scoped.now).functions order.now }
    ensures verdict { IfOk result (λ ending. (bytes : List ℕ) (tree : TranslationUnit)
        → Admits unwind DEFAULT_ROUNDS bytes tree (scoped_program scoped.now) order.now → IsVerdict (checking unwind) bytes ending) }
    ensures printable { IfOk result IsPrintable }
{
    match first_choice(scoped) {
        Some(line) => Ok(Ending::NotBuilt { line }),
        None => judge_sequential(alloc, scoped, order, unwind),
    }
}

/// The verdict on a program without a choice. A program whose numbers do not fit, which takes a longer text than any that
/// is read, comes to want of memory.
fn judge_sequential(
    alloc: Global,
    scoped: &Scoped,
    order: &[u32],
    unwind: u32,
) -> Result<Ending, Memory>
    requires order { IsCallOrder (scoped_program scoped.now).functions order.now }
    requires no_choice { choices.first_choice (scoped_program scoped.now) ≡ None }
    ensures verdict { IfOk result (λ ending. (bytes : List ℕ) (tree : TranslationUnit)
        → Admits unwind DEFAULT_ROUNDS bytes tree (scoped_program scoped.now) order.now → IsVerdict (checking unwind) bytes ending) }
    ensures printable { IfOk result IsPrintable }
{
    if !program_fits(scoped) {
        return Err(Memory);
    }
    match decide(alloc, scoped, order, unwind)? {
        Decided::Holds => {
            let (formula, log) = refutation(alloc)?;
            Ok(Ending::Successful {
                unwind,
                rounds: DEFAULT_ROUNDS,
                formula,
                log,
            })
        }
        Decided::Broken {
            schedule,
            kind,
            line,
        } => Ok(Ending::Failed {
            kind,
            line,
            schedule,
        }),
    }
}

/// Writes the report of an ending. Where there is no memory for the report, want of memory is told.
fn tell<O: Sink>(alloc: Global, ending: Ending, out: &mut O) -> Ended
    requires { IsPrintable ending }
    ensures answers { (call : Call) → IsLawful call ending → Answers call
        (output_of (O.written out.old) (O.written out.new) (O.faults out.old) (O.faults out.new))
        result.status result.evidence }
    ensures faults { O.faults out.old ≤ O.faults out.new }
{
    match print(alloc, &ending) {
        Ok(text) => Ended {
            status: deliver(out, text.items(), status(&ending)),
            evidence: ending.into_evidence(),
        },
        Err(Memory) => end_out_of_memory(out),
    }
}

/// Ends a call for want of memory. The report is written without taking any.
pub fn end_out_of_memory<O: Sink>(out: &mut O) -> Ended
    ensures evidence { result.evidence ≡ Evidence.Nothing }
    ensures delivered { IsDeliveredOrCutOff
        (output_of (O.written out.old) (O.written out.new) (O.faults out.old) (O.faults out.new))
        (report Ending.OutOfMemory) (status_of Ending.OutOfMemory) result.status }
    ensures faults { O.faults out.old ≤ O.faults out.new }
{
    Ended {
        status: deliver(out, MEMORY_REPORT, status(&Ending::OutOfMemory)),
        evidence: Evidence::Nothing,
    }
}

/// Writes a report, and answers its status, or that of a report that was cut off where the sink fails.
fn deliver<O: Sink>(out: &mut O, text: &[u8], status: u8) -> u8
    ensures delivered { IsDeliveredOrCutOff
        (output_of (O.written out.old) (O.written out.new) (O.faults out.old) (O.faults out.new))
        text.now status result }
    ensures faults { O.faults out.old ≤ O.faults out.new }
{
    match write_all(out, text) {
        Ok(()) => status,
        Err(Failed) => CUT_OFF,
    }
}
