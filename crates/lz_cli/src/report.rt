//! The text of a report.

ghost use Rattle.std.specs.Prelude.{◌≡◌, ◌<◌, ◌^◌, ◌++◌, codes, OnOk, IfOk, List};
ghost use Rattle.std.specs.Fmt.{decimal};
ghost use Rattle.std.specs.List.{flat_map};
ghost use Rattle.lz_model.specs.Rounds.{rounds_of, threads_of};
ghost use Rattle.lz_cli.specs.Recheck as recheck;
ghost use Rattle.lz_cli.specs.Recheck.{recheck_line};
ghost use Rattle.lz_cli.specs.Report as spec;
ghost use Rattle.lz_cli.specs.Report.{report, success_line, kind_word, step_line, replay_line, status_of};
ghost use Rattle.lz_cli.specs.Printable.{IsPrintable};

use crate::ending::Ending;
use crate::limits::{COST_LIMIT, SCHEDULE_LIMIT, SLOT_LIMIT};
use crate::recheck::{PROOF_LIMIT, Rechecked};
use lz_base::{BreakKind, Bytes, FILE_LIMIT, Memory, Name};
use lz_model::{Schedule, Step, rounds};
use lz_replay::Replayed;
use std::alloc::Global;

/// The report of an ending, to the byte: each line with a newline at its end.
pub fn print(alloc: Global, ending: &Ending) -> Result<Bytes, Memory>
    requires { IsPrintable ending.now }
    ensures { IfOk result (λ text. text ≡ report ending.now) }
{
    match ending {
        Ending::Successful {
            unwind,
            rounds,
            formula: _,
            log: _,
        } => successful(alloc, *unwind, *rounds),
        Ending::Failed {
            kind,
            line,
            schedule,
        } => failed(alloc, *kind, *line, schedule),
        Ending::NotAToken { line, place } => not_a_token(alloc, *line, *place),
        Ending::NotAProgram { line, token } => not_a_program(alloc, *line, *token),
        Ending::Faulty { line, rule } => faulty(alloc, *line, *rule),
        Ending::ManySlots { slots } => over(alloc, b"LIMIT slots ", *slots, SLOT_LIMIT),
        Ending::HighCost { cost } => over(alloc, b"LIMIT cost ", *cost, COST_LIMIT),
        Ending::Recheck { answer } => rechecked(alloc, *answer),
        Ending::Replay { answer } => replayed(alloc, *answer),
        Ending::NotBuilt { line } => not_built(alloc, *line),
        Ending::FileTooLong => file_too_long(alloc),
        Ending::ScheduleTooLong => schedule_too_long(alloc),
        Ending::ProofTooLong => proof_too_long(alloc),
        Ending::BadSchedule { line } => one_number(alloc, b"TEXT line ", u64::from(*line)),
        Ending::ReadFault { name } => read_fault(alloc, name),
        Ending::Usage => usage(alloc),
        Ending::OutOfMemory => out_of_memory(alloc),
    }
}

fn successful(alloc: Global, unwind: u32, rounds: u32) -> Result<Bytes, Memory>
    ensures { IfOk result (λ text. text ≡ success_line unwind rounds) }
{
    let mut text = Bytes::new(alloc);
    text.append(b"SUCCESSFUL unwind ")?;
    text.append_number(u64::from(unwind))?;
    text.append(b" rounds ")?;
    text.append_number(u64::from(rounds))?;
    text.append(b"\n")?;
    Ok(text)
}

fn failed(alloc: Global, kind: BreakKind, line: u32, schedule: &Schedule) -> Result<Bytes, Memory>
    requires { rounds_of (threads_of schedule.now) < 2 ^ 32 }
    ensures { IfOk result (λ text. text ≡ report (Ending.Failed kind line schedule.now)) }
{
    let mut text = Bytes::new(alloc);
    text.append(b"FAILED\ncheck ")?;
    text.append(word_of(kind))?;
    text.append(b" line ")?;
    text.append_number(u64::from(line))?;
    text.append(b"\nrounds ")?;
    text.append_number(u64::from(rounds(schedule)))?;
    text.append(b"\n")?;
    append_steps(&mut text, schedule)?;
    Ok(text)
}

fn not_a_token(alloc: Global, line: u32, place: u32) -> Result<Bytes, Memory>
    ensures { IfOk result (λ text. text ≡ report (Ending.NotAToken line place)) }
{
    let mut text = Bytes::new(alloc);
    text.append(b"SOURCE line ")?;
    text.append_number(u64::from(line))?;
    text.append(b" byte ")?;
    text.append_number(u64::from(place))?;
    text.append(b": not a token\n")?;
    Ok(text)
}

fn not_a_program(alloc: Global, line: u32, token: u32) -> Result<Bytes, Memory>
    ensures { IfOk result (λ text. text ≡ report (Ending.NotAProgram line token)) }
{
    let mut text = Bytes::new(alloc);
    text.append(b"SOURCE line ")?;
    text.append_number(u64::from(line))?;
    text.append(b" token ")?;
    text.append_number(u64::from(token))?;
    text.append(b": not a program\n")?;
    Ok(text)
}

fn faulty(alloc: Global, line: u32, rule: u32) -> Result<Bytes, Memory>
    ensures { IfOk result (λ text. text ≡ report (Ending.Faulty line rule)) }
{
    let mut text = Bytes::new(alloc);
    text.append(b"SOURCE line ")?;
    text.append_number(u64::from(line))?;
    text.append(b" rule ")?;
    text.append_number(u64::from(rule))?;
    text.append(b"\n")?;
    Ok(text)
}

/// A line of words, a number and the limit that it is over.
fn over(alloc: Global, words: &[u8], number: u64, limit: u64) -> Result<Bytes, Memory>
    ensures { IfOk result (λ text. text ≡ words.now ++ decimal number ++ codes " over " ++ decimal limit ++ codes "\n") }
{
    let mut text = Bytes::new(alloc);
    text.append(words)?;
    text.append_number(number)?;
    text.append(b" over ")?;
    text.append_number(limit)?;
    text.append(b"\n")?;
    Ok(text)
}

fn not_built(alloc: Global, line: u32) -> Result<Bytes, Memory>
    ensures { IfOk result (λ text. text ≡ report (Ending.NotBuilt line)) }
{
    let mut text = Bytes::new(alloc);
    text.append(b"NOTBUILT line ")?;
    text.append_number(u64::from(line))?;
    text.append(b"\n")?;
    Ok(text)
}

fn file_too_long(alloc: Global) -> Result<Bytes, Memory>
    ensures { IfOk result (λ text. text ≡ report Ending.FileTooLong) }
{
    let mut text = Bytes::new(alloc);
    text.append(b"LIMIT file over ")?;
    text.append_number(FILE_LIMIT)?;
    text.append(b" bytes\n")?;
    Ok(text)
}

fn schedule_too_long(alloc: Global) -> Result<Bytes, Memory>
    ensures { IfOk result (λ text. text ≡ report Ending.ScheduleTooLong) }
{
    let mut text = Bytes::new(alloc);
    text.append(b"LIMIT schedule over ")?;
    text.append_number(SCHEDULE_LIMIT)?;
    text.append(b" bytes\n")?;
    Ok(text)
}

fn proof_too_long(alloc: Global) -> Result<Bytes, Memory>
    ensures { IfOk result (λ text. text ≡ report Ending.ProofTooLong) }
{
    let mut text = Bytes::new(alloc);
    text.append(b"LIMIT proof over ")?;
    text.append_number(PROOF_LIMIT)?;
    text.append(b" bytes\n")?;
    Ok(text)
}

fn rechecked(alloc: Global, answer: Rechecked) -> Result<Bytes, Memory>
    ensures { IfOk result (λ text. text ≡ recheck_line answer) }
{
    match answer {
        Rechecked::Refuted { clauses, steps } => refuted(alloc, clauses, steps),
        Rechecked::BadLine { line } => one_number(alloc, b"TEXT line ", u64::from(line)),
        Rechecked::BadStep { index } => one_number(alloc, b"BADSTEP index ", index),
    }
}

fn refuted(alloc: Global, clauses: u64, steps: u64) -> Result<Bytes, Memory>
    ensures { IfOk result (λ text. text ≡ codes "REFUTED formula " ++ decimal clauses ++ codes " log " ++ decimal steps ++ codes "\n") }
{
    let mut text = Bytes::new(alloc);
    text.append(b"REFUTED formula ")?;
    text.append_number(clauses)?;
    text.append(b" log ")?;
    text.append_number(steps)?;
    text.append(b"\n")?;
    Ok(text)
}

fn replayed(alloc: Global, answer: Replayed) -> Result<Bytes, Memory>
    ensures { IfOk result (λ text. text ≡ replay_line answer) }
{
    match answer {
        Replayed::Broke { kind, line, events } => broke(alloc, kind, line, events),
        Replayed::Holds { events } => one_number(alloc, b"HOLDS events ", events),
        Replayed::NotARun { index } => one_number(alloc, b"NOTARUN index ", index),
    }
}

fn broke(alloc: Global, kind: BreakKind, line: u32, events: u64) -> Result<Bytes, Memory>
    ensures { IfOk result (λ text. text ≡ replay_line (Replayed.Broke kind line events)) }
{
    let mut text = Bytes::new(alloc);
    text.append(b"BROKEN check ")?;
    text.append(word_of(kind))?;
    text.append(b" line ")?;
    text.append_number(u64::from(line))?;
    text.append(b" events ")?;
    text.append_number(events)?;
    text.append(b"\n")?;
    Ok(text)
}

/// A line of words and a number.
fn one_number(alloc: Global, words: &[u8], number: u64) -> Result<Bytes, Memory>
    ensures { IfOk result (λ text. text ≡ words.now ++ decimal number ++ codes "\n") }
{
    let mut text = Bytes::new(alloc);
    text.append(words)?;
    text.append_number(number)?;
    text.append(b"\n")?;
    Ok(text)
}

fn read_fault(alloc: Global, name: &Name) -> Result<Bytes, Memory>
    ensures { IfOk result (λ text. text ≡ report (Ending.ReadFault name.now)) }
{
    let mut text = Bytes::new(alloc);
    text.append(b"READ ")?;
    text.append(name.text().as_bytes())?;
    text.append(b"\n")?;
    Ok(text)
}

fn usage(alloc: Global) -> Result<Bytes, Memory>
    ensures { IfOk result (λ text. text ≡ report Ending.Usage) }
{
    let mut text = Bytes::new(alloc);
    text.append(USAGE_REPORT)?;
    Ok(text)
}

fn out_of_memory(alloc: Global) -> Result<Bytes, Memory>
    ensures { IfOk result (λ text. text ≡ report Ending.OutOfMemory) }
{
    let mut text = Bytes::new(alloc);
    text.append(MEMORY_REPORT)?;
    Ok(text)
}

/// How the command is called.
const USAGE_REPORT: &[u8] =
    b"usage: lazycheck [--mode check|replay|recheck|gen|emit] [--unwind N] [--rounds K] [--conflicts C] [--schedule NAME] [--proof NAME] [--seed S] FILE\n";

/// The report of want of memory, which is written without taking any.
pub const MEMORY_REPORT: &[u8] = b"MEMORY\n";

/// The word for what breaks.
fn word_of(kind: BreakKind) -> &'static [u8]
    ensures { result.now ≡ kind_word kind }
{
    match kind {
        BreakKind::Assert => b"assert",
        BreakKind::Bounds => b"bounds",
        BreakKind::DivZero => b"divzero",
        BreakKind::Unlock => b"unlock",
        BreakKind::Wait => b"wait",
        BreakKind::Join => b"join",
        BreakKind::Reached => b"reached",
    }
}

/// Adds the line of a step.
fn append_step(text: &mut Bytes, step: Step) -> Result<(), Memory>
    ensures { OnOk result (text.new ≡ text.old ++ step_line step) }
{
    text.append(b"step ")?;
    text.append_number(u64::from(step.thread))?;
    text.append(b" ")?;
    text.append_number(step.choice)?;
    text.append(b"\n")
}

/// Adds the lines of a schedule.
fn append_steps(text: &mut Bytes, schedule: &Schedule) -> Result<(), Memory>
    ensures { OnOk result (text.new ≡ text.old ++ flat_map step_line schedule.now) }
{
    for step in schedule.items() {
        append_step(text, *step)?;
    }
    Ok(())
}

/// The status of a recheck's answer.
fn recheck_status(answer: Rechecked) -> u8
    ensures { result ≡ recheck.recheck_status answer }
{
    match answer {
        Rechecked::Refuted {
            clauses: _,
            steps: _,
        } => 0,
        Rechecked::BadLine { line: _ } => 10,
        Rechecked::BadStep { index: _ } => 11,
    }
}

/// The status of a replay's answer.
fn replay_status(answer: Replayed) -> u8
    ensures { result ≡ spec.replay_status answer }
{
    match answer {
        Replayed::Broke {
            kind: _,
            line: _,
            events: _,
        } => 1,
        Replayed::Holds { events: _ } => 0,
        Replayed::NotARun { index: _ } => 9,
    }
}

/// The status that the command ends with.
pub fn status(ending: &Ending) -> u8
    ensures { result ≡ status_of ending.now }
{
    match ending {
        Ending::Successful {
            unwind: _,
            rounds: _,
            formula: _,
            log: _,
        } => 0,
        Ending::Failed {
            kind: _,
            line: _,
            schedule: _,
        } => 1,
        Ending::NotAToken { line: _, place: _ } => 4,
        Ending::NotAProgram { line: _, token: _ } => 4,
        Ending::Faulty { line: _, rule: _ } => 4,
        Ending::ManySlots { slots: _ } => 5,
        Ending::HighCost { cost: _ } => 5,
        Ending::Recheck { answer } => recheck_status(*answer),
        Ending::Replay { answer } => replay_status(*answer),
        Ending::NotBuilt { line: _ } => 12,
        Ending::FileTooLong => 5,
        Ending::ScheduleTooLong => 5,
        Ending::ProofTooLong => 5,
        Ending::BadSchedule { line: _ } => 10,
        Ending::ReadFault { name: _ } => 6,
        Ending::Usage => 3,
        Ending::OutOfMemory => 8,
    }
}
