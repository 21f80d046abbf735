//! Reads the words of a command line with clap, which divides them into options and values, and then the values.

ghost use Rattle.std.specs.Prelude.{◌≡◌, ◌∷◌, [], ℕ, List, IfOk, IfErr, false};
ghost use Rattle.clap.specs.Words.{app_of, found_of, matches_of, rows_of, kind_of};
ghost use Rattle.clap.specs.Walk.{first_of, rule_of, texts};
ghost use Rattle.clap.specs.Faults.{fault_of};
ghost use Rattle.lz_words.specs.CommandLine.{command_line, program_name, option_rule, file_rule, rows_of_words, AreTaken, Asks, IsReading, HasNoReading};
ghost use Rattle.lz_words.specs.CommandLine as spec;

use crate::asked::{Asked, Mode, WordsError};
use crate::limits::{
    DEFAULT_CONFLICTS, DEFAULT_ROUNDS, DEFAULT_UNWIND, GREATEST_CONFLICTS, GREATEST_ROUNDS,
    GREATEST_SEED, GREATEST_UNWIND,
};
use crate::numbers::{mode_or_check, number_or, seed_or_none, small_or};
use clap::error::ErrorKind;
use clap::{Arg, ArgMatches, Command, Error};
use lz_base::{Memory, Name, Sequence};
use std::alloc::{AllocError, Global};

/// The words of a command line after the program's name.
pub type Words = Sequence<Name>;

/// What the words ask for. `Usage` comes exactly where they have no reading: clap refuses them, a number is out of its
/// form or its range, the mode is none of the five, or what the mode needs is missing.
pub fn read_words(alloc: Global, words: &Words) -> Result<Asked, WordsError>
    ensures asked { IfOk result (IsReading words.now) }
    ensures usage { IfErr result (λ why. why ≡ WordsError.Usage → HasNoReading words.now) }
{
    let texts = texts_of(alloc, words)?;
    match parse(alloc, texts.as_slice()) {
        Ok(matches) => asked(alloc, &matches),
        Err(why) => Err(why),
    }
}

/// The program's name and the words, which is what clap reads.
fn texts_of<'a>(alloc: Global, words: &'a Words) -> Result<Vec<&'a str>, Memory>
    ensures { IfOk result (λ all. texts all.items ≡ program_name ∷ words.now) }
{
    let mut all = Vec::new(alloc);
    all.push("lazycheck")?;
    for word in words.items() {
        all.push(word.text())?;
    }
    Ok(all)
}

/// A long option that takes one value.
fn option<'a>(alloc: Global, name: &'a str) -> Arg<'a>
    ensures rule { rule_of result ≡ option_rule name.entry.now }
    ensures local { result.global ≡ false }
{
    Arg::new(alloc, name).long(name)
}

/// The name of the file, which is required.
fn file<'a>(alloc: Global) -> Arg<'a>
    ensures rule { rule_of result ≡ file_rule }
    ensures local { result.global ≡ false }
{
    Arg::new(alloc, "file").required(true)
}

/// The command, as clap is told it.
fn command<'a>(alloc: Global) -> Result<Command<'a>, AllocError>
    ensures { IfOk result (λ c. app_of c ≡ command_line) }
{
    Command::new(alloc, "lazycheck")
        .arg(option(alloc, "mode"))?
        .arg(option(alloc, "unwind"))?
        .arg(option(alloc, "rounds"))?
        .arg(option(alloc, "conflicts"))?
        .arg(option(alloc, "schedule"))?
        .arg(option(alloc, "proof"))?
        .arg(option(alloc, "seed"))?
        .arg(file(alloc))
}

/// Why there are no matches. clap's own text, its help too, is never printed.
fn refusal(error: &Error) -> WordsError
    ensures memory { kind_of error.now ≡ ErrorKind.OutOfMemory → result ≡ WordsError.Memory }
    ensures usage { result ≡ WordsError.Usage → kind_of error.now ≡ ErrorKind.OutOfMemory → ⊥ }
{
    if error.kind() == ErrorKind::OutOfMemory {
        WordsError::Memory
    } else {
        WordsError::Usage
    }
}

/// clap's matches for these words.
fn parse<'a>(alloc: Global, words: &'a [&'a str]) -> Result<ArgMatches<'a>, WordsError>
    ensures taken { IfOk result (λ m. fault_of command_line (texts words.entry.now) ≡ []) }
    ensures rows { IfOk result (λ m. rows_of (found_of m) ≡ matches_of command_line (texts words.entry.now)) }
    ensures usage { IfErr result (λ why. why ≡ WordsError.Usage → fault_of command_line (texts words.entry.now) ≡ [] → ⊥) }
{
    let command = match command(alloc) {
        Ok(command) => command,
        Err(_) => return Err(WordsError::Memory),
    };
    match command.try_get_matches_from(words) {
        Ok(matches) => Ok(matches),
        Err(error) => Err(refusal(&error)),
    }
}

/// A copy of a text, where there is one.
fn name_of(alloc: Global, text: Option<&str>) -> Result<Option<Name>, Memory>
    ensures { IfOk result (λ name. name ≡ spec.text_of text.entry) }
{
    match text {
        None => Ok(None),
        Some(text) => Ok(Some(Name::new(alloc, text)?)),
    }
}

/// Whether what the mode needs is there.
fn has_needed(mode: Mode, schedule: Option<&str>, seed: Option<u32>) -> bool
    ensures { result ≡ spec.has_needed mode (spec.text_of schedule.entry) seed }
{
    match mode {
        Mode::Check => true,
        Mode::Replay => schedule.is_some(),
        Mode::Recheck => true,
        Mode::Gen => seed.is_some(),
        Mode::Emit => true,
    }
}

/// The text that clap found for a name.
fn value<'a>(matches: &ArgMatches<'a>, id: &str) -> Option<&'a str>
    ensures { spec.text_of result ≡ first_of id.now (rows_of (found_of matches.now)) }
{
    matches.get_str(id)
}

/// What the matches ask for.
fn asked(alloc: Global, matches: &ArgMatches<'_>) -> Result<Asked, WordsError>
    ensures asked { IfOk result (Asks (rows_of (found_of matches.now))) }
    ensures usage { IfErr result (λ why. why ≡ WordsError.Usage → (a : Asked) → Asks (rows_of (found_of matches.now)) a → ⊥) }
{
    let Some(mode) = mode_or_check(value(matches, "mode")) else {
        return Err(WordsError::Usage);
    };
    let Some(unwind) = small_or(1, GREATEST_UNWIND, DEFAULT_UNWIND, value(matches, "unwind")) else {
        return Err(WordsError::Usage);
    };
    let Some(rounds) = small_or(1, GREATEST_ROUNDS, DEFAULT_ROUNDS, value(matches, "rounds")) else {
        return Err(WordsError::Usage);
    };
    let Some(conflicts) = number_or(
        1,
        GREATEST_CONFLICTS,
        DEFAULT_CONFLICTS,
        value(matches, "conflicts"),
    ) else {
        return Err(WordsError::Usage);
    };
    let Some(seed) = seed_or_none(GREATEST_SEED, value(matches, "seed")) else {
        return Err(WordsError::Usage);
    };
    let schedule = value(matches, "schedule");
    if !has_needed(mode, schedule, seed) {
        return Err(WordsError::Usage);
    }
    let Some(file) = value(matches, "file") else {
        return Err(WordsError::Usage);
    };
    Ok(Asked {
        mode,
        unwind,
        rounds,
        conflicts,
        schedule: name_of(alloc, schedule)?,
        proof: name_of(alloc, value(matches, "proof"))?,
        seed,
        file: Name::new(alloc, file)?,
    })
}
