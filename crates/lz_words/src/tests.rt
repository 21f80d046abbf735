//! Command lines and how they are read.

use crate::{Asked, Mode, Words, WordsError, read_words};
use lz_base::{Memory, Name};
use std::alloc::Global;
use std::process::Abort;
use std::test::Fail;

/// The words of a line, divided at spaces; `_` stands for the empty word.
fn words_of(alloc: Global, line: &str) -> Result<Words, Memory> {
    let mut words = Words::new(alloc);
    for word in line.split(' ') {
        if word == "_" {
            words.push(Name::new(alloc, "")?)?;
        } else if word.len() > 0 {
            words.push(Name::new(alloc, word)?)?;
        }
    }
    Ok(words)
}

/// The text of a name in brackets, or a dash.
fn shown_name(alloc: Global, name: &Option<Name>) -> Result<String, Memory> {
    match name {
        Some(name) => Ok(format!(in alloc; "[{}]", name.text())?),
        None => Ok(String::from_str(alloc, "-")?),
    }
}

/// The mode's word.
fn shown_mode(mode: Mode) -> &'static str {
    match mode {
        Mode::Check => "check",
        Mode::Replay => "replay",
        Mode::Recheck => "recheck",
        Mode::Gen => "gen",
        Mode::Emit => "emit",
    }
}

/// The mode, the three bounds, the names of schedule and proof, the seed and the file.
fn shown(alloc: Global, asked: &Asked) -> Result<String, Memory> {
    let mode = shown_mode(asked.mode);
    let schedule = shown_name(alloc, &asked.schedule)?;
    let proof = shown_name(alloc, &asked.proof)?;
    let unwind = asked.unwind;
    let rounds = asked.rounds;
    let conflicts = asked.conflicts;
    let file = asked.file.text();
    match asked.seed {
        Some(seed) => Ok(format!(in alloc;
            "{mode} {unwind} {rounds} {conflicts} {schedule} {proof} {seed} [{file}]"
        )?),
        None => Ok(format!(in alloc;
            "{mode} {unwind} {rounds} {conflicts} {schedule} {proof} - [{file}]"
        )?),
    }
}

/// What a line is read as.
fn told(alloc: Global, line: &str) -> Result<String, Memory> {
    let words = words_of(alloc, line)?;
    match read_words(alloc, &words) {
        Ok(asked) => shown(alloc, &asked),
        Err(WordsError::Usage) => Ok(String::from_str(alloc, "usage")?),
        Err(WordsError::Memory) => Ok(String::from_str(alloc, "memory")?),
    }
}

/// A line, what it is read as, and the reason of the row.
fn compare(rt: &impl Abort, alloc: Global, rows: &[(&str, &str, &str)]) -> Result<(), Fail> {
    for row in rows {
        let text = told(alloc, row.0)?;
        assert!(rt; text.as_str() == row.1, "{} ({}): {}", row.0, row.2, text);
    }
    Ok(())
}

/// A line that has no reading, and the reason of the row.
fn refuse(rt: &impl Abort, alloc: Global, rows: &[(&str, &str)]) -> Result<(), Fail> {
    for row in rows {
        let text = told(alloc, row.0)?;
        assert!(rt; text.as_str() == "usage", "{} ({}): {}", row.0, row.1, text);
    }
    Ok(())
}

#[test]
fn words_with_a_reading(rt: HostRuntime) -> Result<(), Fail> {
    let rows = [
        ("a.c", "check 2 2 100000 - - - [a.c]", "the defaults"),
        (
            "--unwind 3 a.c",
            "check 3 2 100000 - - - [a.c]",
            "an option and its value",
        ),
        (
            "a.c --unwind 3",
            "check 3 2 100000 - - - [a.c]",
            "the order is free",
        ),
        (
            "--unwind=3 a.c",
            "check 3 2 100000 - - - [a.c]",
            "a value in the option's word",
        ),
        (
            "--unwind 00000000000000000100 a.c",
            "check 100 2 100000 - - - [a.c]",
            "twenty digits, and zeros in front",
        ),
        (
            "--rounds 32 --conflicts 1000000 a.c",
            "check 2 32 1000000 - - - [a.c]",
            "the greatest numbers",
        ),
        (
            "--conflicts 1 --rounds 1 --unwind 1 a.c",
            "check 1 1 1 - - - [a.c]",
            "the least numbers",
        ),
        (
            "-- a.c",
            "check 2 2 100000 - - - [a.c]",
            "the file after two dashes",
        ),
        (
            "-- --help",
            "check 2 2 100000 - - - [--help]",
            "after two dashes no word is an option",
        ),
        ("-- --", "check 2 2 100000 - - - [--]", "nor are two dashes"),
        ("-", "check 2 2 100000 - - - [-]", "a dash alone is a name"),
        ("help", "check 2 2 100000 - - - [help]", "no subcommand"),
        ("_", "check 2 2 100000 - - - []", "the empty name"),
        (
            "--proof p a.c",
            "check 2 2 100000 - [p] - [a.c]",
            "the name of the proof",
        ),
        (
            "--proof= a.c",
            "check 2 2 100000 - [] - [a.c]",
            "an empty value after the sign",
        ),
        (
            "--proof _ a.c",
            "check 2 2 100000 - [] - [a.c]",
            "an empty word as value",
        ),
        (
            "--proof=--x=y a.c",
            "check 2 2 100000 - [--x=y] - [a.c]",
            "all after the first sign is the value",
        ),
        (
            "--mode replay --schedule - a.c",
            "replay 2 2 100000 [-] - - [a.c]",
            "a dash alone is a value",
        ),
        (
            "--schedule s a.c --mode=replay",
            "replay 2 2 100000 [s] - - [a.c]",
            "the mode may stand last",
        ),
        (
            "--mode recheck --seed 65535 a.c",
            "recheck 2 2 100000 - - 65535 [a.c]",
            "the greatest seed",
        ),
        (
            "--mode gen --seed 0 g.c",
            "gen 2 2 100000 - - 0 [g.c]",
            "the least seed",
        ),
        (
            "--mode emit a.c",
            "emit 2 2 100000 - - - [a.c]",
            "mode emit needs nothing",
        ),
        (
            "--mode check --schedule s --seed 7 a.c",
            "check 2 2 100000 [s] - 7 [a.c]",
            "options that the mode does not use",
        ),
    ];
    compare(&rt, rt.alloc(), rows.as_slice())
}

#[test]
fn words_without_a_reading(rt: HostRuntime) -> Result<(), Fail> {
    let rows = [
        ("", "no file"),
        ("--", "no file after two dashes"),
        ("a.c b.c", "two files"),
        ("- -", "two files named by dashes"),
        ("--unwind 2 -- a.c b.c", "two files after two dashes"),
        ("--mode replay a.c", "a replay without a schedule"),
        ("--mode gen g.c", "no seed"),
        ("--unwind 2 --unwind 2 a.c", "an option twice"),
        ("--unwind=2 --unwind=2 a.c", "twice with its values"),
        ("--proof p --proof p a.c", "a text twice"),
        ("--unwind", "no value, no file"),
        ("a.c --unwind", "no value"),
        ("--unwind a.c", "the file is the value"),
        ("--unwind 0 a.c", "below the least"),
        ("--unwind 101 a.c", "over the greatest"),
        ("--rounds 0 a.c", "below the least"),
        ("--rounds 33 a.c", "over the greatest"),
        ("--conflicts 0 a.c", "below the least"),
        ("--conflicts 1000001 a.c", "over the greatest"),
        (
            "--seed 65536 a.c",
            "over the greatest, in a mode without a seed",
        ),
        (
            "--mode replay --schedule s --rounds 33 a.c",
            "over the greatest, in a mode without rounds",
        ),
        (
            "--mode recheck --seed 65536 a.c",
            "over the greatest, in a mode without a seed",
        ),
        ("--unwind= a.c", "no digits"),
        ("--unwind _ a.c", "no digits"),
        ("--unwind -5 a.c", "an option as value"),
        ("--unwind=-5 a.c", "a sign"),
        ("--unwind=+5 a.c", "a sign"),
        ("--unwind 5x a.c", "a letter"),
        ("--unwind 0x5 a.c", "a letter"),
        ("--unwind 000000000000000000005 a.c", "twenty-one digits"),
        ("--unwind 18446744073709551616 a.c", "more than 64 bits"),
        ("--mode Check a.c", "another mode"),
        ("--mode= a.c", "an empty mode"),
        ("--mode checks a.c", "another mode"),
        ("--mode race a.c", "another mode"),
        ("--schedule --x a.c", "an option as value"),
        ("--proof -- a.c", "two dashes as value"),
        ("--help", "help is no answer of its own"),
        ("-h", "nor is its short form"),
        ("a.c --help", "nor after a file"),
        ("--version", "no version is told"),
        ("-V", "nor by its short form"),
        ("-x", "no short options"),
        ("-u 2 a.c", "no short options"),
        ("--unw 2 a.c", "no option by its front"),
        ("--Unwind 2 a.c", "capital letters"),
        ("--file a.c", "the file is no option"),
        ("--buffer 2 a.c", "another option"),
        ("--=x a.c", "an option without a name"),
    ];
    refuse(&rt, rt.alloc(), rows.as_slice())
}
