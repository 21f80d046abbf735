//! What mode replay prints and answers, over a folder and a sink in memory. The expected texts were worked out by hand.

use lz_base::{Bytes, Memory, Name};
use lz_cli::{Evidence, Words, run};
use lz_outside::{Calls, File, Files, MemoryFolder, MemorySink, write_file};
use lz_tests::told::{AMPLE, Told, USAGE};
use std::alloc::Global;
use std::process::Abort;
use std::test::Fail;

/// Calls the command with these words, over a folder with the source `a.c` and the schedule `s`, whose listed calls fail.
pub fn call(
    alloc: Global,
    words: &[&str],
    source: &str,
    schedule: &[u8],
    fails: Calls,
) -> Result<Told, Memory> {
    let mut given = Words::new(alloc);
    for word in words {
        given.push(Name::new(alloc, word)?)?;
    }
    let mut bytes = Bytes::new(alloc);
    bytes.append(source.as_bytes())?;
    let mut files = Files::new(alloc);
    files.push(File {
        name: Name::new(alloc, "a.c")?,
        bytes,
    })?;
    let mut folder = MemoryFolder::new(alloc, files, 1, AMPLE, fails)?;
    if write_file(&mut folder, "s", schedule).is_err() {
        return Err(Memory);
    }
    let mut sink = MemorySink::new(alloc, AMPLE, Calls::new(alloc))?;
    let ended = run(alloc, &given, &mut folder, &mut sink);
    let mut text = Bytes::new(alloc);
    text.append(sink.written())?;
    Ok(Told { text, ended })
}

/// Two threads that add one to a cell, each with a read and a write.
pub const INCREMENTS: &str =
    "int x;\nvoid *inc(void *arg) {\n  x = x + 1;\n  return NULL;\n}\nint main(void) {\n  pthread_t a, b;\n  pthread_create(&a, NULL, inc, NULL);\n  pthread_create(&b, NULL, inc, NULL);\n  pthread_join(a, NULL);\n  pthread_join(b, NULL);\n  assert(x == 2);\n}\n";

/// A free input, and a check that the greatest int breaks.
const FREE: &str =
    "int main(void) {\n  int x = __VERIFIER_nondet_int();\n  assert(x + 1 > x);\n}\n";

/// A thread that waits on a condition, and a signal that comes when it waits.
const WAITING: &str =
    "pthread_mutex_t m;\npthread_cond_t c;\nvoid *f(void *a) {\n  pthread_mutex_lock(&m);\n  pthread_cond_wait(&c, &m);\n  assert(0);\n  return NULL; }\nint main(void) { pthread_t t;\n  pthread_create(&t, NULL, f, NULL);\n  pthread_cond_signal(&c);\n  pthread_join(t, NULL);\n}\n";

/// A loop that may take one turn, two, or more.
const LOOP: &str = "int main(void) { int i = 0; while (i < 3) i = i + 1; assert(i != 3); }";

/// A source, a schedule, the report, the status, and the reason of the row.
type Row = (&'static str, &'static str, &'static str, u8, &'static str);

const REPLAYS: [Row; 16] = [
    (
        INCREMENTS,
        "FAILED\ncheck assert line 12\nrounds 3\nstep 0 0\nstep 0 0\nstep 1 0\nstep 2 0\nstep 2 0\nstep 2 0\nstep 1 0\nstep 1 0\nstep 0 0\nstep 0 0\nstep 0 0\nstep 0 0\n",
        "BROKEN check assert line 12 events 12\n",
        1,
        "an increment is lost",
    ),
    (
        INCREMENTS,
        "step 0 0\nstep 0 0\nstep 1 0\nstep 2 0\nstep 2 0\nstep 2 0\nstep 1 0\nstep 1 0\nstep 0 0\nstep 0 0\nstep 0 0\nstep 0 0\nstep 0 0\n",
        "NOTARUN index 12\n",
        9,
        "nothing follows a check that breaks",
    ),
    (
        INCREMENTS,
        "step 0 0\nstep 0 0\nstep 1 0\nstep 2 0\nstep 2 0",
        "HOLDS events 5\n",
        0,
        "a front of the run, and no newline at the end",
    ),
    (
        INCREMENTS,
        "step 1 0\n",
        "NOTARUN index 0\n",
        9,
        "thread 1 is not made",
    ),
    (INCREMENTS, "", "HOLDS events 0\n", 0, "no step"),
    (
        INCREMENTS,
        "step 0 0\nstep 0 0\nstep 0 0\n",
        "NOTARUN index 2\n",
        9,
        "a join waits for the end of the thread",
    ),
    (
        INCREMENTS,
        "step 0 0\nstep 0 0\nstep 3 0\n",
        "NOTARUN index 2\n",
        9,
        "no third thread",
    ),
    (
        INCREMENTS,
        "step 0 1\n",
        "NOTARUN index 0\n",
        9,
        "a create has no choice",
    ),
    (
        FREE,
        "step 0 2147483647\nstep 0 0\n",
        "BROKEN check assert line 3 events 2\n",
        1,
        "the greatest int",
    ),
    (
        FREE,
        "step 0 5\nstep 0 0\n",
        "HOLDS events 2\n",
        0,
        "another input",
    ),
    (
        FREE,
        "step 0 4294967296\n",
        "NOTARUN index 0\n",
        9,
        "no word is so large",
    ),
    (
        WAITING,
        "step 0 0\nstep 1 0\nstep 1 0\nstep 0 2\nstep 1 0\nstep 1 0\n",
        "BROKEN check assert line 6 events 6\n",
        1,
        "the signal wakes thread 1",
    ),
    (
        WAITING,
        "step 0 0\nstep 1 0\nstep 1 0\nstep 0 0\n",
        "NOTARUN index 3\n",
        9,
        "a signal wakes somebody where somebody waits",
    ),
    (
        WAITING,
        "step 0 0\nstep 0 0\nstep 1 0\nstep 1 0\nstep 1 0\n",
        "NOTARUN index 4\n",
        9,
        "a signal before the wait is lost",
    ),
    (
        LOOP,
        "",
        "HOLDS events 0\n",
        0,
        "a loop that is cut comes to no check",
    ),
    (
        LOOP,
        "step 0 0\n",
        "NOTARUN index 0\n",
        9,
        "within two turns",
    ),
];

/// A schedule of the two increments, which has no step: the report, the status, and the reason of the row.
type TextRow = (&'static str, &'static str, u8, &'static str);

const TEXTS: [TextRow; 17] = [
    ("step 0\n", "TEXT line 1\n", 10, "no choice"),
    ("\n\nstep 0 0 \n", "TEXT line 3\n", 10, "a space behind"),
    ("step  0 0\n", "TEXT line 1\n", 10, "two spaces"),
    (" step 0 0\n", "TEXT line 1\n", 10, "a space before"),
    ("step 00 0\n", "TEXT line 1\n", 10, "a leading zero"),
    (
        "step 0 00\n",
        "TEXT line 1\n",
        10,
        "a leading zero of the choice",
    ),
    (
        "step 4294967296 0\n",
        "TEXT line 1\n",
        10,
        "no thread of this number",
    ),
    (
        "step 0 18446744073709551616\n",
        "TEXT line 1\n",
        10,
        "no choice of this number",
    ),
    ("step -1 0\n", "TEXT line 1\n", 10, "a sign"),
    ("step 0 0 0\n", "TEXT line 1\n", 10, "three numbers"),
    ("step 0 0\r\n", "TEXT line 1\n", 10, "a carriage return"),
    ("Step 0 0\n", "TEXT line 1\n", 10, "another word"),
    ("FAILED \n", "TEXT line 1\n", 10, "more behind the word"),
    ("check\n", "TEXT line 1\n", 10, "no space behind `check`"),
    (
        "FAILED\nrounds\n",
        "TEXT line 2\n",
        10,
        "no space behind `rounds`",
    ),
    (
        "\nFAILED\n\nFAILED\ncheck \nrounds x\ncheck 1\n",
        "HOLDS events 0\n",
        0,
        "lines that say nothing",
    ),
    (
        "step 0 0\nstep 4294967295 18446744073709551615\n",
        "NOTARUN index 1\n",
        9,
        "the greatest numbers",
    ),
];

pub fn compare(rt: &impl Abort, told: &Told, report: &[u8], status: u8, reason: &str) {
    assert_eq!(rt; told.text.items(), report, "{reason}");
    assert_eq!(rt; told.ended.status, status, "{reason}");
    assert!(rt;
        matches!(&told.ended.evidence, Evidence::Nothing),
        "{reason}"
    );
}

/// The words of a replay with the default bounds.
pub const PLAIN: [&str; 5] = ["--mode", "replay", "--schedule", "s", "a.c"];

/// Replays each row's schedule of its source.
fn replay_rows(rt: &impl Abort, alloc: Global, rows: &[Row]) -> Result<(), Fail> {
    for (source, schedule, report, status, reason) in rows {
        let told = call(
            alloc,
            &PLAIN,
            source,
            schedule.as_bytes(),
            Calls::new(alloc),
        )
        .ok()
        .ok_or("memory")?;
        compare(rt, &told, report.as_bytes(), *status, reason);
    }
    Ok(())
}

/// Replays each row's schedule of one source.
fn replay_texts(rt: &impl Abort, alloc: Global, rows: &[TextRow]) -> Result<(), Fail> {
    for (schedule, report, status, reason) in rows {
        let told = call(
            alloc,
            &PLAIN,
            INCREMENTS,
            schedule.as_bytes(),
            Calls::new(alloc),
        )
        .ok()
        .ok_or("memory")?;
        compare(rt, &told, report.as_bytes(), *status, reason);
    }
    Ok(())
}

#[test]
fn replays(rt: HostRuntime) -> Result<(), Fail> {
    replay_rows(&rt, rt.alloc(), &REPLAYS)?;
    replay_texts(&rt, rt.alloc(), &TEXTS)
}

/// Words of a replay, a source, the report, the status, and the reason of the row. The schedule is one step of `main`.
type CallRow<'a> = (&'a [&'a str], &'a str, &'a str, u8, &'a str);

/// Calls the command with each row's words over its source.
fn call_rows(rt: &impl Abort, alloc: Global, rows: &[CallRow<'_>]) -> Result<(), Fail> {
    for (words, source, report, status, reason) in rows {
        let told = call(alloc, words, source, b"step 0 0\n", Calls::new(alloc))
            .ok()
            .ok_or("memory")?;
        compare(rt, &told, report.as_bytes(), *status, reason);
    }
    Ok(())
}

#[test]
fn words_of_replays(rt: HostRuntime) -> Result<(), Fail> {
    let loops = "int main(void) { while (1) while (1) ; }";
    let table: [CallRow<'_>; 15] = [
        (
            &[
                "--mode",
                "replay",
                "--unwind",
                "3",
                "--schedule",
                "s",
                "a.c",
            ],
            LOOP,
            "BROKEN check assert line 1 events 1\n",
            1,
            "three turns come to the check",
        ),
        (
            &[
                "--mode",
                "replay",
                "--unwind",
                "100",
                "--schedule",
                "s",
                "a.c",
            ],
            LOOP,
            "BROKEN check assert line 1 events 1\n",
            1,
            "the most turns",
        ),
        (
            &[
                "--mode",
                "replay",
                "--unwind",
                "00000000000000000003",
                "--schedule",
                "s",
                "a.c",
            ],
            LOOP,
            "BROKEN check assert line 1 events 1\n",
            1,
            "twenty digits",
        ),
        (
            &[
                "--mode",
                "replay",
                "--unwind",
                "60",
                "--schedule",
                "s",
                "a.c",
            ],
            loops,
            "NOTARUN index 0\n",
            9,
            "the cost is taken with one round",
        ),
        (
            &["--unwind", "60", "a.c"],
            loops,
            "LIMIT cost 15249408 over 10000000\n",
            5,
            "and with two where the program is decided",
        ),
        (
            &["--mode", "replay", "--schedule", "no", "a.c"],
            LOOP,
            "READ no\n",
            6,
            "no schedule of the name",
        ),
        (
            &["--mode", "replay", "--schedule", "no", "no.c"],
            LOOP,
            "READ no.c\n",
            6,
            "the source comes first",
        ),
        (
            &["--mode", "replay", "--schedule", "no", "a.c"],
            "int main(void) { return y; }",
            "SOURCE line 1 rule 1\n",
            4,
            "a rule comes before the schedule",
        ),
        (
            &["--mode", "replay", "--schedule", "a.c", "a.c"],
            "int main(void) { }",
            "TEXT line 1\n",
            10,
            "a source is no schedule",
        ),
        (
            &[
                "--mode",
                "replay",
                "--unwind",
                "0",
                "--schedule",
                "s",
                "a.c",
            ],
            LOOP,
            USAGE,
            3,
            "no turn",
        ),
        (
            &[
                "--mode",
                "replay",
                "--unwind",
                "101",
                "--schedule",
                "s",
                "a.c",
            ],
            LOOP,
            USAGE,
            3,
            "a turn too many",
        ),
        (
            &[
                "--mode",
                "replay",
                "--unwind",
                "000000000000000000003",
                "--schedule",
                "s",
                "a.c",
            ],
            LOOP,
            USAGE,
            3,
            "twenty-one digits",
        ),
        (
            &["--unwind", "18446744073709551617", "a.c"],
            LOOP,
            USAGE,
            3,
            "a number of 65 bits is not 1",
        ),
        (&["--mode", "replay", "a.c"], LOOP, USAGE, 3, "no schedule"),
        (
            &["--mode", "replay", "--schedule", "-", "a.c"],
            LOOP,
            "READ -\n",
            6,
            "a schedule whose name is a dash",
        ),
    ];
    call_rows(&rt, rt.alloc(), &table)
}

/// A read of the schedule that fails is told by the schedule's name. The first two calls wrote it, the next two read the source.
#[test]
fn a_failing_read_of_a_schedule(rt: HostRuntime) -> Result<(), Fail> {
    let mut fails = Calls::new(rt.alloc());
    fails.push(4).ok().ok_or("memory")?;
    let told = call(rt.alloc(), &PLAIN, LOOP, b"step 0 0\n", fails)
        .ok()
        .ok_or("memory")?;
    compare(&rt, &told, b"READ s\n", 6, "the fifth call of the folder");
    Ok(())
}
