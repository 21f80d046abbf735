//! What each action comes to in a replay: where it goes, where it is blocked and where it breaks a check. The answers were
//! worked out by hand from the table of actions.

use crate::replays::{PLAIN, call, compare};
use lz_base::{Bytes, Memory};
use lz_outside::Calls;
use std::alloc::Global;
use std::process::Abort;
use std::test::Fail;

/// The thread of a step, and its choice.
type Step = (u32, u64);

/// A source, and the steps with which each of its schedules begins.
type Setting = (&'static str, &'static [Step]);

/// A setting, the further steps, how the report begins, and the reason of the row.
type Row = (Setting, &'static [Step], &'static str, &'static str);

/// All steps go.
const GOES: &str = "HOLDS events ";

/// The last step is the first that no run has.
const BLOCKED: &str = "NOTARUN index ";

/// How a report goes on behind its first words: the number of all steps, or the index of the last.
fn number_of(want: &str, count: usize) -> u64 {
    if want == BLOCKED {
        (count as u64).saturating_sub(1)
    } else {
        count as u64
    }
}

fn status_of(want: &str) -> u8 {
    if want == GOES {
        0
    } else if want == BLOCKED {
        9
    } else {
        1
    }
}

fn append_steps(text: &mut Bytes, steps: &[Step]) -> Result<(), Memory> {
    for step in steps {
        text.append(b"step ")?;
        text.append_number(u64::from(step.0))?;
        text.append(b" ")?;
        text.append_number(step.1)?;
        text.append(b"\n")?;
    }
    Ok(())
}

fn schedule_of(alloc: Global, front: &[Step], steps: &[Step]) -> Result<Bytes, Memory> {
    let mut text = Bytes::new(alloc);
    append_steps(&mut text, front)?;
    append_steps(&mut text, steps)?;
    Ok(text)
}

fn report_of(alloc: Global, want: &str, count: usize) -> Result<Bytes, Memory> {
    let mut text = Bytes::new(alloc);
    text.append(want.as_bytes())?;
    text.append_number(number_of(want, count))?;
    text.append(b"\n")?;
    Ok(text)
}

/// Replays the steps behind a front, and compares what is told.
fn replay_so(
    rt: &impl Abort,
    alloc: Global,
    source: &str,
    front: &[Step],
    steps: &[Step],
    want: &str,
    reason: &str,
) -> Result<(), Fail> {
    let schedule = schedule_of(alloc, front, steps).ok().ok_or("memory")?;
    let count = front.len().saturating_add(steps.len());
    let report = report_of(alloc, want, count).ok().ok_or("memory")?;
    let told = call(alloc, &PLAIN, source, schedule.items(), Calls::new(alloc))
        .ok()
        .ok_or("memory")?;
    compare(rt, &told, report.items(), status_of(want), reason);
    Ok(())
}

fn replay_rows(rt: &impl Abort, alloc: Global, rows: &[Row]) -> Result<(), Fail> {
    for (setting, steps, want, reason) in rows {
        replay_so(rt, alloc, setting.0, setting.1, steps, want, reason)?;
    }
    Ok(())
}

/// A thread whose argument, an input of `main`, picks its action, beside an atomic section of `main`.
const PICKED: &str =
    "int x;\npthread_mutex_t m;\npthread_cond_t c;\nvoid *f(void *a) {\n  int k = (int)a;\n  if (k == 1) __VERIFIER_nondet_int();\n  if (k == 2) assert(1);\n  if (k == 3) assert(0);\n  if (k == 4) __VERIFIER_assume(1);\n  if (k == 5) __VERIFIER_assume(0);\n  if (k == 6) x;\n  if (k == 7) x = 1;\n  if (k == 8) pthread_mutex_init(&m, NULL);\n  if (k == 9) pthread_mutex_lock(&m);\n  if (k == 10) pthread_mutex_unlock(&m);\n  if (k == 11) pthread_cond_wait(&c, &m);\n  if (k == 12) pthread_cond_signal(&c);\n  if (k == 13) pthread_cond_broadcast(&c);\n  if (k == 14) __VERIFIER_atomic_begin();\n  if (k == 15) __VERIFIER_atomic_end();\n  return NULL;\n}\nint main(void) {\n  pthread_t t;\n  pthread_create(&t, NULL, f, (void *)__VERIFIER_nondet_int());\n  __VERIFIER_atomic_begin();\n  __VERIFIER_atomic_end();\n}\n";

/// The number that picks an action, whether it waits for the holder of a section, what it comes to by itself, and the
/// action.
type Pick = (u64, bool, &'static str, &'static str);

/// All actions that are picked.
const PICKS: [Pick; 16] = [
    (0, false, GOES, "the end of a thread"),
    (1, false, GOES, "an input"),
    (2, false, GOES, "a check of 1"),
    (
        3,
        false,
        "BROKEN check assert line 8 events ",
        "a check of 0",
    ),
    (4, false, GOES, "an assumption of 1"),
    (5, false, BLOCKED, "an assumption of 0"),
    (6, true, GOES, "a read"),
    (7, true, GOES, "a write"),
    (8, true, GOES, "a reset"),
    (9, true, GOES, "a lock"),
    (10, true, "BROKEN check unlock line 15 events ", "an unlock"),
    (11, true, "BROKEN check wait line 16 events ", "a park"),
    (12, true, GOES, "a signal of nobody"),
    (13, true, GOES, "a broadcast"),
    (14, true, GOES, "the begin of a section"),
    (15, false, GOES, "the end of a section"),
];

/// The steps behind the pick of an action, and how the report begins.
type Further<'a> = (&'a [Step], &'a str);

/// Replays each row's steps behind the pick of an action.
fn replay_further(
    rt: &impl Abort,
    alloc: Global,
    front: &[Step],
    rows: &[Further<'_>],
    reason: &str,
) -> Result<(), Fail> {
    for (steps, want) in rows {
        replay_so(rt, alloc, PICKED, front, steps, want, reason)?;
    }
    Ok(())
}

/// Replays an action by itself, while another thread holds the section, behind that, and behind the end of the process; and
/// by a thread that is not made.
fn replay_pick(rt: &impl Abort, alloc: Global, row: &Pick) -> Result<(), Fail> {
    let (pick, waits, want, reason) = *row;
    let front: [Step; 2] = [(0, pick), (0, 0)];
    let held = if waits { BLOCKED } else { want };
    let rows: [Further<'_>; 5] = [
        (&[(1, 0)], want),
        (&[(0, 0), (1, 0)], held),
        (&[(0, 0), (0, 0), (1, 0)], want),
        (&[(0, 0), (0, 0), (0, 0), (1, 0)], BLOCKED),
        (&[(2, 0)], BLOCKED),
    ];
    replay_further(rt, alloc, &front, &rows, reason)
}

/// Replays each pick.
fn replay_picks(rt: &impl Abort, alloc: Global, rows: &[Pick]) -> Result<(), Fail> {
    for row in rows {
        replay_pick(rt, alloc, row)?;
    }
    Ok(())
}

/// Replays each pick with the choice 1 in place of 0.
fn replay_choices(rt: &impl Abort, alloc: Global, rows: &[Pick]) -> Result<(), Fail> {
    for (pick, _, _, reason) in rows {
        let front: [Step; 2] = [(0, *pick), (0, 0)];
        let want = if *pick == 1 { GOES } else { BLOCKED };
        replay_so(rt, alloc, PICKED, &front, &[(1, 1)], want, reason)?;
    }
    Ok(())
}

/// Each action of a thread by itself, while another thread holds the section, behind that, and behind the end of the
/// process; and by a thread that is not made.
#[test]
fn picked_actions(rt: HostRuntime) -> Result<(), Fail> {
    replay_picks(&rt, rt.alloc(), &PICKS)
}

/// No action but an input has a choice of 1, whatever it comes to by 0.
#[test]
fn picked_choices(rt: HostRuntime) -> Result<(), Fail> {
    replay_choices(&rt, rt.alloc(), &PICKS)
}

/// An input of each kind.
const INPUTS: Setting = (
    "int main(void) { __VERIFIER_nondet_int(); __VERIFIER_nondet_uint(); }",
    &[],
);

/// Actions on a local object alone, and then a check of 0.
const LOCALS: Setting = (
    "int main(void) { int i = 2; while (i) i--; reach_error(); }",
    &[],
);

/// A check of an input.
const ASSERTS: Setting = ("int main(void) {\n assert(__VERIFIER_nondet_int()); }", &[]);

/// A write of an element whose index is an input.
const INDEXES: Setting = (
    "int a[2];\nint main(void) {\n int i = __VERIFIER_nondet_int();\n a[i] = 1; }",
    &[],
);

/// An assignment of an input past the end.
const ASSIGNS: Setting = (
    "int a[2];\nint main(void) {\n a[2] = __VERIFIER_nondet_int(); }",
    &[],
);

/// The same with an operator.
const ADDS: Setting = (
    "int a[2];\nint main(void) {\n a[2] += __VERIFIER_nondet_int(); }",
    &[],
);

/// An assignment with an operator in range.
const ADDS_WITHIN: Setting = (
    "int a[2];\nint main(void) {\n a[1] += __VERIFIER_nondet_int(); }",
    &[],
);

/// A division by an input.
const DIVIDES: Setting = ("int main(void) {\n 1 / __VERIFIER_nondet_int(); }", &[]);

/// A remainder that is assigned.
const REMAINS: Setting = (
    "int x;\nint main(void) {\n x %= __VERIFIER_nondet_int(); }",
    &[],
);

/// A place that is not to be reached, by both names, of which an input picks one.
const REACHES: Setting = (
    "int main(void) {\n if (__VERIFIER_nondet_int()) reach_error();\n __VERIFIER_error(); }",
    &[],
);

/// An assumption of an input.
const ASSUMES: Setting = (
    "int main(void) { __VERIFIER_assume(__VERIFIER_nondet_int()); }",
    &[],
);

/// An assumption that never holds.
const ABORTS: Setting = ("int main(void) { abort(); }", &[]);

/// A thread that writes a cell, which `main` reads.
const CELLS: Setting = (
    "int x = 5; void *f(void *a) { x = 7; return NULL; } int main(void) { pthread_t t; pthread_create(&t, NULL, f, NULL);\n assert(x == 5); }",
    &[(0, 0)],
);

/// Inputs, checks, assumptions, reads and writes.
const VALUES: [Row; 29] = [
    (
        INPUTS,
        &[(0, 0), (0, 0), (0, 0)],
        GOES,
        "two inputs of 0, and the end",
    ),
    (
        INPUTS,
        &[(0, 4294967295), (0, 4294967295)],
        GOES,
        "the greatest word of each kind",
    ),
    (INPUTS, &[(0, 4294967296)], BLOCKED, "no `int` is so large"),
    (
        INPUTS,
        &[(0, 0), (0, 4294967296)],
        BLOCKED,
        "no `unsigned` is so large",
    ),
    (
        INPUTS,
        &[(0, 18446744073709551615)],
        BLOCKED,
        "the greatest choice is no word",
    ),
    (
        LOCALS,
        &[(0, 0)],
        "BROKEN check reached line 1 events ",
        "local actions have no step",
    ),
    (ASSERTS, &[(0, 1), (0, 0)], GOES, "a check of 1"),
    (ASSERTS, &[(0, 4294967295), (0, 0)], GOES, "a check of -1"),
    (
        ASSERTS,
        &[(0, 0), (0, 0)],
        "BROKEN check assert line 2 events ",
        "a check of 0",
    ),
    (
        ASSERTS,
        &[(0, 0), (0, 0), (0, 0)],
        BLOCKED,
        "nothing follows a check that breaks",
    ),
    (
        INDEXES,
        &[(0, 1), (0, 0), (0, 0), (0, 0)],
        GOES,
        "an index in range: its check, the write and the end",
    ),
    (
        INDEXES,
        &[(0, 2), (0, 0)],
        "BROKEN check bounds line 4 events ",
        "an index of the length",
    ),
    (
        INDEXES,
        &[(0, 4294967295), (0, 0)],
        "BROKEN check bounds line 4 events ",
        "an index of -1",
    ),
    (
        ASSIGNS,
        &[(0, 7), (0, 0)],
        "BROKEN check bounds line 3 events ",
        "the value comes before the check of the index",
    ),
    (
        ADDS,
        &[(0, 0)],
        "BROKEN check bounds line 3 events ",
        "with an operator the check of the index comes first",
    ),
    (ADDS, &[(0, 7)], BLOCKED, "so there is no input before it"),
    (
        ADDS_WITHIN,
        &[(0, 0), (0, 0), (0, 7), (0, 0), (0, 0)],
        GOES,
        "the check, the read, the value, the write and the end",
    ),
    (DIVIDES, &[(0, 1), (0, 0), (0, 0)], GOES, "a divisor of 1"),
    (
        DIVIDES,
        &[(0, 0), (0, 0)],
        "BROKEN check divzero line 2 events ",
        "a divisor of 0",
    ),
    (
        REMAINS,
        &[(0, 0), (0, 1), (0, 0), (0, 0), (0, 0)],
        GOES,
        "a read, the divisor, its check, the write and the end",
    ),
    (
        REMAINS,
        &[(0, 0), (0, 0), (0, 0)],
        "BROKEN check divzero line 3 events ",
        "a remainder by 0",
    ),
    (
        REACHES,
        &[(0, 1), (0, 0)],
        "BROKEN check reached line 2 events ",
        "one name of what is not to be reached",
    ),
    (
        REACHES,
        &[(0, 0), (0, 0)],
        "BROKEN check reached line 3 events ",
        "the other name",
    ),
    (
        ASSUMES,
        &[(0, 1), (0, 0), (0, 0)],
        GOES,
        "an assumption of 1",
    ),
    (ASSUMES, &[(0, 0), (0, 0)], BLOCKED, "an assumption of 0"),
    (ABORTS, &[(0, 0)], BLOCKED, "`abort` is an assumption of 0"),
    (
        CELLS,
        &[(0, 0), (0, 0)],
        GOES,
        "a read finds the first value",
    ),
    (
        CELLS,
        &[(1, 0), (0, 0), (0, 0)],
        "BROKEN check assert line 2 events ",
        "a read finds what was written last",
    ),
    (
        CELLS,
        &[(0, 0), (1, 0), (0, 0)],
        GOES,
        "a write behind a read does not change what it found",
    ),
];

#[test]
fn values(rt: HostRuntime) -> Result<(), Fail> {
    replay_rows(&rt, rt.alloc(), &VALUES)
}

/// A thread that locks a mutex, which `main` holds and resets.
const RESETS: Setting = (
    "pthread_mutex_t m; void *f(void *a) { pthread_mutex_lock(&m); return NULL; } int main(void) { pthread_t t; pthread_create(&t, NULL, f, NULL); pthread_mutex_lock(&m); pthread_mutex_init(&m, NULL); pthread_mutex_init(&m, NULL);\n pthread_mutex_unlock(&m); }",
    &[(0, 0), (0, 0)],
);

/// Two threads that lock a mutex, of which `main` does so twice.
const LOCKS: Setting = (
    "pthread_mutex_t m; pthread_mutex_t n; void *f(void *a) { pthread_mutex_lock(&m); pthread_mutex_lock(&n); return NULL; } int main(void) { pthread_t t; pthread_create(&t, NULL, f, NULL); pthread_mutex_lock(&m); pthread_mutex_lock(&m); }",
    &[(0, 0)],
);

/// A thread that unlocks a mutex twice, and one that unlocks what it never locked.
const UNLOCKS: Setting = (
    "pthread_mutex_t m; void *f(void *a) { pthread_mutex_lock(&m); pthread_mutex_unlock(&m);\n pthread_mutex_unlock(&m); return NULL; } void *g(void *a) {\n pthread_mutex_unlock(&m); return NULL; } int main(void) { pthread_t s; pthread_t t; pthread_create(&s, NULL, f, NULL); pthread_create(&t, NULL, g, NULL); pthread_mutex_lock(&m); }",
    &[(0, 0), (0, 0)],
);

/// Resets, locks and unlocks.
const MUTEXES: [Row; 16] = [
    (RESETS, &[(1, 0)], BLOCKED, "`main` owns the mutex"),
    (
        RESETS,
        &[(0, 0), (1, 0)],
        GOES,
        "a reset of a mutex that is held frees it",
    ),
    (
        RESETS,
        &[(0, 0), (0, 0)],
        GOES,
        "a reset of a free one goes",
    ),
    (
        RESETS,
        &[(0, 0), (1, 0), (0, 0)],
        GOES,
        "so does one of a mutex that another thread holds",
    ),
    (
        RESETS,
        &[(0, 0), (0, 0), (0, 0)],
        "BROKEN check unlock line 2 events ",
        "behind a reset nobody owns it",
    ),
    (LOCKS, &[(0, 0)], GOES, "a free mutex"),
    (LOCKS, &[(1, 0)], GOES, "a free mutex, by another thread"),
    (LOCKS, &[(0, 0), (1, 0)], BLOCKED, "`main` owns it"),
    (
        LOCKS,
        &[(0, 0), (0, 0)],
        BLOCKED,
        "a lock of what the thread itself owns",
    ),
    (LOCKS, &[(1, 0), (1, 0)], GOES, "another mutex is free"),
    (
        LOCKS,
        &[(1, 0), (1, 0), (1, 0), (0, 0)],
        BLOCKED,
        "a thread that has ended still owns it",
    ),
    (UNLOCKS, &[(1, 0), (1, 0)], GOES, "the owner frees it"),
    (
        UNLOCKS,
        &[(1, 0), (1, 0), (0, 0)],
        GOES,
        "and it can be locked again",
    ),
    (
        UNLOCKS,
        &[(1, 0), (1, 0), (1, 0)],
        "BROKEN check unlock line 2 events ",
        "a second unlock",
    ),
    (
        UNLOCKS,
        &[(2, 0)],
        "BROKEN check unlock line 3 events ",
        "an unlock of a free mutex",
    ),
    (
        UNLOCKS,
        &[(1, 0), (2, 0)],
        "BROKEN check unlock line 3 events ",
        "an unlock by another thread",
    ),
];

#[test]
fn mutexes(rt: HostRuntime) -> Result<(), Fail> {
    replay_rows(&rt, rt.alloc(), &MUTEXES)
}

/// A thread that waits with a mutex and one that waits without, and a signal of `main` that holds the mutex.
const WAITING: &str =
    "pthread_mutex_t m; pthread_cond_t c; void *f(void *a) { pthread_mutex_lock(&m); pthread_cond_wait(&c, &m); return NULL; } void *g(void *a) {\n pthread_cond_wait(&c, &m); return NULL; } int main(void) { pthread_t s; pthread_t t; pthread_create(&s, NULL, f, NULL); pthread_create(&t, NULL, g, NULL); pthread_mutex_lock(&m); pthread_cond_signal(&c); pthread_mutex_unlock(&m); pthread_mutex_lock(&m); }";

/// Both threads are made.
const PARKS: Setting = (WAITING, &[(0, 0), (0, 0)]);

/// And the first waits.
const WAITS: Setting = (WAITING, &[(0, 0), (0, 0), (1, 0), (1, 0)]);

/// A thread that waits, a signal, and an atomic section of `main`.
const WAKES: Setting = (
    "pthread_mutex_t m; pthread_cond_t c; void *f(void *a) { pthread_mutex_lock(&m); pthread_cond_wait(&c, &m); return NULL; } int main(void) { pthread_t t; pthread_create(&t, NULL, f, NULL); pthread_cond_signal(&c); __VERIFIER_atomic_begin(); __VERIFIER_atomic_end(); }",
    &[(0, 0), (1, 0), (1, 0)],
);

/// Threads 1 and 2 wait on a condition, and thread 3 on another one; then three signals of the first.
const SIGNALS: Setting = (
    "pthread_mutex_t m; pthread_cond_t c; pthread_cond_t d; void *f(void *a) { pthread_mutex_lock(&m); pthread_cond_wait(&c, &m); pthread_mutex_unlock(&m); return NULL; } void *g(void *a) { pthread_mutex_lock(&m); pthread_cond_wait(&d, &m); pthread_mutex_unlock(&m); return NULL; } int main(void) { pthread_t r; pthread_t s; pthread_t t; pthread_create(&r, NULL, f, NULL); pthread_create(&s, NULL, f, NULL); pthread_create(&t, NULL, g, NULL); pthread_cond_signal(&c); pthread_cond_signal(&c); pthread_cond_signal(&c); }",
    &[
        (0, 0),
        (0, 0),
        (0, 0),
        (1, 0),
        (1, 0),
        (2, 0),
        (2, 0),
        (3, 0),
        (3, 0),
    ],
);

/// The same with a broadcast and a signal.
const BROADCASTS: Setting = (
    "pthread_mutex_t m; pthread_cond_t c; pthread_cond_t d; void *f(void *a) { pthread_mutex_lock(&m); pthread_cond_wait(&c, &m); pthread_mutex_unlock(&m); return NULL; } void *g(void *a) { pthread_mutex_lock(&m); pthread_cond_wait(&d, &m); pthread_mutex_unlock(&m); return NULL; } int main(void) { pthread_t r; pthread_t s; pthread_t t; pthread_create(&r, NULL, f, NULL); pthread_create(&s, NULL, f, NULL); pthread_create(&t, NULL, g, NULL); pthread_cond_broadcast(&c); pthread_cond_signal(&c); }",
    &[
        (0, 0),
        (0, 0),
        (0, 0),
        (1, 0),
        (1, 0),
        (2, 0),
        (2, 0),
        (3, 0),
        (3, 0),
    ],
);

/// Waits, which are a park and a wake, signals and broadcasts.
const CONDITIONS: [Row; 28] = [
    (PARKS, &[(1, 0), (1, 0)], GOES, "a wait with the mutex"),
    (
        PARKS,
        &[(1, 0), (1, 0), (0, 0)],
        GOES,
        "a thread that waits has given the mutex up",
    ),
    (
        PARKS,
        &[(2, 0)],
        "BROKEN check wait line 2 events ",
        "a wait with a free mutex",
    ),
    (
        PARKS,
        &[(1, 0), (2, 0)],
        "BROKEN check wait line 2 events ",
        "a wait with the mutex of another thread",
    ),
    (
        PARKS,
        &[(0, 0), (0, 0), (0, 0), (1, 0), (1, 0), (1, 0)],
        BLOCKED,
        "a signal before the wait is lost",
    ),
    (WAITS, &[(1, 0)], BLOCKED, "nobody has woken it"),
    (
        WAITS,
        &[(0, 0), (0, 2), (1, 0)],
        BLOCKED,
        "it is woken, and the mutex is not free",
    ),
    (
        WAITS,
        &[(0, 0), (0, 2), (0, 0), (1, 0), (1, 0)],
        GOES,
        "it is woken, the mutex is free, and the thread ends",
    ),
    (
        WAITS,
        &[(0, 0), (0, 2), (0, 0), (1, 0), (0, 0)],
        BLOCKED,
        "a thread that has gone on owns the mutex",
    ),
    (WAKES, &[(0, 2), (1, 0)], GOES, "no thread holds a section"),
    (
        WAKES,
        &[(0, 2), (0, 0), (1, 0)],
        BLOCKED,
        "it waits for the holder of the section",
    ),
    (
        WAKES,
        &[(0, 2), (0, 0), (0, 0), (1, 0)],
        GOES,
        "the section has ended",
    ),
    (
        SIGNALS,
        &[(0, 2), (0, 3)],
        GOES,
        "each waits, one after the other",
    ),
    (SIGNALS, &[(0, 3), (0, 2)], GOES, "in the other order"),
    (
        SIGNALS,
        &[(0, 2), (0, 3), (0, 0)],
        GOES,
        "nobody waits on the condition",
    ),
    (
        SIGNALS,
        &[(0, 0)],
        BLOCKED,
        "nobody is woken where some thread waits",
    ),
    (
        SIGNALS,
        &[(0, 2), (0, 0)],
        BLOCKED,
        "a signal wakes one thread alone",
    ),
    (
        SIGNALS,
        &[(0, 2), (0, 2)],
        BLOCKED,
        "a thread that is woken waits no more",
    ),
    (
        SIGNALS,
        &[(0, 2), (2, 0)],
        BLOCKED,
        "a signal wakes its thread, and no other",
    ),
    (
        SIGNALS,
        &[(0, 2), (1, 0), (1, 0), (1, 0), (0, 3), (2, 0)],
        GOES,
        "the woken thread goes on to its end, then the other",
    ),
    (
        SIGNALS,
        &[(0, 4)],
        BLOCKED,
        "thread 3 waits on another condition",
    ),
    (SIGNALS, &[(0, 1)], BLOCKED, "`main` does not wait"),
    (SIGNALS, &[(0, 5)], BLOCKED, "there is no thread 4"),
    (
        SIGNALS,
        &[(0, 4294967298)],
        BLOCKED,
        "a choice is not taken modulo 2^32",
    ),
    (
        BROADCASTS,
        &[(0, 0), (1, 0), (1, 0), (2, 0)],
        GOES,
        "a broadcast wakes each thread that waits",
    ),
    (
        BROADCASTS,
        &[(0, 0), (2, 0), (1, 0)],
        BLOCKED,
        "of which one has the mutex at a time",
    ),
    (
        BROADCASTS,
        &[(0, 0), (3, 0)],
        BLOCKED,
        "a thread that waits on another condition waits on",
    ),
    (
        BROADCASTS,
        &[(0, 0), (0, 0)],
        GOES,
        "behind a broadcast nobody waits",
    ),
];

#[test]
fn conditions(rt: HostRuntime) -> Result<(), Fail> {
    replay_rows(&rt, rt.alloc(), &CONDITIONS)
}

/// Two creations with one object, and a join of it.
const CREATES: Setting = (
    "void *f(void *a) {\n assert((int)a); return NULL; } int main(void) { pthread_t t; pthread_create(&t, NULL, f, (void *)3); pthread_create(&t, NULL, f, (void *)0); pthread_join(t, NULL); }",
    &[],
);

/// Two joins of one thread.
const JOINS: Setting = (
    "void *f(void *a) { return NULL; } int main(void) { pthread_t t; pthread_create(&t, NULL, f, NULL); pthread_join(t, NULL);\n pthread_join(t, NULL); }",
    &[(0, 0)],
);

/// A join with an object that no creation has set.
const JOINS_NONE: Setting = (
    "int main(void) { pthread_t t;\n pthread_join(t, NULL); }",
    &[],
);

/// Threads that end in a section, two creations, and two joins, the second one with an object that none has set.
const KEPT_OUT: Setting = (
    "int x; void *f(void *a) { __VERIFIER_atomic_begin(); x = 1; return NULL; } int main(void) { pthread_t r; pthread_t s; pthread_t t; pthread_create(&r, NULL, f, NULL); pthread_create(&s, NULL, f, NULL); pthread_join(r, NULL);\n pthread_join(t, NULL); }",
    &[(0, 0)],
);

/// Creations and joins.
const THREADS: [Row; 17] = [
    (CREATES, &[(1, 0)], BLOCKED, "thread 1 is not made"),
    (
        CREATES,
        &[(0, 0), (1, 0), (1, 0)],
        GOES,
        "a thread has its argument, and ends",
    ),
    (
        CREATES,
        &[(0, 0), (1, 0), (1, 0), (1, 0)],
        BLOCKED,
        "behind its end it does nothing",
    ),
    (CREATES, &[(0, 0), (2, 0)], BLOCKED, "thread 2 is not made"),
    (
        CREATES,
        &[(0, 0), (4294967295, 0)],
        BLOCKED,
        "nor one of the greatest number",
    ),
    (
        CREATES,
        &[(0, 0), (0, 0), (2, 0)],
        "BROKEN check assert line 2 events ",
        "the second creation makes thread 2, with its own argument",
    ),
    (
        CREATES,
        &[(0, 0), (0, 0), (1, 0), (1, 0), (0, 0)],
        BLOCKED,
        "the object has the number of the last thread",
    ),
    (JOINS, &[(0, 0)], BLOCKED, "the thread has not ended"),
    (JOINS, &[(1, 0), (0, 0)], GOES, "the thread has ended"),
    (
        JOINS,
        &[(1, 0), (0, 0), (0, 0)],
        "BROKEN check join line 2 events ",
        "a join of a joined thread",
    ),
    (
        JOINS_NONE,
        &[(0, 0)],
        "BROKEN check join line 2 events ",
        "thread 0 is not to be joined",
    ),
    (
        KEPT_OUT,
        &[(1, 0), (0, 0)],
        BLOCKED,
        "a creation waits for the holder of the section",
    ),
    (
        KEPT_OUT,
        &[(1, 0), (1, 0), (1, 0), (0, 0)],
        GOES,
        "a thread that ends holds it no more",
    ),
    (
        KEPT_OUT,
        &[(0, 0), (1, 0), (1, 0), (1, 0), (0, 0)],
        GOES,
        "thread 1 has ended",
    ),
    (
        KEPT_OUT,
        &[(0, 0), (1, 0), (1, 0), (1, 0), (2, 0), (0, 0)],
        BLOCKED,
        "a join waits for the holder",
    ),
    (
        KEPT_OUT,
        &[(0, 0), (1, 0), (1, 0), (1, 0), (0, 0), (0, 0)],
        "BROKEN check join line 2 events ",
        "a join of thread 0",
    ),
    (
        KEPT_OUT,
        &[(0, 0), (1, 0), (1, 0), (1, 0), (0, 0), (2, 0), (0, 0)],
        BLOCKED,
        "it breaks nothing where it waits for the holder",
    ),
];

#[test]
fn threads(rt: HostRuntime) -> Result<(), Fail> {
    replay_rows(&rt, rt.alloc(), &THREADS)
}

/// A section with a begin within, and a thread that ends a section which it does not hold.
const SECTIONS: Setting = (
    "int x; void *f(void *a) { __VERIFIER_atomic_end(); x = 1; return NULL; } int main(void) { pthread_t t; pthread_create(&t, NULL, f, NULL); __VERIFIER_atomic_begin(); __VERIFIER_atomic_begin(); __VERIFIER_atomic_end(); }",
    &[(0, 0)],
);

/// All that waits for a holder, by the holder itself.
const HOLDS_ALL: Setting = (
    "int x; pthread_mutex_t m; pthread_cond_t c; void *f(void *a) { return NULL; } int main(void) { pthread_t t; __VERIFIER_atomic_begin(); x = x + 1; pthread_mutex_init(&m, NULL); pthread_mutex_lock(&m); pthread_mutex_unlock(&m); pthread_cond_signal(&c); pthread_cond_broadcast(&c); pthread_create(&t, NULL, f, NULL); pthread_join(t, NULL); pthread_mutex_lock(&m); pthread_cond_wait(&c, &m); }",
    &[],
);

/// An end of `main` alone in a section.
const ENDS_HOLDING: Setting = (
    "int x; void *f(void *a) { x = 1; return NULL; } int main(void) { pthread_t t; pthread_create(&t, NULL, f, NULL); __VERIFIER_atomic_begin(); pthread_exit(NULL); }",
    &[(0, 0)],
);

/// Sections that keep the other threads out.
const ATOMIC: [Row; 8] = [
    (
        SECTIONS,
        &[(1, 0), (1, 0)],
        GOES,
        "an end without a begin does nothing",
    ),
    (
        SECTIONS,
        &[(0, 0), (1, 0)],
        GOES,
        "an end by a thread that is not the holder goes",
    ),
    (
        SECTIONS,
        &[(0, 0), (1, 0), (1, 0)],
        BLOCKED,
        "and lets nobody in",
    ),
    (
        SECTIONS,
        &[(0, 0), (0, 0), (1, 0), (1, 0)],
        BLOCKED,
        "nor does it behind a begin within",
    ),
    (
        SECTIONS,
        &[(0, 0), (0, 0), (0, 0), (1, 0), (1, 0)],
        GOES,
        "the first end of the holder ends the section",
    ),
    (
        HOLDS_ALL,
        &[
            (0, 0),
            (0, 0),
            (0, 0),
            (0, 0),
            (0, 0),
            (0, 0),
            (0, 0),
            (0, 0),
            (0, 0),
            (1, 0),
            (0, 0),
            (0, 0),
            (0, 0),
        ],
        GOES,
        "the holder is not kept out, and a thread may end",
    ),
    (
        ENDS_HOLDING,
        &[(0, 0), (1, 0)],
        BLOCKED,
        "the section of `main`",
    ),
    (
        ENDS_HOLDING,
        &[(0, 0), (0, 0), (1, 0), (1, 0)],
        GOES,
        "its end lets the others in",
    ),
];

#[test]
fn sections(rt: HostRuntime) -> Result<(), Fail> {
    replay_rows(&rt, rt.alloc(), &ATOMIC)
}

/// A return of `main` while a thread runs.
const RETURNS: Setting = (
    "int x; void *f(void *a) { x = 1; return NULL; } int main(void) { pthread_t t; pthread_create(&t, NULL, f, NULL); return 0; }",
    &[(0, 0)],
);

/// `pthread_exit` in `main`, while a thread runs.
const EXITS: Setting = (
    "void *f(void *a) {\n assert(0); return NULL; } int main(void) { pthread_t t; pthread_create(&t, NULL, f, NULL); pthread_exit(NULL); reach_error(); }",
    &[(0, 0)],
);

/// `pthread_exit` in a function that `main` calls.
const EXITS_CALLED: Setting = (
    "void *f(void *a) {\n assert(0); return NULL; } void g(void) { pthread_exit(NULL); } int main(void) { pthread_t t; pthread_create(&t, NULL, f, NULL); g(); reach_error(); }",
    &[(0, 0)],
);

/// `pthread_exit` in a function that a thread calls.
const EXITS_THREAD: Setting = (
    "void g(void) { pthread_exit(NULL); } void *f(void *a) { g(); reach_error(); return NULL; } int main(void) { pthread_t t; pthread_create(&t, NULL, f, NULL); pthread_join(t, NULL); }",
    &[(0, 0)],
);

/// A thread that ends with a mutex.
const ENDS_OWNING: Setting = (
    "pthread_mutex_t m; void *f(void *a) { pthread_mutex_lock(&m); pthread_exit(NULL); } int main(void) { pthread_t t; pthread_create(&t, NULL, f, NULL); pthread_join(t, NULL); pthread_mutex_lock(&m); }",
    &[(0, 0)],
);

/// Ends of threads and of the process.
const ENDS: [Row; 13] = [
    (RETURNS, &[(0, 0)], GOES, "a return of `main`"),
    (
        RETURNS,
        &[(0, 0), (1, 0)],
        BLOCKED,
        "which ends the process while thread 1 runs",
    ),
    (RETURNS, &[(0, 0), (0, 0)], BLOCKED, "and thread 0 too"),
    (
        RETURNS,
        &[(1, 0), (1, 0), (0, 0)],
        GOES,
        "behind the end of thread 1",
    ),
    (EXITS, &[(0, 0)], GOES, "`pthread_exit` in `main`"),
    (
        EXITS,
        &[(0, 0), (1, 0)],
        "BROKEN check assert line 2 events ",
        "behind which the others go on",
    ),
    (EXITS, &[(0, 0), (0, 0)], BLOCKED, "and thread 0 does not"),
    (
        EXITS_CALLED,
        &[(0, 0), (1, 0)],
        "BROKEN check assert line 2 events ",
        "`pthread_exit` in a called function ends no process",
    ),
    (
        EXITS_CALLED,
        &[(0, 0), (0, 0)],
        BLOCKED,
        "what stands behind the call does not come",
    ),
    (
        EXITS_THREAD,
        &[(1, 0), (0, 0), (0, 0)],
        GOES,
        "a thread that leaves has ended, and can be joined",
    ),
    (
        EXITS_THREAD,
        &[(1, 0), (1, 0)],
        BLOCKED,
        "it leaves all that it was in",
    ),
    (
        ENDS_OWNING,
        &[(1, 0), (1, 0), (0, 0)],
        GOES,
        "a thread that ends with a mutex",
    ),
    (
        ENDS_OWNING,
        &[(1, 0), (1, 0), (0, 0), (0, 0)],
        BLOCKED,
        "still owns it",
    ),
];

#[test]
fn ends(rt: HostRuntime) -> Result<(), Fail> {
    replay_rows(&rt, rt.alloc(), &ENDS)
}

/// A loop without end in a thread that holds a mutex, within two turns.
const CUT: Setting = (
    "int x; pthread_mutex_t m; void *f(void *a) { pthread_mutex_lock(&m); while (1) x = 1; pthread_mutex_unlock(&m); return NULL; } int main(void) { pthread_t t; pthread_create(&t, NULL, f, NULL); if (__VERIFIER_nondet_int()) pthread_mutex_lock(&m); else pthread_join(t, NULL); }",
    &[(0, 0), (1, 0), (1, 0), (1, 0)],
);

/// A declaration without initializer in a loop.
const DECLARES: Setting = (
    "int main(void) { int i = 0; while (i < 2) { int j;\n assert(j); i++; } }",
    &[],
);

/// A `for` without test, in which `continue` goes on with the step.
const CONTINUES: Setting = (
    "int x; int main(void) { int i = 0; for (;; i++) { if (i == 0) continue; x = i;\n assert(x == 1); } }",
    &[],
);

/// Loops that are cut, a declaration in a loop, and `continue`.
const LOOPS: [Row; 8] = [
    (
        CUT,
        &[(1, 0)],
        BLOCKED,
        "a thread is cut where one more turn would begin",
    ),
    (
        CUT,
        &[(0, 1), (0, 0)],
        BLOCKED,
        "it owns its mutex for good",
    ),
    (CUT, &[(0, 0), (0, 0)], BLOCKED, "and it has not ended"),
    (
        DECLARES,
        &[(0, 1), (0, 0), (0, 5), (0, 0), (0, 0)],
        GOES,
        "an input in each turn",
    ),
    (
        DECLARES,
        &[(0, 1), (0, 0), (0, 0), (0, 0)],
        "BROKEN check assert line 2 events ",
        "each of its own value",
    ),
    (
        DECLARES,
        &[(0, 1), (0, 0), (0, 4294967296)],
        BLOCKED,
        "which is a word",
    ),
    (
        CONTINUES,
        &[(0, 0), (0, 0), (0, 0)],
        GOES,
        "the second turn has the step behind it",
    ),
    (
        CONTINUES,
        &[(0, 0), (0, 0), (0, 0), (0, 0)],
        BLOCKED,
        "where a third turn would begin nothing comes",
    ),
];

#[test]
fn loops(rt: HostRuntime) -> Result<(), Fail> {
    replay_rows(&rt, rt.alloc(), &LOOPS)
}
