//! What `main` of a small program comes to, pause by pause. The rows were worked out by hand.

ghost use Rattle.lz_tree.specs.ScopedTrees.{scoped_statement};
ghost use Rattle.lz_stations.specs.StatementFits.{IsFitStatement};

use lz_base::{FILE_LIMIT, Memory};
use lz_fits::body_fits;
use lz_lex::lex;
use lz_model::Action;
use lz_parse::parse;
use lz_stations::{Flow, Footing, Pause, Reached, Station, advance_statement};
use lz_tree::{Scoped, ScopedStmt, Tokens};
use lz_turns::Locals;
use lz_types::{Checked, check};
use std::alloc::Global;
use std::test::Fail;

/// A pause, or how a body ends, with two numbers that belong to it.
type Seen = (&'static str, u64, u64);

fn seen_action(action: Action) -> Seen {
    match action {
        Action::Wr { cell, value } => ("write", cell as u64, value),
        Action::Check { value, .. } => ("check", value, 0),
        Action::Lock { mutex } => ("lock", mutex as u64, 0),
        Action::Unlock { mutex } => ("unlock", mutex as u64, 0),
        Action::Join { thread } => ("join", thread as u64, 0),
        _ => ("other", 0, 0),
    }
}

fn seen_pause(pause: &Pause) -> Seen {
    match pause {
        Pause::Acts { action, .. } => seen_action(*action),
        Pause::Reads { cell, .. } => ("read", *cell as u64, 0),
        Pause::Asks { .. } => ("input", 0, 0),
        Pause::Signals { cond, .. } => ("signal", *cond as u64, 0),
        Pause::Creates { start, value, .. } => ("create", *start as u64, *value as u64),
        Pause::Calls {
            function,
            values,
            ..
        } => ("call", *function as u64, values.len() as u64),
    }
}

fn seen_flow(flow: Flow) -> Seen {
    match flow {
        Flow::Normal => ("leads", 0, 0),
        Flow::Breaks => ("breaks", 0, 0),
        Flow::Continues => ("continues", 0, 0),
        Flow::Returns { value, .. } => ("returns", value as u64, 0),
    }
}

fn is_same(one: Seen, two: Seen) -> bool {
    one.0 == two.0 && one.1 == two.1 && one.2 == two.2
}

/// What a body comes to next, and where it stands behind a pause.
fn next_of(
    alloc: Global,
    body: &ScopedStmt,
    footing: Footing,
    given: u32,
    bound: u32,
    locals: &mut Locals,
) -> Result<(Seen, Option<Footing>), Memory>
    requires { IsFitStatement (scoped_statement body.now) }
{
    match advance_statement(alloc, body, footing, given, bound, locals)? {
        Reached::Pauses { pause, footing } => Ok((seen_pause(&pause), Some(footing))),
        Reached::Leads { flow } => Ok((seen_flow(flow), None)),
        Reached::Fails { line, .. } => Ok((("fails", line as u64, 0), None)),
        Reached::Refuses { .. } => Ok((("refuses", 0, 0), None)),
        Reached::Exits => Ok((("exits", 0, 0), None)),
        Reached::Stops => Ok((("stops", 0, 0), None)),
    }
}

/// Whether a body comes to these pauses and then to this end, where the number beside a pause is given behind it.
fn comes_along(
    alloc: Global,
    body: &ScopedStmt,
    bound: u32,
    steps: &[(Seen, u32)],
    locals: &mut Locals,
) -> Result<bool, Memory>
    requires { IsFitStatement (scoped_statement body.now) }
{
    let mut place = Some(Footing::At {
        station: Station::Start,
    });
    let mut given = 0;
    for (step, next) in steps {
        match place {
            None => return Ok(false),
            Some(footing) => {
                let (seen, behind) = next_of(alloc, body, footing, given, bound, locals)?;
                if !is_same(seen, *step) {
                    return Ok(false);
                }
                place = behind;
                given = *next;
            }
        }
    }
    Ok(place.is_none())
}

fn comes_to(
    alloc: Global,
    body: &ScopedStmt,
    bound: u32,
    steps: &[(Seen, u32)],
) -> Result<bool, Memory>
    requires { IsFitStatement (scoped_statement body.now) }
{
    let mut locals = Locals {
        frame: Vec::new(alloc),
        handles: Vec::new(alloc),
    };
    comes_along(alloc, body, bound, steps, &mut locals)
}

/// The program of these tokens, where it breaks no rule.
fn program_of(alloc: Global, tokens: &Tokens) -> Option<Checked> {
    match parse(alloc, tokens) {
        Ok(program) => match check(alloc, program) {
            Ok(checked) => Some(checked),
            Err(_) => None,
        },
        Err(_) => None,
    }
}

/// The program of a text, where it breaks no rule.
fn checked_of(alloc: Global, text: &str) -> Option<Checked> {
    let bytes = text.as_bytes();
    if bytes.len() as u64 > FILE_LIMIT {
        return None;
    }
    match lex(alloc, bytes) {
        Ok(tokens) => program_of(alloc, &tokens),
        Err(_) => None,
    }
}

fn main_of(scoped: &Scoped) -> Option<&ScopedStmt> {
    match scoped.functions.items().get(scoped.main as usize) {
        None => None,
        Some(function) => Some(&function.body),
    }
}

fn body_comes_to(
    alloc: Global,
    scoped: &Scoped,
    bound: u32,
    steps: &[(Seen, u32)],
) -> Result<bool, Memory> {
    match main_of(scoped) {
        None => Ok(false),
        Some(body) => {
            if body_fits(body) {
                comes_to(alloc, body, bound, steps)
            } else {
                Ok(false)
            }
        }
    }
}

type Row = (&'static str, u32, &'static [(Seen, u32)], &'static str);

const LOOPS: [Row; 7] = [
    (
        "int x; int main(void) { int i = 0; while (i < 2) { x = i; i++; } return x; }",
        2,
        &[
            (("write", 0, 0), 0),
            (("write", 0, 1), 0),
            (("read", 0, 0), 7),
            (("returns", 7, 0), 0),
        ],
        "two turns, and the test once more",
    ),
    (
        "int x; int main(void) { int i = 0; while (i < 2) { x = i; i++; } return x; }",
        1,
        &[(("write", 0, 0), 0), (("stops", 0, 0), 0)],
        "a test holds where no turn is left",
    ),
    (
        "int x; int main(void) { int i = 0; do { x = i; i++; } while (i < 2); return 0; }",
        2,
        &[
            (("write", 0, 0), 0),
            (("write", 0, 1), 0),
            (("returns", 0, 0), 0),
        ],
        "the body before its test",
    ),
    (
        "int x; int main(void) { int i = 0; do { x = i; i++; } while (i < 2); return 0; }",
        1,
        &[(("write", 0, 0), 0), (("stops", 0, 0), 0)],
        "one turn of a do",
    ),
    (
        "int x; int main(void) { int i; for (i = 0; i < 9; i++) { if (i == 1) continue; if (i == 3) break; x = i; } return 5; }",
        9,
        &[
            (("input", 0, 0), 4),
            (("write", 0, 0), 0),
            (("write", 0, 2), 0),
            (("returns", 5, 0), 0),
        ],
        "continue runs the step, break leaves the loop; a local without value is an input",
    ),
    (
        "int x; int main(void) { while (1) { while (1) { x = 1; break; } return 2; } return 3; }",
        3,
        &[(("write", 0, 1), 0), (("returns", 2, 0), 0)],
        "break leaves the inner loop alone, return all",
    ),
    (
        "int x; int main(void) { for (;;) x = 1; return 0; }",
        2,
        &[
            (("write", 0, 1), 0),
            (("write", 0, 1), 0),
            (("stops", 0, 0), 0),
        ],
        "a for without test",
    ),
];

const VALUES: [Row; 12] = [
    (
        "int x; int main(void) { if (x) x = 1; else x = 2; return 0; }",
        1,
        &[
            (("read", 0, 0), 0),
            (("write", 0, 2), 0),
            (("returns", 0, 0), 0),
        ],
        "else",
    ),
    (
        "int x; int main(void) { if (x) x = 1; else x = 2; return 0; }",
        1,
        &[
            (("read", 0, 0), 5),
            (("write", 0, 1), 0),
            (("returns", 0, 0), 0),
        ],
        "a test that is not 0",
    ),
    (
        "int x; int y; int main(void) { return x && y; }",
        1,
        &[(("read", 0, 0), 0), (("returns", 0, 0), 0)],
        "the right operand is not read",
    ),
    (
        "int x; int y; int main(void) { return x && y; }",
        1,
        &[
            (("read", 0, 0), 2),
            (("read", 1, 0), 3),
            (("returns", 1, 0), 0),
        ],
        "both operands",
    ),
    (
        "int x; int main(void) { x = 8 / x; return 0; }",
        1,
        &[
            (("read", 0, 0), 2),
            (("check", 2, 0), 0),
            (("write", 0, 4), 0),
            (("returns", 0, 0), 0),
        ],
        "the check of a divisor",
    ),
    (
        "int x; int main(void) {\n x = 8 / x; return 0; }",
        1,
        &[(("read", 0, 0), 0), (("fails", 2, 0), 0)],
        "a divisor of 0",
    ),
    (
        "int a[3]; int main(void) { int i = 2; a[i] = 1; return 0; }",
        1,
        &[
            (("check", 1, 0), 0),
            (("write", 2, 1), 0),
            (("returns", 0, 0), 0),
        ],
        "an index in range",
    ),
    (
        "int a[3]; int main(void) {\n int i = 3;\n a[i] = 1; return 0; }",
        1,
        &[(("fails", 3, 0), 0)],
        "an index of the length",
    ),
    (
        "int x; int main(void) { int a[3] = { 4, 5 }; x = a[0] + a[1] + a[2]; return 0; }",
        1,
        &[
            (("check", 1, 0), 0),
            (("check", 1, 0), 0),
            (("check", 1, 0), 0),
            (("write", 0, 9), 0),
            (("returns", 0, 0), 0),
        ],
        "an element without a value of its own is 0",
    ),
    (
        "int x; int main(void) { int i = 5; x = i++ + i; return 0; }",
        1,
        &[(("write", 0, 11), 0), (("returns", 0, 0), 0)],
        "the value of a postfix step is the old one",
    ),
    (
        "int x; int main(void) { x = -1; return x > 0u; }",
        1,
        &[
            (("write", 0, 4294967295), 0),
            (("read", 0, 0), 4294967295),
            (("returns", 1, 0), 0),
        ],
        "a comparison in the unsigned kind",
    ),
    (
        "int x; int f(int n) { return n; } int main(void) { x = f(x + 1) + 1; return 0; }",
        1,
        &[
            (("read", 0, 0), 3),
            (("call", 0, 1), 6),
            (("write", 0, 7), 0),
            (("returns", 0, 0), 0),
        ],
        "a call, whose value is given",
    ),
];

const KNOWN: [Row; 7] = [
    (
        "int x; int main(void) { assert(x); return 0; }",
        1,
        &[
            (("read", 0, 0), 3),
            (("check", 3, 0), 0),
            (("returns", 0, 0), 0),
        ],
        "an assertion that holds",
    ),
    (
        "int x; int main(void) {\n assert(x); return 0; }",
        1,
        &[(("read", 0, 0), 0), (("fails", 2, 0), 0)],
        "an assertion that does not",
    ),
    (
        "int x; int main(void) { __VERIFIER_assume(x); return 0; }",
        1,
        &[(("read", 0, 0), 0), (("refuses", 0, 0), 0)],
        "an assumption that does not hold",
    ),
    (
        "int main(void) { return __VERIFIER_nondet_int(); }",
        1,
        &[(("input", 0, 0), 9), (("returns", 9, 0), 0)],
        "an input",
    ),
    (
        "pthread_mutex_t m; int main(void) { pthread_mutex_lock(&m); pthread_mutex_unlock(&m); return 0; }",
        1,
        &[
            (("lock", 0, 0), 0),
            (("unlock", 0, 0), 0),
            (("returns", 0, 0), 0),
        ],
        "a mutex",
    ),
    (
        "pthread_t t; void *f(void *a) { return a; } int main(void) { pthread_create(&t, NULL, f, NULL); pthread_join(t, NULL); return 0; }",
        1,
        &[
            (("create", 0, 0), 1),
            (("join", 1, 0), 0),
            (("returns", 0, 0), 0),
        ],
        "a thread, whose number is given and kept",
    ),
    (
        "int x; int main(void) { pthread_exit(NULL); x = 1; return 0; }",
        1,
        &[(("exits", 0, 0), 0)],
        "the end of the thread",
    ),
];

fn row_holds(alloc: Global, row: &Row) -> bool {
    let (text, bound, steps, _) = *row;
    match checked_of(alloc, text) {
        None => false,
        Some(checked) => matches!(
            body_comes_to(alloc, checked.scoped(), bound, steps),
            Ok(true)
        ),
    }
}

#[test]
fn loops_come_to_their_pauses(rt: HostRuntime) -> Result<(), Fail> {
    for row in &LOOPS {
        let why = row.3;
        assert!(rt; row_holds(rt.alloc(), row), "{why}");
    }
    Ok(())
}

#[test]
fn values_come_to_their_pauses(rt: HostRuntime) -> Result<(), Fail> {
    for row in &VALUES {
        let why = row.3;
        assert!(rt; row_holds(rt.alloc(), row), "{why}");
    }
    Ok(())
}

#[test]
fn known_names_come_to_their_pauses(rt: HostRuntime) -> Result<(), Fail> {
    for row in &KNOWN {
        let why = row.3;
        assert!(rt; row_holds(rt.alloc(), row), "{why}");
    }
    Ok(())
}
