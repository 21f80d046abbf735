//! What a thread of a small program answers, action by action. The rows were worked out by hand.

ghost use Rattle.std.specs.Prelude.{IfSome};
ghost use Rattle.lz_tree.specs.ScopedTrees.{scoped_program};
ghost use Rattle.lz_tree.specs.Calls.{IsCallOrder};
ghost use Rattle.lz_machine.specs.Starts.{AreFitBodies};

use lz_base::{FILE_LIMIT, Memory};
use lz_fits::program_fits;
use lz_lex::lex;
use lz_machine::{Next, ReadBack, Thread};
use lz_model::Action;
use lz_parse::parse;
use lz_tree::{Scoped, Tokens};
use lz_types::{Checked, check};
use std::alloc::Global;
use std::test::Fail;

/// An answer, with two numbers that belong to it.
type Seen = (&'static str, u64, u64);

/// The number of a thread that is woken, one more, and 0 for nobody.
fn woken_number(woken: Option<u32>) -> u64 {
    match woken {
        None => 0,
        Some(thread) => thread as u64 + 1,
    }
}

fn seen_action(action: Action) -> Seen {
    match action {
        Action::Input { value } => ("input", value, 0),
        Action::Check { value, .. } => ("check", value, 0),
        Action::Assume { value } => ("assume", value, 0),
        Action::Wr { cell, value } => ("write", cell as u64, value),
        Action::Signal { cond, woken } => ("signal", cond as u64, woken_number(woken)),
        Action::Create { thread, value, .. } => ("create", thread as u64, value),
        Action::Join { thread } => ("join", thread as u64, 0),
        Action::End { whole } => ("end", whole as u64, 0),
        _ => ("other", 0, 0),
    }
}

fn seen_answer(next: Next) -> Seen {
    match next {
        Next::Read { cell, .. } => ("read", cell as u64, 0),
        Next::Act { action, .. } => seen_action(action),
        Next::Ended => ("ended", 0, 0),
        Next::Cut => ("cut", 0, 0),
    }
}

fn is_same(one: Seen, two: Seen) -> bool {
    one.0 == two.0 && one.1 == two.1 && one.2 == two.2
}

/// What is read back behind an answer.
fn back_of(next: Next, word: u32) -> ReadBack {
    match next {
        Next::Read { .. } => ReadBack::Value { value: word },
        Next::Act { .. } | Next::Ended | Next::Cut => ReadBack::Nothing,
    }
}

/// Whether a thread answers so; beside each answer stand the choice for it and the word that is read back behind it.
fn answers_so(
    alloc: Global,
    scoped: &Scoped,
    order: &[u32],
    start: Option<u32>,
    bound: u32,
    steps: &[(Seen, u64, u32)],
) -> Result<bool, Memory>
    requires order { IsCallOrder (scoped_program scoped.now).functions order.now }
    requires fit { AreFitBodies (scoped_program scoped.now).functions }
{
    let mut thread = Thread::start(alloc, scoped, start, 9)?;
    let mut back = ReadBack::Nothing;
    for item in steps {
        let (step, choice, word) = *item;
        let next = thread.next(alloc, scoped, order, bound, choice, back)?;
        if !is_same(seen_answer(next), step) {
            return Ok(false);
        }
        back = back_of(next, word);
    }
    Ok(true)
}

/// The program of these tokens, where it breaks no rule.
fn program_of(alloc: Global, tokens: &Tokens) -> Option<Checked>
    ensures { IfSome result (λ c. IsCallOrder (scoped_program c.scoped).functions c.order.items) }
{
    match parse(alloc, tokens) {
        Ok(program) => match check(alloc, program) {
            Ok(checked) => Some(checked),
            Err(_) => None,
        },
        Err(_) => None,
    }
}

/// The program of a text, where it breaks no rule.
fn checked_of(alloc: Global, text: &str) -> Option<Checked>
    ensures { IfSome result (λ c. IsCallOrder (scoped_program c.scoped).functions c.order.items) }
{
    let bytes = text.as_bytes();
    if bytes.len() as u64 > FILE_LIMIT {
        return None;
    }
    match lex(alloc, bytes) {
        Ok(tokens) => program_of(alloc, &tokens),
        Err(_) => None,
    }
}

type Row = (
    &'static str,
    Option<u32>,
    u32,
    &'static [(Seen, u64, u32)],
    &'static str,
);

const ROWS: [Row; 8] = [
    (
        "int x; int f(int a) { x = a; return a + 1; } int main(void) { x = f(f(3)); return 0; }",
        None,
        1,
        &[
            (("write", 0, 3), 0, 0),
            (("write", 0, 4), 0, 0),
            (("write", 0, 5), 0, 0),
            (("end", 1, 0), 0, 0),
            (("ended", 0, 0), 0, 0),
            (("ended", 0, 0), 0, 0),
        ],
        "calls, the inner one first",
    ),
    (
        "int x; int g(void) { int i = 7; return i; } int f(int i) { return i + g() + i; } int main(void) { int i = 1; x = f(2) + i; return 0; }",
        None,
        1,
        &[(("write", 0, 12), 0, 0), (("end", 1, 0), 0, 0)],
        "each call has locals of its own",
    ),
    (
        "int x; int main(void) { x = x + 1; return 0; }",
        None,
        1,
        &[
            (("read", 0, 0), 0, 41),
            (("write", 0, 42), 0, 0),
            (("end", 1, 0), 0, 0),
        ],
        "a word is read back",
    ),
    (
        "void assert(int); int __VERIFIER_nondet_int(void); int main(void) { assert(__VERIFIER_nondet_int()); return 0; }",
        None,
        1,
        &[
            (("input", 0, 0), 4294967296, 0),
            (("check", 0, 0), 0, 0),
            (("cut", 0, 0), 0, 0),
            (("cut", 0, 0), 0, 0),
        ],
        "an input by its choice, and a check of 0",
    ),
    (
        "int x; int main(void) { while (1) x = 2; return 0; }",
        None,
        2,
        &[
            (("write", 0, 2), 0, 0),
            (("write", 0, 2), 0, 0),
            (("cut", 0, 0), 0, 0),
        ],
        "no turn is left",
    ),
    (
        "int x; void f(void) { x = 1; pthread_exit(NULL); } int main(void) { f(); x = 2; return 0; }",
        None,
        1,
        &[
            (("write", 0, 1), 0, 0),
            (("end", 0, 0), 0, 0),
            (("ended", 0, 0), 0, 0),
        ],
        "a thread leaves all its calls",
    ),
    (
        "int x; void *f(void *a) { x = (int)a; return NULL; } int main(void) { pthread_t s; pthread_t t; pthread_create(&s, NULL, f, NULL); pthread_create(&t, NULL, f, NULL); pthread_join(t, NULL); pthread_join(s, NULL); return 0; }",
        None,
        1,
        &[
            (("create", 1, 0), 0, 0),
            (("create", 2, 0), 0, 0),
            (("join", 2, 0), 0, 0),
            (("join", 1, 0), 0, 0),
            (("end", 1, 0), 0, 0),
        ],
        "threads are numbered in order, and kept by their objects",
    ),
    (
        "int x; pthread_cond_t c; void *f(void *a) { pthread_cond_signal(&c); x = 5; return NULL; } int main(void) { return 0; }",
        Some(0),
        1,
        &[
            (("signal", 0, 3), 3, 0),
            (("write", 0, 5), 0, 0),
            (("end", 0, 0), 0, 0),
        ],
        "a routine, whose signal wakes by its choice",
    ),
];

/// Whether a thread of this program answers so, where its numbers fit.
fn program_answers(
    alloc: Global,
    checked: &Checked,
    start: Option<u32>,
    bound: u32,
    steps: &[(Seen, u64, u32)],
) -> Result<bool, Memory>
    requires { IsCallOrder (scoped_program checked.now.scoped).functions checked.now.order.items }
{
    if program_fits(checked.scoped()) {
        answers_so(
            alloc,
            checked.scoped(),
            checked.order(),
            start,
            bound,
            steps,
        )
    } else {
        Ok(false)
    }
}

/// The thread of a row's text answers so.
fn row_holds(alloc: Global, row: &Row) -> bool {
    let (text, start, bound, steps, _) = *row;
    match checked_of(alloc, text) {
        None => false,
        Some(checked) => matches!(
            program_answers(alloc, &checked, start, bound, steps),
            Ok(true)
        ),
    }
}

#[test]
fn threads_answer(rt: HostRuntime) -> Result<(), Fail> {
    for row in &ROWS {
        let why = row.4;
        assert!(rt; row_holds(rt.alloc(), row), "{why}");
    }
    Ok(())
}
