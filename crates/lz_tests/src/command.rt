//! What the command prints and answers, over a folder and a sink in memory. The expected texts were
//! worked out by hand.

use crate::told::{AMPLE, Told, USAGE};
use lz_base::{Bytes, Memory, Name};
use lz_cli::{Ended, Evidence, Words, run};
use lz_outside::{Calls, File, Files, MemoryFolder, MemorySink};
use std::alloc::Global;
use std::process::Abort;
use std::test::Fail;

/// Calls the command with these words, over a folder with the file `a.c` of this text.
pub fn call(alloc: Global, words: &[&str], text: &[u8], room: u64) -> Result<Told, Memory> {
    let mut source = Bytes::new(alloc);
    source.append(text)?;
    call_with(alloc, words, source, room, Calls::new(alloc))
}

/// The same with a text that is made already, over a folder whose listed calls fail.
pub fn call_with(
    alloc: Global,
    words: &[&str],
    bytes: Bytes,
    room: u64,
    fails: Calls,
) -> Result<Told, Memory> {
    let mut given = Words::new(alloc);
    for word in words {
        given.push(Name::new(alloc, word)?)?;
    }
    let mut files = Files::new(alloc);
    files.push(File {
        name: Name::new(alloc, "a.c")?,
        bytes,
    })?;
    let mut folder = MemoryFolder::new(alloc, files, 0, 0, fails)?;
    let mut sink = MemorySink::new(alloc, room, Calls::new(alloc))?;
    let ended = run(alloc, &given, &mut folder, &mut sink);
    let mut text = Bytes::new(alloc);
    text.append(sink.written())?;
    Ok(Told { text, ended })
}

fn has_proof(ended: &Ended) -> bool {
    matches!(&ended.evidence, Evidence::Proof { formula: _, log: _ })
}

/// The report of a success.
pub const SUCCESS: &str = "SUCCESSFUL unwind 2 rounds 2\n";

/// That of words which ask for what is not built.
const NOT_BUILT: &str = "NOTBUILT line 0\n";

/// That of a program that has its first choice on line 1.
pub const HAS_CHOICE: &str = "NOTBUILT line 1\n";

/// A text, the report and the status of its file, and the reason of the row.
pub type Row = (&'static str, &'static str, u8, &'static str);

/// Assignments and assertions.
const VERDICTS: [Row; 12] = [
    ("int main(void){}", SUCCESS, 0, "no check at all"),
    (
        "int x; int main(void) { x = 7; assert(x == 7); }",
        SUCCESS,
        0,
        "a check that holds",
    ),
    (
        "int x;\nint y;\nint main(void) {\n  y = 4;\n  x = y;\n  assert(x==y);\n  assert(0 == y);\n}\n",
        "FAILED\ncheck assert line 7\nrounds 1\nstep 0 0\nstep 0 0\nstep 0 0\nstep 0 0\nstep 0 0\nstep 0 0\nstep 0 0\nstep 0 0\n",
        1,
        "a step for each write, read and check, up to the check that breaks",
    ),
    (
        "int x; int main(void) { assert(x == 1); assert(x == 0); }",
        "FAILED\ncheck assert line 1\nrounds 1\nstep 0 0\nstep 0 0\n",
        1,
        "an object starts at 0, and nothing follows a check that breaks",
    ),
    (
        "int main(void) { assert(0 == 1); }",
        "FAILED\ncheck assert line 1\nrounds 1\nstep 0 0\n",
        1,
        "a constant takes no step",
    ),
    (
        "int x; int main(void) { x = 1; x = x + 1; assert(x == 2); }",
        SUCCESS,
        0,
        "an assignment reads before it writes",
    ),
    (
        "int x = 2147483647; int main(void) { assert(x + 1 == 0); }",
        "FAILED\ncheck assert line 1\nrounds 1\nstep 0 0\nstep 0 0\n",
        1,
        "words do not wrap at 2^31",
    ),
    (
        "int x = 2147483647; int main(void) { x = x + x + 2; assert(x == 0); }",
        SUCCESS,
        0,
        "words wrap at 2^32",
    ),
    (
        "#define N 3\nint x; int main(void) { x = N; assert(x == 3); }",
        SUCCESS,
        0,
        "a defined name leaves its constant",
    ),
    (
        "/* one */ const int volatile a = 'a'; // two\r\nint main(void) { assert(a == 97); }",
        SUCCESS,
        0,
        "comments and passed over words leave nothing, a character its value",
    ),
    (
        "int x = 00; int main(void) { assert(x == 0); }",
        SUCCESS,
        0,
        "`0` and `00` have one tree",
    ),
    (
        "int y = 7;\nint x;\n\nint main(void) {\n\tx = y\n+\ny\n+ 2;\n  assert(\n x\n==0);}",
        "FAILED\ncheck assert line 9\nrounds 1\nstep 0 0\nstep 0 0\nstep 0 0\nstep 0 0\nstep 0 0\n",
        1,
        "a check has the line of its `assert`",
    ),
];

/// Operators, constants and objects.
const EXPRESSIONS: [Row; 10] = [
    (
        "int x; int main(void) { x = 01 + '\\0' + 1u; assert(x == 2); }",
        SUCCESS,
        0,
        "octal, character and unsigned constants",
    ),
    (
        "int x;\nint main(void) {\n  assert(65536u * 65536u == 0u);\n  assert(!(-1 < 1u));\n  assert((-2147483647 - 1) / -1 == -2147483647 - 1);\n  assert(-7 / 2 == -3 && -7 % 2 == -1);\n  assert(-8 >> 1 == -4 && 1 << 33 == 2);\n  assert(7 - 3 - 2 == 2);\n  if (1) if (0) x = 1; else x = 2;\n  assert(x == 2);\n}\n",
        SUCCESS,
        0,
        "words and how operators group",
    ),
    (
        "int x; int main(void) { x += 3; x <<= 2; x = 20 - (x - +5); assert(x == 13); }",
        SUCCESS,
        0,
        "other assignments and operators",
    ),
    (
        "int x; int main(void) { assert(x); }",
        "FAILED\ncheck assert line 1\nrounds 1\nstep 0 0\nstep 0 0\n",
        1,
        "a check of a value itself",
    ),
    (
        "int z; int main(void) { return 1 / z; }",
        "FAILED\ncheck divzero line 1\nrounds 1\nstep 0 0\nstep 0 0\n",
        1,
        "a division by 0",
    ),
    (
        "int a[4]; int main(void) { a[4] = 1; }",
        "FAILED\ncheck bounds line 1\nrounds 1\nstep 0 0\n",
        1,
        "an index past the end",
    ),
    (
        "int a[3] = { 1, 2 }; int main(void) { int b[2] = { 7 }; assert(a[1] + a[2] == 2 && b[1] == 0); }",
        SUCCESS,
        0,
        "elements that a list leaves out are 0",
    ),
    (
        "int x = 1 + 1, y; static unsigned z; int main() { assert(x == 2 && y == z); }",
        SUCCESS,
        0,
        "constants are computed, and objects start at 0",
    ),
    (
        "int x; int main(void) { x = 1; } int y;",
        SUCCESS,
        0,
        "an object behind `main`",
    ),
    (
        "int x = 5; int main(void) { int i = x++; assert(i == 5); assert(--x == i); assert(x-- < i); }",
        "FAILED\ncheck assert line 1\nrounds 1\nstep 0 0\nstep 0 0\nstep 0 0\nstep 0 0\nstep 0 0\nstep 0 0\nstep 0 0\nstep 0 0\nstep 0 0\n",
        1,
        "steps before and behind",
    ),
];

/// Statements and calls.
const STATEMENTS: [Row; 15] = [
    (
        "int main(void) { return 0; }",
        SUCCESS,
        0,
        "a return ends the process",
    ),
    (
        "int main(void) { return 0; assert(0); }",
        SUCCESS,
        0,
        "and nothing comes behind it",
    ),
    (
        "int main(void) { if (0) assert(0); else return 1; assert(0); }",
        SUCCESS,
        0,
        "the branch that is taken",
    ),
    (
        "int x; int main(void) { if (x || !x && x + 1) ; else assert(0); return x ? 1 / x : 0; }",
        SUCCESS,
        0,
        "operands that are not needed",
    ),
    (
        "int main(void) { int i = 0; while (i < 3) i = i + 1; assert(i != 3); }",
        SUCCESS,
        0,
        "a loop that is cut comes to no check",
    ),
    (
        "int main(void) { int i = 0; while (i < 2) i = i + 1; assert(i != 2); }",
        "FAILED\ncheck assert line 1\nrounds 1\nstep 0 0\n",
        1,
        "a loop of as many turns as there may be",
    ),
    (
        "int main(void) { int i = 0; do i++; while (i < 2); assert(i != 2); }",
        "FAILED\ncheck assert line 1\nrounds 1\nstep 0 0\n",
        1,
        "the test behind the last turn",
    ),
    (
        "int main(void) { int i = 0; do i++; while (i < 3); assert(0); }",
        SUCCESS,
        0,
        "a third turn is cut where it would begin",
    ),
    (
        "int main(void) { int n = 0; for (int i = 0; i < 2; i++) for (int j = 0; j < 2; j++) n++; assert(n != 4); }",
        "FAILED\ncheck assert line 1\nrounds 1\nstep 0 0\n",
        1,
        "turns count anew each time that a loop is entered",
    ),
    (
        "int main(void) { for (;;) { break; } while (1) { assert(0); } }",
        "FAILED\ncheck assert line 1\nrounds 1\nstep 0 0\n",
        1,
        "a loop that is left, and a check in one without an end",
    ),
    (
        "int main(void) { int i = 0; for (; ; i++) { if (i < 1) continue; break; } assert(i != 1); }",
        "FAILED\ncheck assert line 1\nrounds 1\nstep 0 0\n",
        1,
        "the rest of a turn is passed over",
    ),
    (
        "int f(int a) {\n assert(a == 3);\n return a + 1; }\nint main(void) {\n assert(f(3) == 5); }",
        "FAILED\ncheck assert line 5\nrounds 1\nstep 0 0\nstep 0 0\n",
        1,
        "a call with its argument and its result",
    ),
    (
        "int f(void) { }\nvoid g(int a) { if (a) return; assert(0); }\nint main(void) { g(1); g(f()); }",
        "FAILED\ncheck assert line 2\nrounds 1\nstep 0 0\n",
        1,
        "a function that comes to its end gives 0",
    ),
    (
        "int f(unsigned a) { return a; } int main(void) { assert(f(-1) == -1); assert(f(1) / f(0)); }",
        "FAILED\ncheck divzero line 1\nrounds 1\nstep 0 0\nstep 0 0\n",
        1,
        "the check of a divisor comes before that around it",
    ),
    (
        "int reach_error(void) { return 1; } int main(void) { reach_error(); }",
        SUCCESS,
        0,
        "a file's own `reach_error`",
    ),
];

/// Calls of known names, of a single thread.
const KNOWN_NAMES: [Row; 16] = [
    (
        "int main(void) { reach_error(); }",
        "FAILED\ncheck reached line 1\nrounds 1\nstep 0 0\n",
        1,
        "a call that is not to be reached",
    ),
    (
        "int main(void) {\n __VERIFIER_error(); }",
        "FAILED\ncheck reached line 2\nrounds 1\nstep 0 0\n",
        1,
        "the same by another name",
    ),
    (
        "int x; int main(void) { __VERIFIER_assume(x); assert(0); }",
        SUCCESS,
        0,
        "an assumption that fails blocks the thread",
    ),
    (
        "int x; int main(void) { __VERIFIER_assume(!x); assert(0); }",
        "FAILED\ncheck assert line 1\nrounds 1\nstep 0 0\nstep 0 0\nstep 0 0\n",
        1,
        "one that holds is a step",
    ),
    (
        "int main(void) { abort(); assert(0); }",
        SUCCESS,
        0,
        "`abort` assumes 0",
    ),
    (
        "int f(void) { pthread_exit(0); return 0; } int main(void) { f(); assert(0); }",
        SUCCESS,
        0,
        "the thread ends, in a called function too",
    ),
    (
        "int x; int main(void) { printf(\"%d\", x); assert(0); }",
        "FAILED\ncheck assert line 1\nrounds 1\nstep 0 0\nstep 0 0\n",
        1,
        "`printf` evaluates its arguments",
    ),
    (
        "pthread_mutex_t m; int main(void) { pthread_mutex_lock(&m); pthread_mutex_lock(&m); assert(0); }",
        SUCCESS,
        0,
        "a thread that locks what it owns is blocked for good",
    ),
    (
        "pthread_mutex_t m; int main(void) { pthread_mutex_unlock(&m); }",
        "FAILED\ncheck unlock line 1\nrounds 1\nstep 0 0\n",
        1,
        "a mutex that it does not own",
    ),
    (
        "pthread_mutex_t m[2]; int main(void) { pthread_mutex_lock(&m[1]); pthread_mutex_unlock(&m[1]); pthread_mutex_unlock(&m[0]); }",
        "FAILED\ncheck unlock line 1\nrounds 1\nstep 0 0\nstep 0 0\nstep 0 0\nstep 0 0\nstep 0 0\nstep 0 0\n",
        1,
        "each index is checked, and the wrong one of two mutexes breaks",
    ),
    (
        "pthread_mutex_t m; int main(void) { pthread_mutex_lock(&m); pthread_mutex_init(&m, 0); pthread_mutex_lock(&m); assert(0); }",
        "FAILED\ncheck assert line 1\nrounds 1\nstep 0 0\nstep 0 0\nstep 0 0\nstep 0 0\n",
        1,
        "a mutex is made anew",
    ),
    (
        "pthread_mutex_t m; pthread_cond_t c; int main(void) { pthread_cond_wait(&c, &m); }",
        "FAILED\ncheck wait line 1\nrounds 1\nstep 0 0\n",
        1,
        "a wait without the mutex",
    ),
    (
        "pthread_mutex_t m; pthread_cond_t c; int main(void) { pthread_mutex_lock(&m); pthread_cond_wait(&c, &m); assert(0); }",
        SUCCESS,
        0,
        "nobody wakes the only thread",
    ),
    (
        "pthread_cond_t c; int main(void) { pthread_cond_signal(&c); pthread_cond_broadcast(&c); assert(0); }",
        "FAILED\ncheck assert line 1\nrounds 1\nstep 0 0\nstep 0 0\nstep 0 0\n",
        1,
        "a signal where nobody waits has the choice 0",
    ),
    (
        "pthread_t t; int main(void) { pthread_join(t, NULL); }",
        "FAILED\ncheck join line 1\nrounds 1\nstep 0 0\n",
        1,
        "an object that holds no thread",
    ),
    (
        "int main(void) { __VERIFIER_atomic_begin(); __VERIFIER_atomic_begin(); __VERIFIER_atomic_end(); __VERIFIER_atomic_end(); assert(0); }",
        "FAILED\ncheck assert line 1\nrounds 1\nstep 0 0\nstep 0 0\nstep 0 0\nstep 0 0\nstep 0 0\n",
        1,
        "a section of a single thread bars nobody",
    ),
];

/// Programs with a choice: the line of the first is told.
const CHOICES: [Row; 14] = [
    (
        "int main(void) {\n  int x = __VERIFIER_nondet_int();\n  assert(x + 1 > x);\n}\n",
        "NOTBUILT line 2\n",
        12,
        "a free input",
    ),
    (
        "int x;\nvoid *f(void *a) { x = 1; assert(x == 1); return NULL; }\nvoid *g(void *a) { x = 0; return NULL; }\nint main(void) {\n  pthread_t t, u;\n  pthread_create(&t, NULL, f, NULL);\n  pthread_create(&u, NULL, g, NULL);\n  pthread_join(t, NULL);\n}\n",
        "NOTBUILT line 6\n",
        12,
        "the creation of a thread, and not its object",
    ),
    (
        "int main(void) {\n int y = 1;\n int x;\n return x; }",
        "NOTBUILT line 3\n",
        12,
        "an object without an initializer",
    ),
    (
        "int main(void) {\n int y = 1,\n x[2],\n z; }",
        "NOTBUILT line 3\n",
        12,
        "each declarator by itself",
    ),
    (
        "int main(void) {\n int x[2] = { 1 }; unsigned y = 0; pthread_t t; return\n __VERIFIER_nondet_uint(); }",
        "NOTBUILT line 3\n",
        12,
        "a list that is short, and a thread object, are none",
    ),
    (
        "void g(void) {\n __VERIFIER_nondet_int(); }\nint main(void) { }",
        "NOTBUILT line 2\n",
        12,
        "in a function that is never called",
    ),
    (
        "int x; void g(int a, int b);\nint main(void) { g(1,\n 2); } void g(int a, int b) { while (a)\n int k; }",
        "NOTBUILT line 4\n",
        12,
        "objects at file scope and parameters are none",
    ),
    (
        "int main(void) {\n return 0;\n assert(0);\n int x; }",
        "NOTBUILT line 4\n",
        12,
        "where no run comes",
    ),
    (
        "int main(void) {\n assert(0); if (0)\n for (int x; ;\n __VERIFIER_nondet_int()) ; }",
        "NOTBUILT line 3\n",
        12,
        "also behind a check that breaks",
    ),
    (
        "int f(int a) { return a; }\nint main(void) { for (int x = f(\n __VERIFIER_nondet_int()); x;\n f(__VERIFIER_nondet_int()))\n int y; }",
        "NOTBUILT line 3\n",
        12,
        "the head of a loop comes before its body",
    ),
    (
        "int main(void) { do {\n int x; } while (\n __VERIFIER_nondet_int()); }",
        "NOTBUILT line 2\n",
        12,
        "but the test of a `do` behind it",
    ),
    (
        "void *f(void *a) { return a; } pthread_t t[2]; int main(void) {\n pthread_create(&t[\n __VERIFIER_nondet_int()], 0, f, 0); }",
        "NOTBUILT line 2\n",
        12,
        "a call before its arguments",
    ),
    (
        "int a[2]; int main(void) { a[0] +=\n a[\n __VERIFIER_nondet_int() ? 1 : 0]; }",
        "NOTBUILT line 3\n",
        12,
        "an index in an operand",
    ),
    (
        "int main(void) { if (1) { } else {\n l: {\n int x; } } }",
        "NOTBUILT line 3\n",
        12,
        "a block behind a label in an `else`",
    ),
];

/// Files that break a rule.
const FAULTY: [Row; 10] = [
    (
        "int main(void) { x = 1; }",
        "SOURCE line 1 rule 1\n",
        4,
        "a name that is not declared",
    ),
    (
        "int x; int main(void) { assert(x == y); }",
        "SOURCE line 1 rule 1\n",
        4,
        "nor one in a check",
    ),
    (
        "int x; int x; int main(void) {}",
        "SOURCE line 1 rule 2\n",
        4,
        "a name that is declared twice",
    ),
    (
        "int main; int main(void) {}",
        "SOURCE line 1 rule 2\n",
        4,
        "an object named `main`",
    ),
    (
        "int printf; int main(void) {}",
        "SOURCE line 1 rule 5\n",
        4,
        "an object with a known name",
    ),
    (
        "int x; int main(void) { assert = 1; }",
        "SOURCE line 1 rule 1\n",
        4,
        "a known name as a target",
    ),
    (
        "int x; int main(void) { x = 2147483648; }",
        "SOURCE line 1 rule 11\n",
        4,
        "a constant above the greatest `int`",
    ),
    ("int x;", "SOURCE line 0 rule 15\n", 4, "no `main`"),
    (
        "int main(void);",
        "SOURCE line 0 rule 15\n",
        4,
        "a `main` without a body",
    ),
    (
        "int f(void) {}",
        "SOURCE line 0 rule 15\n",
        4,
        "another function alone",
    ),
];

/// Files that no tree spells.
const REFUSED: [Row; 10] = [
    (
        "",
        "SOURCE line 1 token 0: not a program\n",
        4,
        "no external declaration",
    ),
    (
        "int x; /* no end",
        "SOURCE line 1 byte 7: not a token\n",
        4,
        "a comment without an end",
    ),
    (
        "int main(void) { goto out; }",
        "SOURCE line 1 token 6: not a program\n",
        4,
        "`goto`",
    ),
    (
        "#pragma once",
        "SOURCE line 1 byte 0: not a token\n",
        4,
        "another directive",
    ),
    (
        "int x = 08;",
        "SOURCE line 1 byte 8: not a token\n",
        4,
        "8 is no octal digit",
    ),
    (
        "int x;\nint main(void) { x = 1a; }",
        "SOURCE line 2 byte 28: not a token\n",
        4,
        "a letter behind a constant",
    ),
    (
        "int x;\nint main(void) {\n x = 1\n",
        "SOURCE line 4 token 12: not a program\n",
        4,
        "past the last token the line is the last",
    ),
    (
        "int x; int main(void) { x = 1; }\n}",
        "SOURCE line 2 token 14: not a program\n",
        4,
        "a brace too many",
    ),
    (
        "int while; int main(void) {}",
        "SOURCE line 1 token 1: not a program\n",
        4,
        "a keyword is no name",
    ),
    (
        "int x; int main(void) { x = 1++2; }",
        "SOURCE line 1 token 12: not a program\n",
        4,
        "`++` is one token",
    ),
];

/// Compares what was told; a success has a proof, and nothing else has one.
pub fn compare(rt: &impl Abort, told: &Told, report: &str, status: u8, reason: &str) {
    assert_eq!(rt; told.text.items(), report.as_bytes(), "{reason}");
    assert_eq!(rt; told.ended.status, status, "{reason}");
    assert_eq!(rt; has_proof(&told.ended), status == 0, "{reason}");
}

/// Each row, told by its reason where it fails.
pub fn compare_rows(rt: &impl Abort, alloc: Global, rows: &[Row]) -> Result<(), Fail> {
    for (text, report, status, reason) in rows {
        let told = call(alloc, &["a.c"], text.as_bytes(), AMPLE)
            .ok()
            .ok_or("memory")?;
        compare(rt, &told, report, *status, reason);
    }
    Ok(())
}

#[test]
fn reports_of_files(rt: HostRuntime) -> Result<(), Fail> {
    compare_rows(&rt, rt.alloc(), &VERDICTS)?;
    compare_rows(&rt, rt.alloc(), &EXPRESSIONS)?;
    compare_rows(&rt, rt.alloc(), &STATEMENTS)?;
    compare_rows(&rt, rt.alloc(), &KNOWN_NAMES)?;
    compare_rows(&rt, rt.alloc(), &CHOICES)?;
    compare_rows(&rt, rt.alloc(), &FAULTY)?;
    compare_rows(&rt, rt.alloc(), &REFUSED)
}

/// Words, the report, the status, and the reason of the row.
type WordRow<'a> = (&'a [&'a str], &'a str, u8, &'a str);

/// Calls the command with each row's words.
fn words_agree(rt: &impl Abort, alloc: Global, rows: &[WordRow<'_>]) -> Result<(), Fail> {
    for (words, report, status, reason) in rows {
        let told = call(alloc, words, b"int main(void){}", AMPLE)
            .ok()
            .ok_or("memory")?;
        compare(rt, &told, report, *status, reason);
    }
    Ok(())
}

/// Words that name a file and words that don't.
#[test]
fn reports_of_words(rt: HostRuntime) -> Result<(), Fail> {
    let table: [WordRow<'_>; 21] = [
        (&["no.c"], "READ no.c\n", 6, "no file of the name"),
        (
            &[""],
            "READ \n",
            6,
            "the empty word names a file, which is missing",
        ),
        (&[], USAGE, 3, "no word"),
        (&["-"], "READ -\n", 6, "a dash is a name"),
        (&["--help"], USAGE, 3, "help has no answer of its own"),
        (
            &["--unwind", "3", "a.c"],
            "SUCCESSFUL unwind 3 rounds 2\n",
            0,
            "three turns of a loop",
        ),
        (
            &["a.c", "--unwind=3"],
            "SUCCESSFUL unwind 3 rounds 2\n",
            0,
            "the order of words is free",
        ),
        (
            &["--rounds", "2", "--conflicts", "100000", "a.c"],
            SUCCESS,
            0,
            "the defaults, written out",
        ),
        (
            &["--seed", "7", "--schedule", "s", "a.c"],
            SUCCESS,
            0,
            "options that the mode does not use",
        ),
        (&["--unwind", "101", "a.c"], USAGE, 3, "too many turns"),
        (&["--unwind", "0", "a.c"], USAGE, 3, "no turn"),
        (&["--unwind", "3"], USAGE, 3, "no file"),
        (&["--seed", "65536", "a.c"], USAGE, 3, "too great a seed"),
        (&["a.c", "a.c"], USAGE, 3, "two files"),
        (&["--mode", "gen", "a.c"], USAGE, 3, "no seed"),
        (
            &["--rounds", "3", "a.c"],
            NOT_BUILT,
            12,
            "another number of rounds",
        ),
        (
            &["--conflicts", "1", "a.c"],
            NOT_BUILT,
            12,
            "another number of conflicts",
        ),
        (&["--proof", "p", "a.c"], NOT_BUILT, 12, "a proof"),
        (
            &["--mode", "gen", "--seed", "0", "a.c"],
            NOT_BUILT,
            12,
            "a generated program",
        ),
        (
            &["--mode", "emit", "a.c"],
            NOT_BUILT,
            12,
            "a printed program",
        ),
        (
            &["--mode", "recheck", "no.c"],
            "READ no.c\n",
            6,
            "no proof file of the name",
        ),
    ];
    words_agree(&rt, rt.alloc(), &table)
}

/// The turns of a loop, a text, the report, the status, and the reason of the row.
type TurnRow = (&'static str, &'static str, &'static str, u8, &'static str);

const TURNS: [TurnRow; 8] = [
    (
        "3",
        "int main(void) { int i = 0; while (i < 3) i = i + 1; assert(i != 3); }",
        "FAILED\ncheck assert line 1\nrounds 1\nstep 0 0\n",
        1,
        "three turns come to the check",
    ),
    (
        "1",
        "int main(void) { do { } while (0); while (1) ; assert(0); }",
        "SUCCESSFUL unwind 1 rounds 2\n",
        0,
        "a single turn",
    ),
    (
        "1",
        "int main(void) { do { } while (0); assert(0); }",
        "FAILED\ncheck assert line 1\nrounds 1\nstep 0 0\n",
        1,
        "which a `do` has in any case",
    ),
    (
        "100",
        "int main(void) { int i = 0; while (i < 100) i++; assert(i != 100); }",
        "FAILED\ncheck assert line 1\nrounds 1\nstep 0 0\n",
        1,
        "the most turns",
    ),
    (
        "100",
        "int main(void) { while (1) while (1) while (1) while (1) ; }",
        "LIMIT cost 417874751488 over 10000000\n",
        5,
        "four loops, one in the other",
    ),
    (
        "17",
        "void *f(void *a) { return NULL; } int main(void) { pthread_t t; while (1) pthread_create(&t, NULL, f, NULL); }",
        "LIMIT slots 17 over 16\n",
        5,
        "a thread a turn",
    ),
    (
        "16",
        "void *f(void *a) { return NULL; } int main(void) { pthread_t t; while (1) pthread_create(&t, NULL, f, NULL); }",
        HAS_CHOICE,
        12,
        "as many as there may be",
    ),
    (
        "3",
        "int x;\nint main(void) {\n int y; return y; }",
        "NOTBUILT line 3\n",
        12,
        "a choice, whatever the turns",
    ),
];

/// Calls the command with each row's turns.
fn turns_agree(rt: &impl Abort, alloc: Global, rows: &[TurnRow]) -> Result<(), Fail> {
    for (turns, text, report, status, reason) in rows {
        let told = call(alloc, &["--unwind", turns, "a.c"], text.as_bytes(), AMPLE)
            .ok()
            .ok_or("memory")?;
        compare(rt, &told, report, *status, reason);
    }
    Ok(())
}

#[test]
fn reports_within_turns(rt: HostRuntime) -> Result<(), Fail> {
    turns_agree(&rt, rt.alloc(), &TURNS)
}

/// Rechecks each row's text as a proof file. None has evidence.
fn proofs_agree(rt: &impl Abort, alloc: Global, rows: &[Row]) -> Result<(), Fail> {
    for (text, report, status, reason) in rows {
        let told = call(alloc, &["--mode", "recheck", "a.c"], text.as_bytes(), AMPLE)
            .ok()
            .ok_or("memory")?;
        assert_eq!(rt; told.text.items(), report.as_bytes(), "{reason}");
        assert_eq!(rt; told.ended.status, *status, "{reason}");
        assert!(rt; !has_proof(&told.ended), "{reason}");
    }
    Ok(())
}

/// Proof files: the report, the status, and the reason of the row.
#[test]
fn rechecks(rt: HostRuntime) -> Result<(), Fail> {
    let table: [Row; 7] = [
        (
            "p cnf 1 2\n1 0\n-1 0\nl 0 1 2 0\n",
            "REFUTED formula 2 log 1\n",
            0,
            "both clauses lead to a false one",
        ),
        (
            "p cnf 1 2\n1 0\n-1 0\nl 0 1 0\n",
            "BADSTEP index 0\n",
            11,
            "the last hint's clause is only unit",
        ),
        (
            "p cnf 1 2\n1 0\n-1 0\n",
            "BADSTEP index 0\n",
            11,
            "no step is empty",
        ),
        (
            "p cnf 1 2\n1 0\n",
            "TEXT line 3\n",
            10,
            "a clause is missing",
        ),
        (
            "p cnf 1\n1 0\n-1 0\n",
            "TEXT line 1\n",
            10,
            "no number of clauses",
        ),
        (
            "p cnf 1 2\n2 0\n-1 0\n",
            "TEXT line 2\n",
            10,
            "a variable too many",
        ),
        (
            "p cnf 1 2\n1 0\n-1 0\nl 0 1 3 0\n",
            "TEXT line 4\n",
            10,
            "a step that names itself",
        ),
    ];
    proofs_agree(&rt, rt.alloc(), &table)
}

/// A text before, a text so many times, and a text behind.
fn repeated(
    alloc: Global,
    before: &str,
    times: u32,
    part: &str,
    behind: &str,
) -> Result<Bytes, Memory> {
    let mut text = Bytes::new(alloc);
    text.append(before.as_bytes())?;
    for _ in 0..times {
        text.append(part.as_bytes())?;
    }
    text.append(behind.as_bytes())?;
    Ok(text)
}

/// A text before, how often a part stands, the part, a text behind, the report, the status, and the reason of the row.
type LimitRow = (
    &'static str,
    u32,
    &'static str,
    &'static str,
    &'static str,
    u8,
    &'static str,
);

/// Calls the command with each row's file.
fn limits_agree(rt: &impl Abort, alloc: Global, rows: &[LimitRow]) -> Result<(), Fail> {
    for (before, times, part, behind, report, status, reason) in rows {
        let source = repeated(alloc, before, *times, part, behind)
            .ok()
            .ok_or("memory")?;
        let told = call_with(alloc, &["a.c"], source, AMPLE, Calls::new(alloc))
            .ok()
            .ok_or("memory")?;
        compare(rt, &told, report, *status, reason);
    }
    Ok(())
}

/// Files of a repeated part, at a limit and past it.
#[test]
fn limits(rt: HostRuntime) -> Result<(), Fail> {
    let rows: [LimitRow; 8] = [
        (
            "",
            1_048_577,
            " ",
            "",
            "LIMIT file over 1048576 bytes\n",
            5,
            "a byte too many",
        ),
        (
            "",
            1_048_576,
            " ",
            "",
            "SOURCE line 1 token 0: not a program\n",
            4,
            "no token at all",
        ),
        (
            "int x; int main(void) { x = 1",
            99,
            " + 1",
            "; }",
            SUCCESS,
            0,
            "a hundred operands",
        ),
        (
            "int x; int main(void) { x = 1",
            100,
            " + 1",
            "; }",
            SUCCESS,
            0,
            "and one more",
        ),
        (
            "int main(void) { return ",
            197,
            "(",
            "0))))))))))))))))))))))))))))))))))))))))))))))))))))))))))))))))))))))))))))))))))))))))))))))))))))))))))))))))))))))))))))))))))))))))))))))))))))))))))))))))))))))))))))))))))))))))))))))))))))); }",
            SUCCESS,
            0,
            "the highest node",
        ),
        (
            "int main(void) { return ",
            197,
            "(",
            "0",
            "SOURCE line 1 token 205: not a program\n",
            4,
            "197 open parentheses and a 0 may go on",
        ),
        (
            "int main(void) { return ",
            198,
            "(",
            "0",
            "SOURCE line 1 token 204: not a program\n",
            4,
            "a node of height 201",
        ),
        (
            "int main(void) { return ",
            198,
            "(",
            "0)))))))))))))))))))))))))))))))))))))))))))))))))))))))))))))))))))))))))))))))))))))))))))))))))))))))))))))))))))))))))))))))))))))))))))))))))))))))))))))))))))))))))))))))))))))))))))))))))))))); }",
            "SOURCE line 1 token 204: not a program\n",
            4,
            "a node of height 201, in a whole program",
        ),
    ];
    limits_agree(&rt, rt.alloc(), &rows)
}

/// A sink with room for five bytes takes a front of the report, and the evidence stays.
#[test]
fn a_full_sink_keeps_the_evidence(rt: HostRuntime) -> Result<(), Fail> {
    let told = call(rt.alloc(), &["a.c"], b"int main(void){}", 5)
        .ok()
        .ok_or("memory")?;
    assert_eq!(rt; told.text.items(), b"SUCCE".as_slice());
    assert_eq!(rt; told.ended.status, 7);
    assert!(rt; has_proof(&told.ended));
    Ok(())
}

/// A read that fails in mid-stream is no shorter file.
#[test]
fn a_failing_read_is_told(rt: HostRuntime) -> Result<(), Fail> {
    let mut source = Bytes::new(rt.alloc());
    source.append(b"int main(void){}").ok().ok_or("memory")?;
    let mut fails = Calls::new(rt.alloc());
    fails.push(1).ok().ok_or("memory")?;
    let told = call_with(rt.alloc(), &["a.c"], source, AMPLE, fails)
        .ok()
        .ok_or("memory")?;
    assert_eq!(rt; told.text.items(), b"READ a.c\n".as_slice());
    assert_eq!(rt; told.ended.status, 6);
    assert!(rt; !has_proof(&told.ended));
    Ok(())
}
