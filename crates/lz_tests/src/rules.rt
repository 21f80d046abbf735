//! The rules, the slots and the cost of programs, as the command tells them. The expected lines and numbers were worked
//! out by hand; bench/rules_random.py has them too, beside a checker that was written apart.

use crate::command::{HAS_CHOICE, Row, SUCCESS, call, call_with, compare, compare_rows};
use crate::told::AMPLE;
use lz_base::{Bytes, Memory};
use lz_outside::Calls;
use std::alloc::Global;
use std::process::Abort;
use std::test::Fail;

/// A program for each rule that breaks it.
const BROKEN: [Row; 28] = [
    (
        "int main(void) {\n return y; }",
        "SOURCE line 2 rule 1\n",
        4,
        "rule 1: what breaks it",
    ),
    (
        "int x;\nint x; int main(void) { }",
        "SOURCE line 2 rule 2\n",
        4,
        "rule 2: what breaks it",
    ),
    (
        "int main(void) {\n g(); }",
        "SOURCE line 2 rule 3\n",
        4,
        "rule 3: what breaks it",
    ),
    (
        "void f(int a) { } int main(void) {\n f(); }",
        "SOURCE line 2 rule 4\n",
        4,
        "rule 4: what breaks it",
    ),
    (
        "int assert; int main(void) { }",
        "SOURCE line 1 rule 5\n",
        4,
        "rule 5: what breaks it",
    ),
    (
        "void f(void) { } int main(void) {\n return f(); }",
        "SOURCE line 2 rule 6\n",
        4,
        "rule 6: what breaks it",
    ),
    (
        "int a[2]; int main(void) {\n return a + 1; }",
        "SOURCE line 2 rule 7\n",
        4,
        "rule 7: what breaks it",
    ),
    (
        "int a[0]; int main(void) { }",
        "SOURCE line 1 rule 8\n",
        4,
        "rule 8: what breaks it",
    ),
    (
        "int x; int y = x; int main(void) { }",
        "SOURCE line 1 rule 9\n",
        4,
        "rule 9: what breaks it",
    ),
    (
        "int x = { 1 }; int main(void) { }",
        "SOURCE line 1 rule 10\n",
        4,
        "rule 10: what breaks it",
    ),
    (
        "int x =\n2147483648; int main(void) { }",
        "SOURCE line 2 rule 11\n",
        4,
        "rule 11: what breaks it",
    ),
    (
        "int main(void) {\n break; }",
        "SOURCE line 2 rule 12\n",
        4,
        "rule 12: what breaks it",
    ),
    (
        "int main(void) {\n return; }",
        "SOURCE line 2 rule 13\n",
        4,
        "rule 13: what breaks it",
    ),
    (
        "int f(int n) {\n return f(n); } int main(void) { }",
        "SOURCE line 2 rule 14\n",
        4,
        "rule 14: what breaks it",
    ),
    (
        "int x;",
        "SOURCE line 0 rule 15\n",
        4,
        "rule 15: what breaks it",
    ),
    (
        "pthread_t t; int main(void) {\n pthread_create(&t, 0, main, 0); }",
        "SOURCE line 2 rule 16\n",
        4,
        "rule 16: what breaks it",
    ),
    (
        "void *f(void *a) { pthread_t\nt; return a; } int main(void) { }",
        "SOURCE line 2 rule 17\n",
        4,
        "rule 17: what breaks it",
    ),
    (
        "int f(\nvoid *a) { return 0; } int main(void) { }",
        "SOURCE line 2 rule 18\n",
        4,
        "rule 18: what breaks it",
    ),
    (
        "int main(void) { pthread_mutex_t\nm; }",
        "SOURCE line 2 rule 19\n",
        4,
        "rule 19: what breaks it",
    ),
    (
        "int x; int main(void) {\n return &x; }",
        "SOURCE line 2 rule 20\n",
        4,
        "rule 20: what breaks it",
    ),
    (
        "pthread_mutex_t m; int main(void) {\n pthread_mutex_init(&m, 1); }",
        "SOURCE line 2 rule 21\n",
        4,
        "rule 21: what breaks it",
    ),
    (
        "int main(void) {\n printf(1); }",
        "SOURCE line 2 rule 22\n",
        4,
        "rule 22: what breaks it",
    ),
    (
        "long\nx; int main(void) { }",
        "SOURCE line 1 rule 24\n",
        4,
        "rule 24: what breaks it",
    ),
    (
        "\nint f(int); int f(unsigned a) { return 0; } int main(void) { }",
        "SOURCE line 2 rule 25\n",
        4,
        "rule 25: what breaks it",
    ),
    (
        "int main(void) { return y + f(); }",
        "SOURCE line 1 rule 1\n",
        4,
        "the first of two faults in the order of the text",
    ),
    (
        "int main(void) { break; }",
        "SOURCE line 1 rule 12\n",
        4,
        "the fault stands on the first line",
    ),
    (
        "long x; int main(void){}",
        "SOURCE line 1 rule 24\n",
        4,
        "a type that is read and refused",
    ),
    (
        "int f(int n) { return f(n); } int main(void) { return f(1); }",
        "SOURCE line 1 rule 14\n",
        4,
        "the call in the function itself comes first",
    ),
];

/// A program for each rule that comes near it, and breaks none.
const NEAR: [Row; 24] = [
    (
        "int main(void) { int y = y; return y; }",
        SUCCESS,
        0,
        "rule 1: what comes near",
    ),
    (
        "int x; int main(void) { int x; { int x; } for (int x; ; ) int x; }",
        HAS_CHOICE,
        12,
        "rule 2: what comes near",
    ),
    (
        "int main(void) { g(); } void g(void) { }",
        SUCCESS,
        0,
        "rule 3: what comes near",
    ),
    (
        "int main(void) { printf(\"%d %d\", 1, 2); }",
        SUCCESS,
        0,
        "rule 4: what comes near",
    ),
    (
        "int reach_error; int f(int reach_error) { return reach_error; } void assert(int); int main(void) { }",
        SUCCESS,
        0,
        "rule 5: what comes near",
    ),
    (
        "void f(void) { } int main(void) { f(); (f()); for (f(); 0; (f())) ; }",
        SUCCESS,
        0,
        "rule 6: what comes near",
    ),
    (
        "int a[2]; int main(void) { return a[1] + (int)NULL; }",
        SUCCESS,
        0,
        "rule 7: what comes near",
    ),
    (
        "int a[1], b[4096]; int main(void) { }",
        SUCCESS,
        0,
        "rule 8: what comes near",
    ),
    (
        "int x; int main(void) { int y = x; return y; }",
        SUCCESS,
        0,
        "rule 9: what comes near",
    ),
    (
        "int x[2] = { 1, }; pthread_mutex_t m = PTHREAD_MUTEX_INITIALIZER; int main(void) { }",
        SUCCESS,
        0,
        "rule 10: what comes near",
    ),
    (
        "unsigned x = 4294967295u; int y = 2147483647, z = 0xffffffff; int main(void) { }",
        SUCCESS,
        0,
        "rule 11: what comes near",
    ),
    (
        "int main(void) { while (1) { if (1) continue; break; } }",
        SUCCESS,
        0,
        "rule 12: what comes near",
    ),
    (
        "void f(void) { return; } int main(void) { return 0; }",
        SUCCESS,
        0,
        "rule 13: what comes near",
    ),
    (
        "void a(void) { } void b(void) { a(); a(); } int main(void) { b(); a(); }",
        SUCCESS,
        0,
        "rule 14: what comes near",
    ),
    ("signed main() { }", SUCCESS, 0, "rule 15: what comes near"),
    (
        "pthread_t t; int main(void) { pthread_create(&t, 0, f, 0); } void *f(void *a) { return a; }",
        HAS_CHOICE,
        12,
        "rule 16: what comes near",
    ),
    (
        "void g(void) { pthread_t t; } int main(void) { g(); }",
        SUCCESS,
        0,
        "rule 17: what comes near",
    ),
    (
        "void *f(void *a); void *f(void *a) { return a; } int main(void) { }",
        SUCCESS,
        0,
        "rule 18: what comes near",
    ),
    (
        "pthread_mutex_t m; pthread_cond_t c[2]; int main(void) { }",
        SUCCESS,
        0,
        "rule 19: what comes near",
    ),
    (
        "pthread_mutex_t m[2]; int main(void) { pthread_mutex_lock(&m[1]); }",
        SUCCESS,
        0,
        "rule 20: what comes near",
    ),
    (
        "pthread_mutex_t m; pthread_t t; int main(void) { pthread_mutex_init(&m, '\\0'); pthread_join(t, NULL); }",
        "FAILED\ncheck join line 1\nrounds 1\nstep 0 0\nstep 0 0\n",
        1,
        "rule 21: what comes near",
    ),
    (
        "int main(void) { printf(\"a\"); }",
        SUCCESS,
        0,
        "rule 22: what comes near",
    ),
    (
        "signed int x; unsigned int y = 1u; int main(void) { }",
        SUCCESS,
        0,
        "rule 24: what comes near",
    ),
    (
        "int f(); int f(int a) { return a; } signed f(signed int); int main(void) { }",
        SUCCESS,
        0,
        "rule 25: what comes near",
    ),
];

/// Programs that break several rules, of which the first is told.
const ORDER: [Row; 24] = [
    (
        "int x;\nint main(void) { x = y +\n z(); }",
        "SOURCE line 2 rule 1\n",
        4,
        "rule 1: operands go from left to right",
    ),
    (
        "int x;\nint x = y; int main(void) { }",
        "SOURCE line 2 rule 2\n",
        4,
        "rule 2: by number before the value of a declarator",
    ),
    (
        "int main(void) { g(\ny); }",
        "SOURCE line 1 rule 3\n",
        4,
        "rule 3: a call before its arguments",
    ),
    (
        "int main(void) { assert(\ny, 1); }",
        "SOURCE line 1 rule 4\n",
        4,
        "rule 4: a call before its arguments",
    ),
    (
        "int x;\nvoid abort = x; int main(void) { }",
        "SOURCE line 2 rule 5\n",
        4,
        "rule 5: by number at one declarator",
    ),
    (
        "void f(void) { } int main(void) { int x =\nf() + y; }",
        "SOURCE line 2 rule 6\n",
        4,
        "rule 6: operands go from left to right",
    ),
    (
        "pthread_mutex_t m; int main(void) { return m +\ny; }",
        "SOURCE line 1 rule 7\n",
        4,
        "rule 7: operands go from left to right",
    ),
    (
        "int n; int a[\nn + y]; int main(void) { }",
        "SOURCE line 1 rule 8\n",
        4,
        "rule 8: a declarator before its length",
    ),
    (
        "int y =\nz; int main(void) { }",
        "SOURCE line 1 rule 9\n",
        4,
        "rule 9: a declarator before its value",
    ),
    (
        "int x[1] = { 1,\n2147483648 }; int main(void) { }",
        "SOURCE line 1 rule 10\n",
        4,
        "rule 10: a declarator before its values",
    ),
    (
        "int main(void) { return 4294967296u +\ny; }",
        "SOURCE line 1 rule 11\n",
        4,
        "rule 11: operands go from left to right",
    ),
    (
        "int main(void) { while (1) ;\n continue;\n return; }",
        "SOURCE line 2 rule 12\n",
        4,
        "rule 12: in the order of the text",
    ),
    (
        "void f(void) { return\ny; } int main(void) { }",
        "SOURCE line 1 rule 13\n",
        4,
        "rule 13: a return before its value",
    ),
    (
        "int f(int n) { return f(\ny, 1); } int main(void) { }",
        "SOURCE line 1 rule 4\n",
        4,
        "rule 14: by number at one call",
    ),
    (
        "unsigned main(void) {\n return y; }",
        "SOURCE line 2 rule 1\n",
        4,
        "rule 15: the file comes last",
    ),
    (
        "pthread_t t; int main(void) { pthread_create(\nt, y, main, 0); }",
        "SOURCE line 1 rule 16\n",
        4,
        "rule 16: by number at one call, before its arguments",
    ),
    (
        "void *f(void *a) { pthread_join(\n1, 1); return a; } int main(void) { }",
        "SOURCE line 1 rule 17\n",
        4,
        "rule 17: by number at one call",
    ),
    (
        "void *f(int a,\nint a) { return 0; } int main(void) { }",
        "SOURCE line 1 rule 18\n",
        4,
        "rule 18: a function before its parameters",
    ),
    (
        "int f(pthread_mutex_t m,\nvoid a) { } int main(void) { }",
        "SOURCE line 1 rule 19\n",
        4,
        "rule 19: parameters go from left to right",
    ),
    (
        "pthread_mutex_t m; int main(void) { pthread_mutex_init(m,\ny); }",
        "SOURCE line 1 rule 20\n",
        4,
        "rule 20: by number at one call, before its arguments",
    ),
    (
        "pthread_mutex_t m; int main(void) { pthread_mutex_init(&m,\ny); }",
        "SOURCE line 1 rule 21\n",
        4,
        "rule 21: a call before its arguments",
    ),
    (
        "int main(void) { printf(\ny, \"b\"); }",
        "SOURCE line 1 rule 22\n",
        4,
        "rule 22: a call before its arguments",
    ),
    (
        "char\nx,\nx; int main(void) { }",
        "SOURCE line 1 rule 24\n",
        4,
        "rule 24: a declaration before its declarators",
    ),
    (
        "int f(int,\nvoid); int f(int a) { return a; } int main(void) { }",
        "SOURCE line 1 rule 25\n",
        4,
        "rule 25: a prototype before its parameters",
    ),
];

/// The limits on slots and cost, at two turns of a loop and two rounds.
const LIMITS: [Row; 5] = [
    (
        "int main(void) { int a[4096], b[782]; (int)0; (int)0; (int)0; }",
        HAS_CHOICE,
        12,
        "as much as a program may cost",
    ),
    (
        "int main(void) { int a[4096], b[782]; (int)0; (int)0; (int)0; (int)0; }",
        "LIMIT cost 10000384 over 10000000\n",
        5,
        "one cast more",
    ),
    (
        "void *f(void *a) { } pthread_t t; int main(void) { while (1) do do do pthread_create(&t, 0, f, 0); while (1); while (1); while (1); }",
        HAS_CHOICE,
        12,
        "sixteen slots",
    ),
    (
        "void *f(void *a) { } pthread_t t; int g(void) { return pthread_create(&t, 0, f, 0); } int main(void) { while (1) do do do g(); while (1); while (1); while (1); g(); }",
        "LIMIT slots 17 over 16\n",
        5,
        "a slot more, through a call",
    ),
    (
        "void *f(void *a) { } int main(void) { pthread_t t; while (1) do { for (pthread_create(&t, 0, f, 0); pthread_create(&t, 0, f, 0); pthread_create(&t, 0, f, 0)) ; } while (pthread_create(&t, 0, f, 0)); }",
        "LIMIT slots 28 over 16\n",
        5,
        "sites in each part of loops",
    ),
];

/// What stands before the statements of a row of costs.
const BEFORE: &str =
    "int x, a[3]; unsigned u; pthread_mutex_t m, mm[4]; pthread_cond_t c, cc[5]; pthread_t t, tt[6];\nvoid v(void) { } int w(int i, unsigned j) { return i; } void *s(void *p) { return p; }\n";

/// Statements of `main`, and what they cost at two turns of a loop.
const COSTS: [(&str, u64); 91] = [
    ("1; 'a'; NULL; (1); +1; ; { } l: ; printf(\"a\");", 0),
    ("x;", 1024),
    ("a[1];", 2816),
    ("a[x];", 3840),
    ("-1;", 512),
    ("~1;", 512),
    ("!1;", 512),
    ("(int)1;", 256),
    ("(void *)1;", 256),
    ("1 + 1;", 1024),
    ("1 - 1;", 1024),
    ("1 < 1;", 1024),
    ("1 > 1;", 1024),
    ("1 <= 1;", 1024),
    ("1 >= 1;", 1024),
    ("1 == 1;", 1024),
    ("1 != 1;", 1024),
    ("1 & 1;", 1024),
    ("1 ^ 1;", 1024),
    ("1 | 1;", 1024),
    ("1 << 1;", 2048),
    ("1 >> 1;", 2048),
    ("1 * 1;", 8192),
    ("1 / 1;", 16384),
    ("1 % 1;", 16384),
    ("1 && 1;", 2048),
    ("1 || 1;", 2048),
    ("1 ? 1 : 1;", 3072),
    ("x = 1;", 1024),
    ("a[1] = 1;", 2816),
    ("x += 1;", 3072),
    ("x -= 1;", 3072),
    ("x *= 1;", 10240),
    ("x /= 1;", 18432),
    ("x %= 1;", 18432),
    ("x &= 1;", 3072),
    ("x |= 1;", 3072),
    ("x ^= 1;", 3072),
    ("x <<= 1;", 4096),
    ("x >>= 1;", 4096),
    ("a[1] += 1;", 6656),
    ("a[1] /= x;", 23040),
    ("a[x] <<= 1;", 8704),
    ("x++;", 3072),
    ("--x;", 3072),
    ("a[1]++;", 6656),
    ("--a[x];", 7680),
    ("v();", 1024),
    ("w(1, x);", 6144),
    ("int k;", 1024),
    ("int k[7];", 7168),
    ("int k, l[2] = { x, 1 };", 4096),
    ("int k[1 + 1];", 3072),
    ("pthread_t k[2];", 2048),
    ("if (1) ;", 2048),
    ("if (x) x; else x;", 5120),
    ("while (1) ;", 6144),
    ("while (x) u;", 11264),
    ("do u; while (x);", 11264),
    ("for (;;) ;", 6144),
    ("for (x; !x; x++) u;", 19968),
    ("for (int i = x; ; ) ;", 8192),
    ("while (1) break;", 8192),
    ("while (1) continue;", 8192),
    ("return 1;", 1024),
    ("assert(1);", 1024),
    ("__VERIFIER_assume(x);", 2048),
    ("__VERIFIER_nondet_int();", 1024),
    ("__VERIFIER_nondet_uint();", 1024),
    ("__VERIFIER_error();", 1024),
    ("reach_error();", 1024),
    ("abort();", 1024),
    ("pthread_exit(0);", 1024),
    ("__VERIFIER_atomic_begin();", 2048),
    ("__VERIFIER_atomic_end();", 2048),
    ("pthread_mutex_init(&m, 0);", 2304),
    ("pthread_mutex_destroy(&m);", 2304),
    ("pthread_mutex_lock(&mm[1]);", 3072),
    ("pthread_mutex_unlock(&mm[x]);", 4096),
    ("pthread_cond_init(&cc[1], NULL);", 3328),
    ("pthread_cond_destroy(&c);", 2304),
    ("pthread_cond_wait(&cc[1], &mm[1]);", 10496),
    ("pthread_cond_signal(&c);", 2816),
    ("pthread_cond_broadcast(&cc[x]);", 4864),
    ("pthread_join(t, 0);", 4864),
    ("pthread_join(tt[x], 0);", 7168),
    ("printf(\"a\", x, -1);", 1536),
    ("pthread_create(&t, 0, s, 0);", 14592),
    ("pthread_create(&tt[x], 0, s, (void *)x);", 18176),
    ("pthread_create(&t, 0, s, 0); pthread_join(t, 0);", 19968),
    (
        "pthread_cond_signal(&c); while (1) pthread_create(&t, 0, s, 0);",
        39168,
    ),
];

/// What `main` costs beside them: itself and the two arrays that bring the cost over the limit.
const BESIDE: u64 = 4_096 + 8_388_608;

#[test]
fn rules(rt: HostRuntime) -> Result<(), Fail> {
    compare_rows(&rt, rt.alloc(), &BROKEN)?;
    compare_rows(&rt, rt.alloc(), &NEAR)?;
    compare_rows(&rt, rt.alloc(), &ORDER)
}

/// Functions, each but the first of which calls the one before it, and what stands behind them.
fn tower(alloc: Global, functions: u32, behind: &str) -> Result<Bytes, Memory> {
    let mut text = Bytes::new(alloc);
    text.append(b"void f0(void) { }\n")?;
    for number in 1..functions {
        text.append(b"void f")?;
        text.append_number(u64::from(number))?;
        text.append(b"(void) { f")?;
        text.append_number(u64::from(number - 1))?;
        text.append(b"(); }\n")?;
    }
    text.append(behind.as_bytes())?;
    Ok(text)
}

/// Functions, each but the first of which calls the one before it twice, and a `main` that calls the last.
fn doubling(alloc: Global, functions: u32) -> Result<Bytes, Memory> {
    let mut text = Bytes::new(alloc);
    text.append(b"void f0(void) { }\n")?;
    for number in 1..functions {
        text.append(b"void f")?;
        text.append_number(u64::from(number))?;
        text.append(b"(void) { f")?;
        text.append_number(u64::from(number - 1))?;
        text.append(b"(); f")?;
        text.append_number(u64::from(number - 1))?;
        text.append(b"(); }\n")?;
    }
    text.append(b"int main(void) { f")?;
    text.append_number(u64::from(functions.saturating_sub(1)))?;
    text.append(b"(); }")?;
    Ok(text)
}

/// So many arrays of 4,096 elements at file scope, and what stands behind them.
fn arrays(alloc: Global, count: u32, behind: &str) -> Result<Bytes, Memory> {
    let mut text = Bytes::new(alloc);
    for number in 0..count {
        text.append(b"int a")?;
        text.append_number(u64::from(number))?;
        text.append(b"[4096]; ")?;
    }
    text.append(behind.as_bytes())?;
    Ok(text)
}

/// A number of functions or arrays, a text behind them, the report, the status, and the reason of the row.
type LargeRow = (u32, &'static str, &'static str, u8, &'static str);

/// Compares what is told of each row's tower of functions.
fn towers_agree(rt: &impl Abort, alloc: Global, rows: &[LargeRow]) -> Result<(), Fail> {
    for (functions, behind, report, status, reason) in rows {
        let text = tower(alloc, *functions, behind).ok().ok_or("memory")?;
        let told = call_with(alloc, &["a.c"], text, AMPLE, Calls::new(alloc))
            .ok()
            .ok_or("memory")?;
        compare(rt, &told, report, *status, reason);
    }
    Ok(())
}

/// Compares what is told of each row's arrays.
fn arrays_agree(rt: &impl Abort, alloc: Global, rows: &[LargeRow]) -> Result<(), Fail> {
    for (count, behind, report, status, reason) in rows {
        let text = arrays(alloc, *count, behind).ok().ok_or("memory")?;
        let told = call_with(alloc, &["a.c"], text, AMPLE, Calls::new(alloc))
            .ok()
            .ok_or("memory")?;
        compare(rt, &told, report, *status, reason);
    }
    Ok(())
}

#[test]
fn rules_of_large_files(rt: HostRuntime) -> Result<(), Fail> {
    let alloc = rt.alloc();
    let towers: [LargeRow; 4] = [
        (
            334,
            "void g(int a){ f333(); } int main(void) { }",
            "SOURCE line 335 rule 26\n",
            4,
            "334 functions, and one with a parameter that calls the last",
        ),
        (
            334,
            "void g(int a,\nint a){ f333(); } int main(void) { }",
            "SOURCE line 335 rule 26\n",
            4,
            "334 functions, and one that is told before its parameters",
        ),
        (
            334,
            "int main(void) { }",
            SUCCESS,
            0,
            "334 functions, the last of which is as high as may be",
        ),
        (
            335,
            "int main(void){}",
            "SOURCE line 335 rule 26\n",
            4,
            "335 functions, the last of which is too high",
        ),
    ];
    towers_agree(&rt, alloc, &towers)?;
    let rows: [LargeRow; 3] = [
        (
            16,
            "int\nx; int main(void) { }",
            "SOURCE line 2 rule 23\n",
            4,
            "one element more than 16 arrays have, at its name",
        ),
        (
            16,
            "int main(void) { int x; }",
            HAS_CHOICE,
            12,
            "16 arrays, and an object that is not at file scope",
        ),
        (
            16,
            "int\nx = y; int main(void) { }",
            "SOURCE line 2 rule 9\n",
            4,
            "of two rules that the declarator of one element more breaks, the first",
        ),
    ];
    arrays_agree(&rt, alloc, &rows)?;
    let text = doubling(alloc, 61).ok().ok_or("memory")?;
    let told = call_with(alloc, &["a.c"], text, AMPLE, Calls::new(alloc))
        .ok()
        .ok_or("memory")?;
    compare(
        &rt,
        &told,
        "LIMIT cost 18446744073709551615 over 10000000\n",
        5,
        "a sum stops at its greatest number",
    );
    Ok(())
}

/// A program whose `main` has these statements behind two large arrays.
fn costly(alloc: Global, statements: &str) -> Result<Bytes, Memory> {
    let mut text = Bytes::new(alloc);
    text.append(BEFORE.as_bytes())?;
    text.append(b"int main(void) { int large[4096], larger[4096]; ")?;
    text.append(statements.as_bytes())?;
    text.append(b" }\n")?;
    Ok(text)
}

/// The report of a cost over the limit.
fn over_cost(alloc: Global, cost: u64) -> Result<Bytes, Memory> {
    let mut text = Bytes::new(alloc);
    text.append(b"LIMIT cost ")?;
    text.append_number(cost)?;
    text.append(b" over 10000000\n")?;
    Ok(text)
}

/// Compares the cost of each row's statements.
fn costs_agree(rt: &impl Abort, alloc: Global, rows: &[(&str, u64)]) -> Result<(), Fail> {
    for (statements, own) in rows {
        let text = costly(alloc, statements).ok().ok_or("memory")?;
        let told = call_with(alloc, &["a.c"], text, AMPLE, Calls::new(alloc))
            .ok()
            .ok_or("memory")?;
        let cost = BESIDE.saturating_add(*own).saturating_mul(2);
        let report = over_cost(alloc, cost).ok().ok_or("memory")?;
        assert_eq!(rt; told.text.items(), report.items(), "{statements}");
    }
    Ok(())
}

#[test]
fn costs(rt: HostRuntime) -> Result<(), Fail> {
    compare_rows(&rt, rt.alloc(), &LIMITS)?;
    costs_agree(&rt, rt.alloc(), &COSTS)
}
