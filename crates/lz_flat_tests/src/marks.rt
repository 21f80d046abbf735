//! Which marks are taken, by lz_points.

ghost use Rattle.std.specs.Prelude.{◌≡◌, IfOk, [], ◌∷◌, true, map, replicate};
ghost use Rattle.lz_base.specs.declared.word.BreakKind.TheVariants.{Assert};
ghost use Rattle.lz_flat.specs.Programs.{expression, instruction, marked, flat_program, sets, checks, assumes, skips};
ghost use Rattle.lz_flat.specs.Programs as programs;
ghost use Rattle.lz_flat_tests.specs.MarksExamples.{sets_word, shared_word, long_code, short_code, mixed};

use lz_base::{Binary, BreakKind, IntType, Memory, Sequence, Values};
use lz_flat::{Flat, FlatExpr, FlatThread, FlatThreads, Instr, Marked, Spot, binary_expr};
use lz_points::mark;
use std::alloc::Global;
use std::test::Fail;

fn constant(value: u64) -> FlatExpr
    ensures { expression result ≡ programs.constant value }
{
    FlatExpr::Constant { value }
}

fn word(place: u32) -> FlatExpr
    ensures { expression result ≡ programs.word place }
{
    FlatExpr::Word { place }
}

fn element(alloc: Global, first: u32, len: u32, index: FlatExpr) -> Result<FlatExpr, Memory>
    ensures { IfOk result (λ made. expression made ≡ programs.element first len (expression index)) }
{
    let index = Box::new(alloc, index)?;
    Ok(FlatExpr::Element { first, len, index })
}

fn set_word(place: u32, value: FlatExpr) -> Instr
    ensures { instruction result ≡ sets_word place (expression value) }
{
    let to = Spot {
        first: place,
        len: 1,
        index: constant(0),
    };
    Instr::Set { to, value }
}

fn check(test: FlatExpr, line: u32) -> Instr
    ensures { instruction result ≡ checks (expression test) Assert line }
{
    Instr::Check {
        test,
        kind: BreakKind::Assert,
        line,
    }
}

fn assume(test: FlatExpr) -> Instr
    ensures { instruction result ≡ assumes (expression test) }
{
    Instr::Assume { test }
}

fn skip(test: FlatExpr, by: u32) -> Instr
    ensures { instruction result ≡ skips (expression test) by }
{
    Instr::Skip { test, by }
}

fn marked_so(instr: Instr, visible: bool) -> Marked
    ensures { marked result ≡ record { instr = instruction instr; visible = visible } }
{
    Marked { instr, visible }
}

fn zeros(alloc: Global, count: usize) -> Result<Values, Memory>
    ensures { IfOk result (λ made. made ≡ replicate count 0) }
{
    let mut first = Sequence::new(alloc);
    for _ in 0..count {
        first.push(0)?;
    }
    Ok(first)
}

fn program(alloc: Global, one: FlatThread, other: FlatThread, words: usize) -> Result<Flat, Memory>
    ensures { IfOk result (λ flat. flat_program flat ≡ record { threads = map marked one ∷ map marked other ∷ []; first = replicate words 0 }) }
{
    let first = zeros(alloc, words)?;
    let mut threads = FlatThreads::new(alloc);
    threads.push(one)?;
    threads.push(other)?;
    Ok(Flat { threads, first })
}

fn one_instruction(alloc: Global, instr: Instr) -> Result<FlatThread, Memory>
    ensures { IfOk result (λ code. map marked code ≡ record { instr = instruction instr; visible = true } ∷ []) }
{
    let mut code = FlatThread::new(alloc);
    code.push(marked_so(instr, true))?;
    Ok(code)
}

fn shared(alloc: Global) -> Result<Flat, Memory>
    ensures { IfOk result (λ flat. flat_program flat ≡ shared_word) }
{
    let test = binary_expr(alloc, Binary::Eq, IntType::Int, word(0), constant(0))?;
    let reader = one_instruction(alloc, check(test, 7))?;
    let writer = one_instruction(alloc, set_word(0, constant(1)))?;
    program(alloc, reader, writer, 1)
}

fn long_thread(alloc: Global) -> Result<FlatThread, Memory>
    ensures { IfOk result (λ code. map marked code ≡ long_code) }
{
    let mut code = FlatThread::new(alloc);
    code.push(marked_so(set_word(0, constant(1)), true))?;
    code.push(marked_so(set_word(5, word(0)), true))?;
    code.push(marked_so(set_word(1, word(0)), true))?;
    code.push(marked_so(assume(word(0)), true))?;
    code.push(marked_so(check(word(5), 1), true))?;
    code.push(marked_so(skip(word(0), 2), false))?;
    code.push(marked_so(set_word(1, constant(0)), false))?;
    code.push(marked_so(check(word(0), 2), true))?;
    code.push(marked_so(set_word(4, constant(0)), true))?;
    code.push(marked_so(skip(word(5), 2), true))?;
    code.push(marked_so(set_word(0, constant(2)), true))?;
    Ok(code)
}

fn short_thread(alloc: Global) -> Result<FlatThread, Memory>
    ensures { IfOk result (λ code. map marked code ≡ short_code) }
{
    let both = element(alloc, 3, 2, word(2))?;
    let own = element(alloc, 3, 1, word(2))?;
    let indexed = element(alloc, 2, 1, word(1))?;
    let mut code = FlatThread::new(alloc);
    code.push(marked_so(check(word(1), 3), true))?;
    code.push(marked_so(set_word(2, both), true))?;
    code.push(marked_so(set_word(2, own), true))?;
    code.push(marked_so(set_word(2, indexed), true))?;
    Ok(code)
}

fn mixed_threads(alloc: Global) -> Result<Flat, Memory>
    ensures { IfOk result (λ flat. flat_program flat ≡ mixed) }
{
    let long = long_thread(alloc)?;
    let short = short_thread(alloc)?;
    program(alloc, long, short, 6)
}

fn mark_shared(flat: &mut Flat)
    requires { flat_program flat.old ≡ shared_word }
{
    mark(flat);
}

fn mark_mixed(flat: &mut Flat)
    requires { flat_program flat.old ≡ mixed }
{
    mark(flat);
}

/// A place of a thread, whether it is visible after, and why.
type Row<'a> = (usize, usize, bool, &'a str);

fn visible_at(flat: &Flat, thread: usize, place: usize) -> Option<bool> {
    let code = flat.threads.items().get(thread)?;
    let next = code.items().get(place)?;
    Some(next.visible)
}

/// Why the first row that is not so should be, if there is one.
fn first_wrong<'a>(flat: &Flat, rows: &[Row<'a>]) -> Option<&'a str> {
    for (thread, place, visible, why) in rows {
        if visible_at(flat, *thread, *place) != Some(*visible) {
            return Some(why);
        }
    }
    None
}

/// The only word is shared, and each instruction is its thread's first.
#[test]
fn first_instructions_keep_their_marks(rt: HostRuntime) -> Result<(), Fail> {
    let mut flat = shared(rt.alloc()).ok().ok_or("memory")?;
    mark_shared(&mut flat);
    let rows = [(0, 0, true, "the check"), (1, 0, true, "the write")];
    assert_eq!(rt; first_wrong(&flat, &rows), None);
    Ok(())
}

/// Words 0 and 5 are thread 0's, words 2 and 3 are thread 1's, and words 1 and 4 are shared.
#[test]
fn marks_of_own_words_are_taken(rt: HostRuntime) -> Result<(), Fail> {
    let mut flat = mixed_threads(rt.alloc()).ok().ok_or("memory")?;
    mark_mixed(&mut flat);
    let rows = [
        (0, 0, true, "the first of its thread"),
        (0, 1, false, "own words, and a visible one is next"),
        (0, 2, true, "a shared word is set"),
        (0, 3, true, "an assumption"),
        (0, 4, true, "a hidden write of a shared word may follow"),
        (0, 5, false, "was hidden"),
        (0, 6, false, "was hidden"),
        (0, 7, false, "own words, and a visible one is next"),
        (0, 8, true, "a shared word is set"),
        (0, 9, false, "it leads to a visible one or to the end"),
        (0, 10, false, "the last one"),
        (1, 0, true, "the first of its thread"),
        (1, 1, true, "one word of the element is shared"),
        (1, 2, false, "the one word of the element is its own"),
        (1, 3, true, "the index is shared"),
    ];
    assert_eq!(rt; first_wrong(&flat, &rows), None);
    Ok(())
}
