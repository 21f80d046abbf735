//! Steps and copies of flat programs, by lz_flat.

ghost use Rattle.std.specs.Prelude.{◌≡◌, IfOk, [], ◌∷◌, length, map, drop, All};
ghost use Rattle.lz_flat.specs.Programs.{expression, instruction, marked, flat_program, code_of};
ghost use Rattle.lz_flat.specs.WellFormed.{IsWord, BeginsVisible};
ghost use Rattle.lz_circuit_tests.specs.FlatExample.{waiting};

use lz_base::{Binary, BreakKind, IntType, Memory, Sequence};
use lz_flat::{
    Flat, FlatExpr, FlatThread, FlatThreads, Instr, Marked, Spot, Stepped, binary_expr,
    choose_expr, copy_expr, copy_instr, copy_spot, flat_step,
};
use std::alloc::Global;
use std::test::Fail;

fn marked_so(instr: Instr, visible: bool) -> Marked
    ensures { marked result ≡ record { instr = instruction instr; visible = visible } }
{
    Marked { instr, visible }
}

fn one_thread(alloc: Global) -> Result<Flat, Memory>
    ensures { IfOk result (λ flat. flat_program flat ≡ waiting) }
{
    let to = Spot {
        first: 0,
        len: 1,
        index: FlatExpr::Constant { value: 0 },
    };
    let set = Instr::Set {
        to,
        value: FlatExpr::Constant { value: 0 },
    };
    let wait = Instr::Assume {
        test: FlatExpr::Word { place: 0 },
    };
    let check = Instr::Check {
        test: FlatExpr::Word { place: 0 },
        kind: BreakKind::Assert,
        line: 7,
    };
    let mut code = FlatThread::new(alloc);
    code.push(marked_so(wait, true))?;
    code.push(marked_so(set, false))?;
    code.push(marked_so(check, true))?;
    let mut threads = FlatThreads::new(alloc);
    threads.push(code)?;
    let mut first = Sequence::new(alloc);
    first.push(1)?;
    Ok(Flat { threads, first })
}

/// A step from a place where an instruction is visible or the code ends.
fn step_from(flat: &Flat, place: u32, word: u64) -> Option<(Stepped, u32, u64)>
    requires { flat_program flat.now ≡ waiting }
{
    if word > 1 || place == 1 || place > 3 {
        return None;
    }
    let mut memory = [word];
    let mut at = place;
    let stepped = flat_step(flat, 0, &mut memory, &mut at, &[0, 0, 0]);
    Some((stepped, at, memory[0]))
}

/// The steps of a thread that waits for a word, sets it to 0, and then checks it.
#[test]
fn steps_of_a_thread(rt: HostRuntime) -> Result<(), Fail> {
    let flat = one_thread(rt.alloc()).ok().ok_or("memory")?;
    let broke = Stepped::Broke {
        kind: BreakKind::Assert,
        line: 7,
    };
    assert_eq!(rt;
        step_from(&flat, 0, 1),
        Some((Stepped::Went { used: 2 }, 2, 0)),
        "up to the check"
    );
    assert_eq!(rt;
        step_from(&flat, 0, 0),
        Some((Stepped::Blocked, 0, 0)),
        "the word is 0"
    );
    assert_eq!(rt;
        step_from(&flat, 2, 0),
        Some((broke, 2, 0)),
        "the check of 0"
    );
    assert_eq!(rt;
        step_from(&flat, 3, 1),
        Some((Stepped::Ended, 3, 1)),
        "past the end"
    );
    Ok(())
}

fn sample(alloc: Global) -> Result<Instr, Memory> {
    let word = FlatExpr::Word { place: 4 };
    let one = FlatExpr::Constant { value: 1 };
    let test = binary_expr(alloc, Binary::Lt, IntType::Int, word, one)?;
    let chosen = FlatExpr::Word { place: 5 };
    let other = FlatExpr::Word { place: 6 };
    let value = choose_expr(alloc, test, chosen, other)?;
    let index = copy_expr(alloc, &value)?;
    let to = Spot {
        first: 7,
        len: 8,
        index,
    };
    let to = copy_spot(alloc, &to)?;
    Ok(Instr::Set { to, value })
}

/// Copies with ample memory.
#[test]
fn copies_are_the_same(rt: HostRuntime) -> Result<(), Fail> {
    let instr = sample(rt.alloc()).ok().ok_or("memory")?;
    let copy = copy_instr(rt.alloc(), &instr).ok().ok_or("memory")?;
    let text = format!(in rt.alloc(); "{instr:?}")?;
    assert_eq!(rt; text, format!(in rt.alloc(); "{copy:?}")?);
    Ok(())
}
