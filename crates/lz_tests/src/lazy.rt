//! The rounds of two threads: which inputs lead to a break.

ghost use Rattle.std.specs.Prelude.{◌≡◌, IfOk, [], ◌∷◌, true, length, map, All};
ghost use Rattle.lz_flat.specs.Programs.{expression, instruction, marked, flat_program, straight_program};
ghost use Rattle.lz_flat.specs.WellFormed.{IsWord, IsWellFormed};
ghost use Rattle.lz_lazy.specs.Example.{example, zero_test};

use lz_base::{Binary, BreakKind, IntType, Memory, Sequence, Values};
use lz_flat::{
    Flat, FlatExpr, FlatThread, FlatThreads, Instr, Marked, Spot, Straight, binary_expr,
    straight_run,
};
use lz_lazy::sequentialize;
use std::alloc::Global;
use std::process::Abort;
use std::test::Fail;

fn word_is_zero(alloc: Global) -> Result<FlatExpr, Memory>
    ensures { IfOk result (λ e. expression e ≡ zero_test) }
{
    binary_expr(
        alloc,
        Binary::Eq,
        IntType::Int,
        FlatExpr::Word { place: 0 },
        FlatExpr::Constant { value: 0 },
    )
}

fn one_instruction(alloc: Global, instr: Instr) -> Result<FlatThread, Memory>
    ensures { IfOk result (λ code. map marked code ≡ record { instr = instruction instr; visible = true } ∷ []) }
{
    let mut code = Sequence::new(alloc);
    code.push(Marked {
        instr,
        visible: true,
    })?;
    Ok(code)
}

fn two_threads(alloc: Global) -> Result<Flat, Memory>
    ensures { IfOk result (λ flat. flat_program flat ≡ example) }
{
    let test = word_is_zero(alloc)?;
    let reader = one_instruction(
        alloc,
        Instr::Check {
            test,
            kind: BreakKind::Assert,
            line: 7,
        },
    )?;
    let to = Spot {
        first: 0,
        len: 1,
        index: FlatExpr::Constant { value: 0 },
    };
    let writer = one_instruction(
        alloc,
        Instr::Set {
            to,
            value: FlatExpr::Constant { value: 1 },
        },
    )?;
    let mut threads = FlatThreads::new(alloc);
    threads.push(reader)?;
    threads.push(writer)?;
    let mut first = Sequence::new(alloc);
    first.push(0)?;
    Ok(Flat { threads, first })
}

/// The straight program of the example for one round or two.
fn rounds_of(alloc: Global, flat: &Flat, rounds: u32) -> Result<Straight, Memory>
    requires { flat_program flat.now ≡ example }
    ensures { IfOk result (λ made. IsWellFormed (straight_program made)) }
{
    if rounds < 1 || rounds > 2 {
        return Err(Memory);
    }
    sequentialize(alloc, flat, rounds)
}

/// So many inputs, 1 at these places and 0 at all others.
fn ones_at(alloc: Global, count: usize, ones: &[usize]) -> Result<Values, Memory>
    ensures words { IfOk result (λ inputs. All IsWord inputs) }
    ensures count { IfOk result (λ inputs. length inputs ≡ count) }
{
    let mut inputs = Sequence::new(alloc);
    for i in 0..count {
        inputs.push(u64::from(ones.contains(&i)))?;
    }
    Ok(inputs)
}

fn fails_with(alloc: Global, straight: &Straight, ones: &[usize]) -> Result<bool, Memory>
    requires { IsWellFormed (straight_program straight.now) }
{
    let inputs = ones_at(alloc, straight.list.items().len(), ones)?;
    let mut memory = Vec::from_slice(alloc, straight.first.items())?;
    Ok(straight_run(straight, inputs.items(), &mut memory))
}

/// Rounds, the number of statements, the places of the inputs that are 1, whether the program fails, and the reason of the row.
type Row<'a> = (u32, usize, &'a [usize], bool, &'a str);

/// Compares each row's straight program.
fn rounds_agree(rt: &impl Abort, alloc: Global, flat: &Flat, rows: &[Row<'_>]) -> Result<(), Fail>
    requires { flat_program flat.now ≡ example }
{
    for (rounds, statements, ones, fails, why) in rows {
        let straight = rounds_of(alloc, flat, *rounds).ok().ok_or("memory")?;
        assert_eq!(rt;
            straight.list.items().len(),
            *statements,
            "statements: {why}"
        );
        assert_eq!(rt; straight.first.items().len(), 5, "words: {why}");
        let answer = fails_with(alloc, &straight, ones).ok().ok_or("memory")?;
        assert_eq!(rt; answer, *fails, "{why}");
    }
    Ok(())
}

/// One thread checks that word 0 is 0, the other sets it to 1. Each block has 15 inputs, and its first is
/// the guess.
#[test]
fn a_check_after_a_write_needs_two_rounds(rt: HostRuntime) -> Result<(), Fail> {
    let flat = two_threads(rt.alloc()).ok().ok_or("memory")?;
    let table: [Row<'_>; 4] = [
        (
            2,
            60,
            &[15, 30],
            true,
            "thread 1 in round 1, thread 0 in round 2",
        ),
        (2, 60, &[], false, "no step"),
        (
            2,
            60,
            &[0, 15, 30],
            false,
            "thread 0 checks first, and ends",
        ),
        (1, 30, &[0, 15], false, "in one round thread 0 comes first"),
    ];
    rounds_agree(&rt, rt.alloc(), &flat, &table)
}
