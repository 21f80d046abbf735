//! Gates of lz_gates over variables 1 and 2. Variable 0 is true in each model.

ghost use Rattle.std.specs.Prelude.{◌≡◌, ◌<◌, IfOk};
ghost use Rattle.lz_cnf.specs.Models.{variable_of};

use lz_base::Memory;
use lz_cnf::{Assignment, Lit};
use lz_gates::Builder;
use std::alloc::Global;
use std::process::Abort;
use std::test::Fail;

/// The two values of a variable.
const VALUES: [bool; 2] = [false, true];

/// Gates over two fresh variables, 1 and 2, become variables 3 and 4 and so on; each value of the two has one model.
#[test]
fn gates_have_their_values(rt: HostRuntime) -> Result<(), Fail> {
    let mut builder = Builder::new(rt.alloc()).ok().ok_or("memory")?;
    let left = builder.fresh().ok().ok_or("memory")?;
    let right = builder.fresh().ok().ok_or("memory")?;
    let both = builder
        .and_gate(left, right.negated())
        .ok()
        .ok_or("memory")?;
    let one = builder.xor_gate(left, right).ok().ok_or("memory")?;
    let chosen = builder
        .choose_gate(left, right.negated(), both)
        .ok()
        .ok_or("memory")?;
    builder.require(&[left, right]).ok().ok_or("memory")?;
    assert!(rt; !builder.is_spent(), "a builder that works");
    assert_eq!(rt; [both.0, one.0, chosen.0], [6, 8, 10], "new variables");
    let formula = builder.finish();
    assert_eq!(rt;
        (formula.variables, formula.clauses.items().len()),
        (6, 15),
        "three gates and a clause"
    );
    for x in VALUES {
        for y in VALUES {
            for forced in VALUES {
                let mut model = Assignment::new(rt.alloc());
                for value in [true, x, y, x && !y, (x != y) == forced, x && !y] {
                    model.push(value).ok().ok_or("memory")?;
                }
                assert_eq!(rt; model.items().len(), 6, "{x} {y} {forced}");
                assert_eq!(rt;
                    formula.satisfied_by(&model),
                    forced && (x || y),
                    "{x} {y} {forced}"
                );
            }
        }
    }
    Ok(())
}

/// What a gate is made of: a constant, variable 1 or its negation, or variable 2.
#[derive(Clone, Copy)]
enum Operand {
    On,
    Off,
    X,
    NotX,
    Y,
}

/// The literal of an operand.
fn literal(operand: Operand) -> Lit
    ensures { variable_of result < 3 }
{
    match operand {
        Operand::On => Lit(0),
        Operand::Off => Lit(1),
        Operand::X => Lit(2),
        Operand::NotX => Lit(3),
        Operand::Y => Lit(4),
    }
}

/// A gate: a conjunction, whether exactly one is true, or a choice between the last two by the first.
#[derive(Clone, Copy)]
enum Gate {
    And(Operand, Operand),
    Xor(Operand, Operand),
    Choose(Operand, Operand, Operand),
}

/// A builder with two fresh variables.
fn started(alloc: Global) -> Result<Builder, Memory>
    ensures { IfOk result (λ builder. builder.variables ≡ 3) }
{
    let mut builder = Builder::new(alloc)?;
    builder.fresh()?;
    builder.fresh()?;
    Ok(builder)
}

/// The literal of a gate that is added.
fn add_gate(builder: &mut Builder, gate: Gate) -> Result<Lit, Memory>
    requires { builder.old.variables ≡ 3 }
{
    match gate {
        Gate::And(left, right) => builder.and_gate(literal(left), literal(right)),
        Gate::Xor(left, right) => builder.xor_gate(literal(left), literal(right)),
        Gate::Choose(test, yes, no) => {
            builder.choose_gate(literal(test), literal(yes), literal(no))
        }
    }
}

/// The literal of a gate, and how many variables and clauses the formula has with it.
fn made(alloc: Global, gate: Gate) -> Result<(u32, u32, usize), Memory> {
    let mut builder = started(alloc)?;
    let lit = add_gate(&mut builder, gate)?;
    let formula = builder.finish();
    Ok((lit.0, formula.variables, formula.clauses.items().len()))
}

/// A gate, what is made of it, and the reason of the row.
type Row<'a> = (Gate, (u32, u32, usize), &'a str);

/// Makes each row's gate.
fn gates_agree(rt: &impl Abort, alloc: Global, rows: &[Row<'_>]) -> Result<(), Fail> {
    for (gate, wanted, reason) in rows {
        let found = made(alloc, *gate).ok().ok_or("memory")?;
        assert_eq!(rt; found, *wanted, "{reason}");
    }
    Ok(())
}

/// Gates with constant, equal or opposite operands take no variable and no clause; a choice with a constant side is a
/// conjunction, or the negation of one.
#[test]
fn gates_fold(rt: HostRuntime) -> Result<(), Fail> {
    use Gate::{And, Choose, Xor};
    use Operand::{NotX, Off, On, X, Y};

    let table: [Row<'_>; 18] = [
        (And(X, On), (2, 3, 1), "true leaves the other"),
        (And(Off, X), (1, 3, 1), "false is the conjunction"),
        (And(X, X), (2, 3, 1), "both are the same"),
        (And(X, NotX), (1, 3, 1), "one is the negation of the other"),
        (And(X, Y), (6, 4, 4), "a new variable and three clauses"),
        (Xor(On, X), (3, 3, 1), "true negates the other"),
        (Xor(X, Off), (2, 3, 1), "false leaves the other"),
        (Xor(X, X), (1, 3, 1), "the same do not differ"),
        (Xor(NotX, X), (0, 3, 1), "opposites always differ"),
        (Xor(X, Y), (6, 4, 5), "a new variable and four clauses"),
        (Choose(On, X, Off), (2, 3, 1), "a true test takes the first"),
        (
            Choose(Off, On, X),
            (2, 3, 1),
            "a false test takes the second",
        ),
        (Choose(X, Off, Off), (1, 3, 1), "both sides are the same"),
        (
            Choose(X, On, NotX),
            (0, 3, 1),
            "each side is true where it is taken",
        ),
        (Choose(X, On, Off), (2, 3, 1), "the test itself"),
        (Choose(X, Off, On), (3, 3, 1), "the negation of the test"),
        (
            Choose(X, Y, Off),
            (6, 4, 4),
            "the conjunction of test and side",
        ),
        (
            Choose(X, On, Y),
            (7, 4, 4),
            "the negation of that of the negations",
        ),
    ];
    gates_agree(&rt, rt.alloc(), &table)
}

/// A builder that gave up answers want of memory.
#[test]
fn spent_builder_answers_want_of_memory(rt: HostRuntime) -> Result<(), Fail> {
    let mut builder = started(rt.alloc()).ok().ok_or("memory")?;
    assert!(rt; !builder.is_spent(), "a builder that works");
    builder.give_up();
    assert!(rt; builder.is_spent(), "one that gave up");
    let refused = add_gate(&mut builder, Gate::And(Operand::X, Operand::On));
    assert!(rt; refused.is_err(), "no gate, not even a folded one");
    Ok(())
}
