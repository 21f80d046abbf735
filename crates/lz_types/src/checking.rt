ghost use Rattle.std.specs.Prelude.{◌≡◌, slice_get, IfOk};
ghost use Rattle.lz_tree.specs.Trees.{translation_unit};
ghost use Rattle.lz_tree.specs.ScopedTrees.{scoped_program};
ghost use Rattle.lz_tree.specs.Calls.{IsCallOrder};
ghost use Rattle.lz_scopes.specs.Files.{bare};
ghost use Rattle.lz_resolve.specs.ScopedPrograms.{scoped_of};
ghost use Rattle.lz_calls.specs.Facts.{IsOrderOf, facts_of};
ghost use Rattle.lz_types.specs.Answering.{Answers};
ghost use Rattle.lz_types.specs.Checking as spec;
ghost use Rattle.lz_types.specs.Parts.{with_facts};

use crate::externals::file_faults;
use lz_base::Memory;
use lz_calls::{CallFacts, facts};
use lz_resolve::resolve;
use lz_scopes::{Fault, Rule, TypeError, WholeFile};
use lz_tree::{Program, Scoped};
use std::alloc::Global;

/// A program that breaks no rule, with its scoped one and an order of its calls.
#[derive(Drop)]
pub struct Checked {
    program: Program,
    scoped: Scoped,
    order: Vec<u32>,
}

impl Checked {
    /// The program as it was read. Takes no memory.
    pub fn program(&self) -> &Program
        ensures { result.now ≡ self.now.program }
    {
        &self.program
    }

    /// The program in which each name is what it means. Takes no memory.
    pub fn scoped(&self) -> &Scoped
        ensures { result.now ≡ self.now.scoped }
    {
        &self.scoped
    }

    /// All functions by their numbers, each behind those that it calls. Takes no memory.
    pub fn order(&self) -> &[u32]
        ensures { result.now ≡ self.now.order.items }
    {
        &self.order
    }
}

/// What was found in a program: all its faults in order, and an order of its calls.
#[derive(Drop)]
struct Found {
    faults: Vec<Fault>,
    order: Option<Vec<u32>>,
}

/// The number of a rule.
fn number_of(rule: Rule) -> u32
    ensures { result ≡ spec.number_of rule }
{
    match rule {
        Rule::Undeclared => 1,
        Rule::DeclaredTwice => 2,
        Rule::NoFunction => 3,
        Rule::ArgumentCount => 4,
        Rule::KnownNameTaken => 5,
        Rule::NoValue => 6,
        Rule::TypeMisfit => 7,
        Rule::BadLength => 8,
        Rule::NotConstant => 9,
        Rule::BadInitializer => 10,
        Rule::LargeConstant => 11,
        Rule::OutsideLoop => 12,
        Rule::BadReturn => 13,
        Rule::Recursive => 14,
        Rule::NoMain => 15,
        Rule::NoStartRoutine => 16,
        Rule::ThreadInThread => 17,
        Rule::PointerOutsideStart => 18,
        Rule::LocalMutex => 19,
        Rule::MisplacedAddress => 20,
        Rule::BadAttribute => 21,
        Rule::MisplacedText => 22,
        Rule::ManyElements => 23,
        Rule::RefusedType => 24,
        Rule::OtherPrototype => 25,
        Rule::TooHigh => 26,
    }
}

/// The first fault, if any.
fn first_of(faults: &[Fault]) -> Option<Fault>
    ensures { result ≡ slice_get faults.now 0 }
{
    faults.first().copied()
}

/// Sets what was found out about the calls of a file, and gives their order.
fn set_found(file: &mut WholeFile, found: CallFacts) -> Option<Vec<u32>>
    ensures file { file.new ≡ with_facts file.old (facts_of found) }
    ensures order { result ≡ found.order }
{
    let CallFacts {
        returning,
        reached,
        high,
        order,
    } = found;
    file.set_facts(returning, reached, high);
    order
}

/// What is found in a program, of whose file no facts of calls are set before.
fn find(
    alloc: Global,
    file: &mut WholeFile,
    program: &Program,
    scoped: &Scoped,
) -> Result<Found, Memory>
    requires file { file.old ≡ bare (translation_unit program.now) }
    requires scoped { scoped_program scoped.now ≡ scoped_of (translation_unit program.now) }
    ensures faults { IfOk result (λ found. spec.AreFaults (translation_unit program.now) found.faults.items) }
    ensures order { IfOk result (λ found. IsOrderOf (scoped_of (translation_unit program.now)).functions found.order) }
{
    let found = facts(alloc, scoped.functions.items())?;
    let order = set_found(file, found);
    let faults = file_faults(alloc, file, program.externals.items())?;
    Ok(Found { faults, order })
}

/// The scoped program, and what is found in it.
#[derive(Drop)]
struct Looked {
    scoped: Scoped,
    found: Found,
}

/// Looks through a program.
fn look(alloc: Global, program: &Program) -> Result<Looked, Memory>
    ensures scoped { IfOk result (λ looked. scoped_program looked.scoped ≡ scoped_of (translation_unit program.now)) }
    ensures faults { IfOk result (λ looked. spec.AreFaults (translation_unit program.now) looked.found.faults.items) }
    ensures order { IfOk result (λ looked. IsOrderOf (scoped_of (translation_unit program.now)).functions looked.found.order) }
{
    let mut file = WholeFile::new(alloc, program)?;
    let scoped = resolve(alloc, &file, program)?;
    let found = find(alloc, &mut file, program, &scoped)?;
    Ok(Looked { scoped, found })
}

/// What a check answers on a program in which this was found, with its scoped one.
#[tactic(auto, using(crate::proofs::CheckingLemmas::accepted, crate::proofs::CheckingLemmas::order_right))]
fn answer(program: Program, scoped: Scoped, found: Found) -> Result<Checked, TypeError>
    requires scoped { scoped_program scoped ≡ scoped_of (translation_unit program) }
    requires faults { spec.AreFaults (translation_unit program) found.faults.items }
    requires order { IsOrderOf (scoped_of (translation_unit program)).functions found.order }
    ensures answer { Answers (λ c. scoped_program c.scoped) (translation_unit program) result }
    ensures program { IfOk result (λ c. c.program ≡ program) }
    ensures order { IfOk result (λ c. IsCallOrder (scoped_program c.scoped).functions c.order.items) }
{
    let Found { faults, order } = found;
    match first_of(&faults) {
        None => {
            // no rule is broken, so no function can reach itself
            let order = order.unwrap();
            Ok(Checked {
                program,
                scoped,
                order,
            })
        }
        Some(fault) => Err(TypeError::Rule {
            line: fault.line,
            number: number_of(fault.rule),
        }),
    }
}

/// Checks a program against the rules (C99 6.2 to 6.9). The answer is the program with its scoped one and an order of
/// its calls, or the first rule in the order of the text that it breaks, with its line; or want of memory. The work is
/// the size of the tree times its height. Where a call comes back to its caller, or leads to no function, it is that
/// and the number of functions times that of the functions and calls together.
pub fn check(alloc: Global, program: Program) -> Result<Checked, TypeError>
    ensures answer { Answers (λ c. scoped_program c.scoped) (translation_unit program) result }
    ensures program { IfOk result (λ c. c.program ≡ program) }
    ensures order { IfOk result (λ c. IsCallOrder (scoped_program c.scoped).functions c.order.items) }
{
    let Looked { scoped, found } = look(alloc, &program)?;
    answer(program, scoped, found)
}
