ghost use Rattle.std.specs.Prelude.{◌≡◌, ◌<◌, ◌^◌, length, map, OnOk, IfOk};
ghost use Rattle.lz_flat.specs.Programs.{instruction, statement};
ghost use Rattle.lz_flat.specs.WellFormed.{IsInstructionOf, IsNoSkip, IsStatementOf};
ghost use Rattle.lz_ssa.specs.declared.draft.Held.TheVariants as spec_held;
ghost use Rattle.lz_ssa.specs.Construction as spec;
ghost use Rattle.lz_ssa.specs.Drafts.{drawn, progress};

use crate::draft::{Draft, Held};
use crate::expression::expression;
use crate::node::Node;
use crate::write::write;
use lz_base::{Binary, IntType, Memory, Sequence, Unary, Value};
use lz_flat::{Guarded, Instr};
use std::alloc::Global;

/// What was made so far of a program: the nodes, the one that is 0 where an assumption of 0 was met, and
/// the one that is not 0 where a check of 0 was met before any.
#[derive(Drop)]
pub struct Building {
    pub draft: Draft,
    pub alive: u32,
    pub failed: u32,
}

impl Building {
    ghost use Rattle.lz_ssa.specs.Drafts.{drawn, progress};

    /// Before the first statement, over a memory with these first values.
    #[tactic(auto, unfolding(crate::specs::Construction::begin))]
    pub fn new(alloc: Global, first: &[Value]) -> Result<Building, Memory>
        ensures { IfOk result (λ made. progress made ≡ spec.begin first.now) }
    {
        let mut draft = Draft {
            list: Sequence::new(alloc),
            words: held(alloc, first)?,
        };
        let alive = draft.add(Node::Constant { value: 1 })?;
        let failed = draft.add(Node::Constant { value: 0 })?;
        Ok(Building {
            draft,
            alive,
            failed,
        })
    }

    /// Adds an assumption: the program is alive from here on where the guard is 0 or the test is not.
    #[tactic(auto, unfolding(crate::specs::Construction::assume_made))]
    fn assume(&mut self, guard: u32, test: u32) -> Result<(), Memory>
        ensures made { OnOk result (progress self.new ≡ spec.assume_made self.old.alive self.old.failed guard (record { drawn = drawn self.old.draft; node = test })) }
        ensures words { length self.new.draft.words.items ≡ length self.old.draft.words.items }
    {
        let not_guard = self.draft.unary(Unary::Not, IntType::Unsigned, guard)?;
        let passes = self.draft.join(Binary::Either, not_guard, test)?;
        self.alive = self.draft.join(Binary::Both, self.alive, passes)?;
        Ok(())
    }

    /// Adds a check: the program fails from here on where it is alive, the guard is not 0 and the test is.
    #[tactic(auto, unfolding(crate::specs::Construction::check_made))]
    fn check(&mut self, guard: u32, test: u32) -> Result<(), Memory>
        ensures made { OnOk result (progress self.new ≡ spec.check_made self.old.alive self.old.failed guard (record { drawn = drawn self.old.draft; node = test })) }
        ensures words { length self.new.draft.words.items ≡ length self.old.draft.words.items }
    {
        let runs = self.draft.join(Binary::Both, self.alive, guard)?;
        let not_test = self.draft.unary(Unary::Not, IntType::Unsigned, test)?;
        let broken = self.draft.join(Binary::Both, runs, not_test)?;
        self.failed = self.draft.join(Binary::Either, self.failed, broken)?;
        Ok(())
    }

    /// Adds an instruction of statement `i` under the node of its guard.
    #[tactic(auto, unfolding(crate::specs::Construction::instruction_made))]
    fn instruction(
        &mut self,
        alloc: Global,
        i: u32,
        instr: &Instr,
        guard: u32,
    ) -> Result<(), Memory>
        requires within { IsInstructionOf (length self.old.draft.words.items) (instruction instr.now) }
        requires short { length self.old.draft.words.items < 2 ^ 32 }
        ensures made { OnOk result (progress self.new ≡ spec.instruction_made i (instruction instr.now) self.old.alive self.old.failed (record { drawn = drawn self.old.draft; node = guard })) }
        ensures words { length self.new.draft.words.items ≡ length self.old.draft.words.items }
    {
        match instr {
            Instr::Set { to, value } => {
                let value = expression(alloc, &mut self.draft, value)?;
                write(alloc, &mut self.draft, to, guard, value)
            }
            Instr::Input { to } => {
                let value = self.draft.add(Node::Input {
                    number: i,
                    kind: IntType::Unsigned,
                })?;
                write(alloc, &mut self.draft, to, guard, value)
            }
            Instr::Assume { test } => {
                let test = expression(alloc, &mut self.draft, test)?;
                self.assume(guard, test)
            }
            Instr::Check {
                test,
                kind: _,
                line: _,
            } => {
                let test = expression(alloc, &mut self.draft, test)?;
                self.check(guard, test)
            }
            Instr::Skip { test: _, by: _ } => Ok(()),
        }
    }

    /// Adds statement `i`.
    #[tactic(auto, unfolding(crate::specs::Construction::statement_made))]
    pub fn statement(&mut self, alloc: Global, i: u32, next: &Guarded) -> Result<(), Memory>
        requires within { IsStatementOf (length self.old.draft.words.items) (statement next.now) }
        requires short { length self.old.draft.words.items < 2 ^ 32 }
        ensures made { OnOk result (progress self.new ≡ spec.statement_made i (statement next.now) (progress self.old)) }
        ensures words { length self.new.draft.words.items ≡ length self.old.draft.words.items }
    {
        let guard = expression(alloc, &mut self.draft, &next.guard)?;
        self.instruction(alloc, i, &next.instr, guard)
    }
}

/// Each word has its first value.
fn held(alloc: Global, first: &[Value]) -> Result<Vec<Held>, Memory>
    ensures { IfOk result (λ words. words.items ≡ map (λ value. spec_held.First value) first.now) }
{
    let mut words = Vec::new(alloc);
    for value in first {
        words.push(Held::First { value: *value })?;
    }
    Ok(words)
}
