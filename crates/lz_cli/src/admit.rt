//! Whether the program of a file is decided or run at all: it breaks no rule, and its slots and its cost are within the
//! limits.

ghost use Rattle.std.specs.Prelude.{◌≡◌, ◌≤◌, ℕ, List, length, IfOk, OnOk, IfErr};
ghost use Rattle.lz_base.specs.Limits.{file_limit};
ghost use Rattle.lz_tree.specs.Tokens.{HasTokens};
ghost use Rattle.lz_tree.specs.Trees.{translation_unit};
ghost use Rattle.lz_tree.specs.ScopedTrees.{scoped_program};
ghost use Rattle.lz_tree.specs.Calls.{IsCallOrder};
ghost use Rattle.lz_resolve.specs.ScopedPrograms.{scoped_of};
ghost use Rattle.lz_cli.specs.declared.admit.Refusal.TheVariants as refusals;
ghost use Rattle.lz_cli.specs.Limits.{within};
ghost use Rattle.lz_cli.specs.Source.{HasTree};
ghost use Rattle.lz_cli.specs.Admission.{IsAccepted};
ghost use Rattle.lz_cli.specs.Admit.{IsRefusedBy, IsOver, IsWithin, Admits};

use crate::limits::{COST_LIMIT, SLOT_LIMIT};
use lz_base::Memory;
use lz_lex::{LexError, lex};
use lz_parse::{ParseError, parse};
use lz_slots::{cost, slots};
use lz_tree::{Program, Scoped, Tokens};
use lz_types::{Checked, TypeError, check};
use std::alloc::Global;

/// Why the program of a file is neither decided nor run.
#[derive(Clone, Copy, Debug, PartialEq, Eq)]
pub enum Refusal {
    /// The bytes have no cut into tokens; the longest cut ends at this place, counted from 0.
    NotAToken { line: u32, place: u32 },
    /// No program spells the tokens; this one, counted from 0, is the first with which none goes on.
    NotAProgram { line: u32, token: u32 },
    /// The program breaks this rule on this line, before every other one that it breaks.
    Faulty { line: u32, rule: u32 },
    /// The program can create so many threads, which are over the limit.
    ManySlots { slots: u64 },
    /// The program costs so much, which is over the limit.
    HighCost { cost: u64 },
    /// Memory ran out.
    OutOfMemory,
}

impl From<Memory> for Refusal {
    ghost from_gives = { λ _ refusal. refusal ≡ refusals.OutOfMemory };

    fn from(_error: Memory) -> Refusal {
        Refusal::OutOfMemory
    }
}

/// The program of a file, where it breaks no rule and is within the limits, or the first reason why it is not.
pub fn admit(alloc: Global, bytes: &[u8], unwind: u32, rounds: u32) -> Result<Checked, Refusal>
    requires { length bytes.now ≤ file_limit }
    ensures admits { IfOk result (λ c. Admits unwind rounds bytes.now (translation_unit c.program) (scoped_program c.scoped) c.order.items) }
    ensures refused { IfErr result (IsRefusedBy (within unwind rounds) bytes.now) }
{
    match lex(alloc, bytes) {
        Ok(tokens) => admit_tokens(alloc, &tokens, unwind, rounds),
        Err(LexError::Bad { place, line }) => Err(Refusal::NotAToken { line, place }),
        Err(LexError::Memory) => Err(Refusal::OutOfMemory),
    }
}

/// The program of these tokens.
fn admit_tokens(
    alloc: Global,
    tokens: &Tokens,
    unwind: u32,
    rounds: u32,
) -> Result<Checked, Refusal>
    ensures admits { IfOk result (λ c. (bytes : List ℕ) → HasTokens bytes tokens.now → Admits unwind rounds bytes (translation_unit c.program) (scoped_program c.scoped) c.order.items) }
    ensures refused { IfErr result (λ why. (bytes : List ℕ) → HasTokens bytes tokens.now → IsRefusedBy (within unwind rounds) bytes why) }
{
    match parse(alloc, tokens) {
        Ok(program) => admit_program(alloc, program, unwind, rounds),
        Err(ParseError::NotAProgram { token, line }) => Err(Refusal::NotAProgram { line, token }),
        Err(ParseError::Memory) => Err(Refusal::OutOfMemory),
    }
}

/// A program, where it breaks no rule and is within the limits.
fn admit_program(
    alloc: Global,
    program: Program,
    unwind: u32,
    rounds: u32,
) -> Result<Checked, Refusal>
    ensures admits { IfOk result (λ c. (bytes : List ℕ) → HasTree bytes (translation_unit program) → Admits unwind rounds bytes (translation_unit c.program) (scoped_program c.scoped) c.order.items) }
    ensures refused { IfErr result (λ why. (bytes : List ℕ) → HasTree bytes (translation_unit program) → IsRefusedBy (within unwind rounds) bytes why) }
{
    match check(alloc, program) {
        Ok(checked) => admit_checked(alloc, checked, unwind, rounds),
        Err(TypeError::Rule { line, number }) => Err(Refusal::Faulty { line, rule: number }),
        Err(TypeError::Memory) => Err(Refusal::OutOfMemory),
    }
}

/// A program that breaks no rule, where it is within the limits.
fn admit_checked(
    alloc: Global,
    checked: Checked,
    unwind: u32,
    rounds: u32,
) -> Result<Checked, Refusal>
    requires scoped { scoped_program checked.scoped ≡ scoped_of (translation_unit checked.program) }
    requires order { IsCallOrder (scoped_program checked.scoped).functions checked.order.items }
    ensures admits { IfOk result (λ c. (bytes : List ℕ) → IsAccepted bytes (translation_unit checked.program) → Admits unwind rounds bytes (translation_unit c.program) (scoped_program c.scoped) c.order.items) }
    ensures refused { IfErr result (λ why. (bytes : List ℕ) → IsAccepted bytes (translation_unit checked.program) → IsRefusedBy (within unwind rounds) bytes why) }
{
    match limit(alloc, checked.scoped(), checked.order(), unwind, rounds) {
        Ok(()) => Ok(checked),
        Err(refusal) => Err(refusal),
    }
}

/// Tests a program against the limits.
fn limit(
    alloc: Global,
    scoped: &Scoped,
    order: &[u32],
    unwind: u32,
    rounds: u32,
) -> Result<(), Refusal>
    requires { IsCallOrder (scoped_program scoped.now).functions order.now }
    ensures within { OnOk result (IsWithin (scoped_program scoped.now) unwind rounds) }
    ensures over { IfErr result (IsOver (scoped_program scoped.now) unwind rounds) }
{
    let slots = slots(alloc, scoped, order, unwind)?;
    if slots > SLOT_LIMIT {
        return Err(Refusal::ManySlots { slots });
    }
    let cost = cost(alloc, scoped, order, unwind, rounds)?;
    if cost > COST_LIMIT {
        return Err(Refusal::HighCost { cost });
    }
    Ok(())
}
