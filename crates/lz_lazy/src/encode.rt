ghost use Rattle.std.specs.Prelude.{◌≡◌, ◌<◌, ◌+◌, ◌*◌, ◌^◌, nat_le, if◌then◌else◌, length, map, OnOk, IfOk, [], ◌∷◌, ◌++◌, suc};
ghost use Rattle.lz_base.specs.Words.{value_bound};
ghost use Rattle.lz_flat.specs.Programs.{expression, location, instruction, marked, statement, sets};
ghost use Rattle.lz_flat.specs.Programs as programs;
ghost use Rattle.lz_lazy.specs.Encoding as spec;

use lz_base::{Binary, IntType, Memory};
use lz_flat::{
    FlatExpr, Guarded, GuardedList, Instr, Marked, Spot, binary_expr, choose_expr, copy_expr,
    copy_instr,
};
use std::alloc::Global;

/// A constant number.
fn constant(value: u64) -> FlatExpr
    ensures { expression result ≡ programs.constant value }
{
    FlatExpr::Constant { value }
}

/// One word.
fn whole(place: u32) -> Spot
    ensures { location result ≡ spec.whole place }
{
    Spot {
        first: place,
        len: 1,
        index: constant(0),
    }
}

/// A statement that does nothing.
fn idle() -> Guarded
    ensures { statement result ≡ spec.idle }
{
    Guarded {
        guard: constant(0),
        instr: Instr::Assume { test: constant(1) },
    }
}

/// A statement that always runs.
fn always(instr: Instr) -> Guarded
    ensures { statement result ≡ spec.always (instruction instr) }
{
    Guarded {
        guard: constant(1),
        instr,
    }
}

/// A statement that runs where the flag is set.
fn flagged(words: u32, instr: Instr) -> Guarded
    requires { words + 1 < 2 ^ 32 }
    ensures { statement result ≡ spec.flagged words (instruction instr) }
{
    Guarded {
        guard: FlatExpr::Word { place: words + 1 },
        instr,
    }
}

/// The mask, or the next one where it is below the size.
fn wider_mask(mask: u64, size: u32) -> u64
    requires { mask < value_bound }
    ensures { result ≡ (if nat_le size mask then mask else 2 * mask + 1) }
{
    if u64::from(size) <= mask {
        return mask;
    }
    2 * mask + 1
}

/// How many bits a word has.
const WORD_BITS: u32 = 32;

/// The least number 2^k - 1 that is the size or more.
fn mask_of(size: u32) -> u64
    ensures { result ≡ spec.mask_of size }
{
    let mut mask = 0;
    for _ in 0..WORD_BITS {
        mask = wider_mask(mask, size);
    }
    mask
}

/// The guess, or the mask where the guess is above it.
fn clamp(alloc: Global, words: u32, mask: u64) -> Result<FlatExpr, Memory>
    ensures { IfOk result (λ made. expression made ≡ spec.clamp words mask) }
{
    let guess = FlatExpr::Word { place: words };
    let within = binary_expr(alloc, Binary::Le, IntType::Unsigned, guess, constant(mask))?;
    let guess = FlatExpr::Word { place: words };
    let low = binary_expr(
        alloc,
        Binary::BitAnd,
        IntType::Unsigned,
        guess,
        constant(mask),
    )?;
    choose_expr(alloc, within, low, constant(mask))
}

/// The thread stands at `l`, and where that is visible the guess is above it.
fn stands_at(
    alloc: Global,
    words: u32,
    thread: u32,
    l: u32,
    visible: bool,
) -> Result<FlatExpr, Memory>
    requires { words + (2 + thread) < 2 ^ 32 }
    ensures { IfOk result (λ made. expression made ≡ spec.stands_at words thread l visible) }
{
    let saved = FlatExpr::Word {
        place: words + (2 + thread),
    };
    let here = constant(u64::from(l));
    let at = binary_expr(alloc, Binary::Eq, IntType::Unsigned, saved, here)?;
    if visible {
        let here = constant(u64::from(l));
        let guess = FlatExpr::Word { place: words };
        let open = binary_expr(alloc, Binary::Lt, IntType::Unsigned, here, guess)?;
        return binary_expr(alloc, Binary::Both, IntType::Unsigned, at, open);
    }
    Ok(at)
}

/// Whether the first of this code, which stands at `l`, runs.
fn runs_next(
    alloc: Global,
    words: u32,
    thread: u32,
    l: u32,
    code: &[Marked],
) -> Result<FlatExpr, Memory>
    requires { words + (2 + thread) < 2 ^ 32 }
    ensures { IfOk result (λ made. expression made ≡ spec.runs_next words thread l (map marked code.now)) }
{
    match code.first() {
        None => Ok(constant(0)),
        Some(first) => stands_at(alloc, words, thread, l, first.visible),
    }
}

/// The instruction as a statement.
fn body(alloc: Global, words: u32, instr: &Instr) -> Result<Guarded, Memory>
    requires { words + 1 < 2 ^ 32 }
    ensures { IfOk result (λ made. statement made ≡ spec.body words (instruction instr.now)) }
{
    if let Instr::Skip { test: _, by: _ } = instr {
        return Ok(idle());
    }
    let copy = copy_instr(alloc, instr)?;
    Ok(flagged(words, copy))
}

/// The place behind the instruction at `l`.
fn following(alloc: Global, l: u32, instr: &Instr) -> Result<FlatExpr, Memory>
    ensures { IfOk result (λ made. expression made ≡ spec.following l (instruction instr.now)) }
{
    let next = constant(u64::from(l) + 1);
    if let Instr::Skip { test, by } = instr {
        let test = copy_expr(alloc, test)?;
        let far = constant(u64::from(l) + u64::from(*by));
        return choose_expr(alloc, test, far, next);
    }
    Ok(next)
}

/// Adds the three statements of the instruction at `l`, behind which the rest stands.
fn push_three(
    alloc: Global,
    list: &mut GuardedList,
    words: u32,
    thread: u32,
    l: u32,
    first: &Marked,
    rest: &[Marked],
) -> Result<(), Memory>
    requires fits { words + (2 + thread) < 2 ^ 32 }
    requires place { l + 1 < 2 ^ 32 }
    ensures { OnOk result (map statement list.new ≡ map statement list.old
        ++ spec.body words (instruction first.now.instr)
        ∷ spec.flagged words (sets (spec.whole (spec.saved_place words thread)) (spec.following l (instruction first.now.instr)))
        ∷ spec.always (sets (spec.whole (spec.flag_place words)) (spec.runs_next words thread (suc l) (map marked rest.now)))
        ∷ []) }
{
    let itself = body(alloc, words, &first.instr)?;
    let value = following(alloc, l, &first.instr)?;
    let saved = whole(words + (2 + thread));
    let place = flagged(words, Instr::Set { to: saved, value });
    let value = runs_next(alloc, words, thread, l + 1, rest)?;
    let flag = whole(words + 1);
    let next = always(Instr::Set { to: flag, value });
    list.push(itself)?;
    list.push(place)?;
    list.push(next)?;
    Ok(())
}

/// Adds the statements of a thread's code.
fn push_code(
    alloc: Global,
    list: &mut GuardedList,
    words: u32,
    thread: u32,
    code: &[Marked],
) -> Result<(), Memory>
    requires fits { words + (2 + thread) < 2 ^ 32 }
    requires places { length code.now + 1 < 2 ^ 32 }
    ensures { OnOk result (map statement list.new ≡ map statement list.old ++ spec.encoded words thread 0 (map marked code.now)) }
{
    for l in 0..code.len() {
        push_three(
            alloc,
            list,
            words,
            thread,
            l as u32,
            &code[l],
            &code[l + 1..],
        )?;
    }
    Ok(())
}

/// Adds nine statements that do nothing.
fn push_idles(list: &mut GuardedList) -> Result<(), Memory>
    ensures { OnOk result (map statement list.new ≡ map statement list.old ++ spec.idle ∷ spec.idle ∷ spec.idle ∷ spec.idle ∷ spec.idle ∷ spec.idle ∷ spec.idle ∷ spec.idle ∷ spec.idle ∷ []) }
{
    list.push(idle())?;
    list.push(idle())?;
    list.push(idle())?;
    list.push(idle())?;
    list.push(idle())?;
    list.push(idle())?;
    list.push(idle())?;
    list.push(idle())?;
    list.push(idle())?;
    Ok(())
}

/// Adds the head of a block: the guess, clamped to the size of the code, and the flag of the first
/// instruction.
fn push_head(
    alloc: Global,
    list: &mut GuardedList,
    words: u32,
    thread: u32,
    code: &[Marked],
) -> Result<(), Memory>
    requires fits { words + (2 + thread) < 2 ^ 32 }
    requires places { length code.now + 1 < 2 ^ 32 }
    ensures { OnOk result (map statement list.new ≡ map statement list.old ++ spec.head words thread (map marked code.now)) }
{
    let guess = always(Instr::Input { to: whole(words) });
    let value = clamp(alloc, words, mask_of(code.len() as u32))?;
    let clamped = always(Instr::Set {
        to: whole(words),
        value,
    });
    let value = runs_next(alloc, words, thread, 0, code)?;
    let flag = always(Instr::Set {
        to: whole(words + 1),
        value,
    });
    list.push(guess)?;
    list.push(clamped)?;
    push_idles(list)?;
    list.push(flag)
}

/// Adds a block of a thread.
pub fn push_block(
    alloc: Global,
    list: &mut GuardedList,
    words: u32,
    thread: u32,
    code: &[Marked],
) -> Result<(), Memory>
    requires fits { words + (2 + thread) < 2 ^ 32 }
    requires places { length code.now + 1 < 2 ^ 32 }
    ensures { OnOk result (map statement list.new ≡ map statement list.old
        ++ (spec.head words thread (map marked code.now) ++ spec.encoded words thread 0 (map marked code.now))) }
{
    push_head(alloc, list, words, thread, code)?;
    push_code(alloc, list, words, thread, code)
}
