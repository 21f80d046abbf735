ghost use Rattle.std.specs.Prelude.{◌≡◌, ◌<◌, ◌≤◌, ◌+◌, ◌^◌, IfOk};
ghost use Rattle.lz_flat.specs.Programs.{expression, location};
ghost use Rattle.lz_flat.specs.Programs as spec;
ghost use Rattle.lz_base.specs.declared.operator.Binary.TheVariants as binaries;
ghost use Rattle.lz_base.specs.declared.word.IntType.TheVariants as kinds;
ghost use Rattle.lz_sync.specs.Standing.{words_of, waits_from, lives_from, place_of};
ghost use Rattle.lz_sync.specs.Standing as roles;
ghost use Rattle.lz_sync.specs.Groups.{both, either, equal, no, life_role, live, free, fixed, spot_word, spot_at, spot_number, some_wait, woken_word, woken_at, joined_word, joined_at, chosen_holder, chosen_wait};

use crate::layout::Layout;
use lz_base::{Binary, IntType, Memory, Unary};
use lz_flat::{FlatExpr, Spot, binary_expr, choose_expr, copy_expr, element_expr, unary_expr};
use std::alloc::Global;

/// Neither is 0.
pub fn both_expr(alloc: Global, a: FlatExpr, b: FlatExpr) -> Result<FlatExpr, Memory>
    ensures { IfOk result (λ made. expression made ≡ both (expression a) (expression b)) }
{
    binary_expr(alloc, Binary::Both, IntType::Unsigned, a, b)
}

/// Not both are 0.
fn either_expr(alloc: Global, a: FlatExpr, b: FlatExpr) -> Result<FlatExpr, Memory>
    ensures { IfOk result (λ made. expression made ≡ either (expression a) (expression b)) }
{
    binary_expr(alloc, Binary::Either, IntType::Unsigned, a, b)
}

/// They are equal.
pub fn equal_expr(alloc: Global, a: FlatExpr, b: FlatExpr) -> Result<FlatExpr, Memory>
    ensures { IfOk result (λ made. expression made ≡ equal (expression a) (expression b)) }
{
    binary_expr(alloc, Binary::Eq, IntType::Unsigned, a, b)
}

/// They differ.
pub fn differ_expr(alloc: Global, a: FlatExpr, b: FlatExpr) -> Result<FlatExpr, Memory>
    ensures { IfOk result (λ made. expression made ≡ spec.binary binaries.Ne kinds.Unsigned (expression a) (expression b)) }
{
    binary_expr(alloc, Binary::Ne, IntType::Unsigned, a, b)
}

/// It is 0.
pub fn no_expr(alloc: Global, of: FlatExpr) -> Result<FlatExpr, Memory>
    ensures { IfOk result (λ made. expression made ≡ no (expression of)) }
{
    unary_expr(alloc, Unary::Not, IntType::Unsigned, of)
}

/// The word at a place.
pub fn word_expr(place: u32) -> FlatExpr
    ensures { expression result ≡ spec.word place }
{
    FlatExpr::Word { place }
}

/// A constant.
pub fn constant_expr(value: u64) -> FlatExpr
    ensures { expression result ≡ spec.constant value }
{
    FlatExpr::Constant { value }
}

/// The word at a place as what is written.
pub fn fixed_to(place: u32) -> Spot
    ensures { location result ≡ fixed place }
{
    Spot {
        first: place,
        len: 1,
        index: constant_expr(0),
    }
}

/// Where the word stands that says whether the process is over.
pub fn over_place(layout: &Layout) -> u32
    requires room { words_of layout.now < 2 ^ 32 }
    ensures { result ≡ place_of layout.now roles.over }
{
    layout.cells + layout.mutexes
}

/// Where the word stands that says who is the holder of the atomic section.
pub fn holder_place(layout: &Layout) -> u32
    requires room { words_of layout.now < 2 ^ 32 }
    ensures { result ≡ place_of layout.now roles.holder }
{
    layout.cells + layout.mutexes + 1
}

/// Where the words of lives begin.
fn first_life(layout: &Layout) -> u32
    requires room { words_of layout.now < 2 ^ 32 }
    ensures { result ≡ lives_from layout.now }
{
    layout.cells + layout.mutexes + 3
}

/// Where the words of waits begin.
fn first_wait(layout: &Layout) -> u32
    requires room { words_of layout.now < 2 ^ 32 }
    ensures { result ≡ waits_from layout.now }
{
    first_life(layout) + layout.threads
}

/// Where the word of the life of a slot stands.
pub fn life_place(layout: &Layout, slot: u32) -> u32
    requires room { words_of layout.now < 2 ^ 32 }
    requires slot { slot < layout.now.threads }
    ensures { result ≡ place_of layout.now (life_role slot) }
{
    if slot == 0 {
        return layout.cells + layout.mutexes + 2;
    }
    first_life(layout) + slot
}

/// Where the word of the wait of a slot stands.
pub fn wait_place(layout: &Layout, slot: u32) -> u32
    requires room { words_of layout.now < 2 ^ 32 }
    requires slot { slot < layout.now.threads }
    ensures { result ≡ place_of layout.now (roles.wait slot) }
{
    first_wait(layout) + (slot + 1)
}

/// The test that a thread is not halted.
pub fn live_expr(alloc: Global, layout: &Layout, thread: u32) -> Result<FlatExpr, Memory>
    requires room { words_of layout.now < 2 ^ 32 }
    requires thread { thread < layout.now.threads }
    ensures { IfOk result (λ made. expression made ≡ live layout.now thread) }
{
    let life = word_expr(life_place(layout, thread));
    let runs = equal_expr(alloc, life, constant_expr(1))?;
    let on = no_expr(alloc, word_expr(over_place(layout)))?;
    both_expr(alloc, runs, on)
}

/// The test that a thread is the holder of the atomic section.
fn mine_expr(alloc: Global, layout: &Layout, thread: u32) -> Result<FlatExpr, Memory>
    requires room { words_of layout.now < 2 ^ 32 }
    ensures { IfOk result (λ made. expression made ≡ equal (spec.word (place_of layout.now roles.holder)) (spec.constant (thread + 1))) }
{
    let holder = word_expr(holder_place(layout));
    equal_expr(alloc, holder, constant_expr(u64::from(thread) + 1))
}

/// The test that a thread is not halted, and that no other is the holder of the atomic section.
pub fn free_expr(alloc: Global, layout: &Layout, thread: u32) -> Result<FlatExpr, Memory>
    requires room { words_of layout.now < 2 ^ 32 }
    requires thread { thread < layout.now.threads }
    ensures { IfOk result (λ made. expression made ≡ free layout.now thread) }
{
    let live = live_expr(alloc, layout, thread)?;
    let nobody = no_expr(alloc, word_expr(holder_place(layout)))?;
    let mine = mine_expr(alloc, layout, thread)?;
    let open = either_expr(alloc, nobody, mine)?;
    both_expr(alloc, live, open)
}

/// The holder once a thread lets the atomic section go.
pub fn let_go_expr(alloc: Global, layout: &Layout, thread: u32) -> Result<FlatExpr, Memory>
    requires room { words_of layout.now < 2 ^ 32 }
    ensures { IfOk result (λ made. expression made ≡ chosen_holder layout.now thread) }
{
    let mine = mine_expr(alloc, layout, thread)?;
    choose_expr(
        alloc,
        mine,
        constant_expr(0),
        word_expr(holder_place(layout)),
    )
}

/// The word that a spot names among its kind, whose words begin here.
pub fn spot_expr(alloc: Global, from: u32, spot: &Spot) -> Result<FlatExpr, Memory>
    requires { from + spot.now.first < 2 ^ 32 }
    ensures { IfOk result (λ made. expression made ≡ spot_word from (location spot.now)) }
{
    let first = from + spot.first;
    if spot.len == 1 {
        return Ok(word_expr(first));
    }
    let index = copy_expr(alloc, &spot.index)?;
    element_expr(alloc, first, spot.len, index)
}

/// So as what is written.
pub fn spot_to(alloc: Global, from: u32, spot: &Spot) -> Result<Spot, Memory>
    requires { from + spot.now.first < 2 ^ 32 }
    ensures { IfOk result (λ made. location made ≡ spot_at from (location spot.now)) }
{
    let first = from + spot.first;
    if spot.len == 1 {
        return Ok(fixed_to(first));
    }
    let index = copy_expr(alloc, &spot.index)?;
    Ok(Spot {
        first,
        len: spot.len,
        index,
    })
}

/// One more than the number that a spot names.
pub fn number_expr(alloc: Global, spot: &Spot) -> Result<FlatExpr, Memory>
    ensures { IfOk result (λ made. expression made ≡ spot_number (location spot.now)) }
{
    let next = constant_expr(u64::from(spot.first) + 1);
    if spot.len == 1 {
        return Ok(next);
    }
    let index = copy_expr(alloc, &spot.index)?;
    binary_expr(alloc, Binary::Add, IntType::Unsigned, index, next)
}

/// The test that a slot waits on a condition.
pub fn waits_expr(
    alloc: Global,
    layout: &Layout,
    slot: u32,
    cond: &Spot,
) -> Result<FlatExpr, Memory>
    requires room { words_of layout.now < 2 ^ 32 }
    requires slot { slot < layout.now.threads }
    ensures { IfOk result (λ made. expression made ≡ equal (spec.word (place_of layout.now (roles.wait slot))) (spot_number (location cond.now))) }
{
    let number = number_expr(alloc, cond)?;
    equal_expr(alloc, word_expr(wait_place(layout, slot)), number)
}

/// The test that some slot below this number waits on a condition.
pub fn some_wait_expr(
    alloc: Global,
    layout: &Layout,
    cond: &Spot,
    slots: u32,
) -> Result<FlatExpr, Memory>
    requires room { words_of layout.now < 2 ^ 32 }
    requires slots { slots ≤ layout.now.threads }
    ensures { IfOk result (λ made. expression made ≡ some_wait layout.now (spot_number (location cond.now)) slots) }
{
    if slots == 0 {
        return Ok(constant_expr(0));
    }
    let here = waits_expr(alloc, layout, slots - 1, cond)?;
    if slots == 1 {
        return Ok(here);
    }
    let before = some_wait_expr(alloc, layout, cond, slots - 1)?;
    either_expr(alloc, before, here)
}

/// The wait of a slot once a condition was broadcast.
pub fn woken_wait_expr(
    alloc: Global,
    layout: &Layout,
    slot: u32,
    cond: &Spot,
) -> Result<FlatExpr, Memory>
    requires room { words_of layout.now < 2 ^ 32 }
    requires slot { slot < layout.now.threads }
    ensures { IfOk result (λ made. expression made ≡ chosen_wait layout.now (spot_number (location cond.now)) slot) }
{
    let waits = waits_expr(alloc, layout, slot, cond)?;
    choose_expr(
        alloc,
        waits,
        constant_expr(0),
        word_expr(wait_place(layout, slot)),
    )
}

/// The wait of the slot that a signal wakes.
pub fn woken_expr(alloc: Global, layout: &Layout, woken: &FlatExpr) -> Result<FlatExpr, Memory>
    requires room { words_of layout.now < 2 ^ 32 }
    ensures { IfOk result (λ made. expression made ≡ woken_word layout.now (expression woken.now)) }
{
    let index = copy_expr(alloc, woken)?;
    element_expr(alloc, first_wait(layout), layout.threads + 1, index)
}

/// So as what is written.
pub fn woken_to(alloc: Global, layout: &Layout, woken: &FlatExpr) -> Result<Spot, Memory>
    requires room { words_of layout.now < 2 ^ 32 }
    ensures { IfOk result (λ made. location made ≡ woken_at layout.now (expression woken.now)) }
{
    let index = copy_expr(alloc, woken)?;
    Ok(Spot {
        first: first_wait(layout),
        len: layout.threads + 1,
        index,
    })
}

/// The life of the slot that is joined.
pub fn joined_expr(alloc: Global, layout: &Layout, slot: &FlatExpr) -> Result<FlatExpr, Memory>
    requires room { words_of layout.now < 2 ^ 32 }
    ensures { IfOk result (λ made. expression made ≡ joined_word layout.now (expression slot.now)) }
{
    let index = copy_expr(alloc, slot)?;
    element_expr(alloc, first_life(layout), layout.threads, index)
}

/// So as what is written.
pub fn joined_to(alloc: Global, layout: &Layout, slot: &FlatExpr) -> Result<Spot, Memory>
    requires room { words_of layout.now < 2 ^ 32 }
    ensures { IfOk result (λ made. location made ≡ joined_at layout.now (expression slot.now)) }
{
    let index = copy_expr(alloc, slot)?;
    Ok(Spot {
        first: first_life(layout),
        len: layout.threads,
        index,
    })
}
