ghost use Rattle.std.specs.Prelude.{ℕ, ◌≡◌, ◌<◌, ◌≤◌, ◌+◌, ◌*◌, ◌/◌, ◌^◌, length, OnOk, IfOk};
ghost use Rattle.lz_ssa.specs.Construction as spec;
ghost use Rattle.lz_ssa.specs.Drafts.{drawn, HasPlaces};

use crate::draft::Draft;
use crate::node::Node;
use lz_base::{Binary, Memory, Sequence, Value};
use std::alloc::Global;

/// How an index is compared with the places of a list: one by one, or, for a list of more than 32, by the
/// group of 32 that it lies in and by its place in the group.
#[derive(Drop)]
pub enum Decoder {
    Direct {
        index: u32,
    },
    Split {
        groups: Sequence<u32>,
        places: Sequence<u32>,
    },
}

/// All bits of a word but the low five.
const GROUP_MASK: Value = 4_294_967_264;

/// The low five bits of a word.
const PLACE_MASK: Value = 31;

/// How many places a group has.
const GROUP_SIZE: u32 = 32;

/// The test that a node has this word.
#[tactic(auto, unfolding(crate::specs::Construction::equals))]
fn equals(draft: &mut Draft, node: u32, number: Value) -> Result<u32, Memory>
    ensures drawn { OnOk result (drawn draft.new ≡ (spec.equals node number (drawn draft.old)).drawn) }
    ensures node { IfOk result (λ test. test ≡ (spec.equals node number (drawn draft.old)).node) }
    ensures words { length draft.new.words.items ≡ length draft.old.words.items }
{
    let number = draft.add(Node::Constant { value: number })?;
    draft.join(Binary::Eq, node, number)
}

/// The bits of a node under a mask.
#[tactic(auto, unfolding(crate::specs::Construction::masked))]
fn masked(draft: &mut Draft, node: u32, mask: Value) -> Result<u32, Memory>
    ensures drawn { OnOk result (drawn draft.new ≡ (spec.masked node mask (drawn draft.old)).drawn) }
    ensures node { IfOk result (λ bits. bits ≡ (spec.masked node mask (drawn draft.old)).node) }
    ensures words { length draft.new.words.items ≡ length draft.old.words.items }
{
    let mask = draft.add(Node::Constant { value: mask })?;
    draft.join(Binary::BitAnd, node, mask)
}

/// One test more: that the node has this word.
fn add_test(
    draft: &mut Draft,
    node: u32,
    number: Value,
    tests: &mut Sequence<u32>,
) -> Result<(), Memory>
    ensures drawn { OnOk result (drawn draft.new ≡ (spec.compared_with tests.old (spec.equals node number (drawn draft.old))).drawn) }
    ensures tests { OnOk result (tests.new ≡ (spec.compared_with tests.old (spec.equals node number (drawn draft.old))).tests) }
    ensures one { OnOk result (length tests.new ≡ length tests.old + 1) }
    ensures words { length draft.new.words.items ≡ length draft.old.words.items }
{
    let test = equals(draft, node, number)?;
    tests.push(test)
}

/// The tests that the node has so many words, from 0 on in steps of one size.
fn compare(
    alloc: Global,
    draft: &mut Draft,
    node: u32,
    step: u32,
    count: u32,
) -> Result<Sequence<u32>, Memory>
    ensures drawn { OnOk result (drawn draft.new ≡ (spec.compare_from node 0 step count (spec.compared_none (drawn draft.old))).drawn) }
    ensures tests { IfOk result (λ tests. tests ≡ (spec.compare_from node 0 step count (spec.compared_none (drawn draft.old))).tests) }
    ensures words { length draft.new.words.items ≡ length draft.old.words.items }
    ensures count { IfOk result (λ tests. length tests ≡ count) }
{
    let mut tests = Sequence::new(alloc);
    for i in 0..count {
        add_test(draft, node, u64::from(i) * u64::from(step), &mut tests)?;
    }
    Ok(tests)
}

/// The index of a list of so many places, split.
#[tactic(auto, unfolding(crate::specs::Construction::group_size))]
fn split(alloc: Global, draft: &mut Draft, index: u32, len: u32) -> Result<Decoder, Memory>
    ensures drawn { OnOk result (drawn draft.new ≡ (spec.split_groups index len (spec.masked index GROUP_MASK (drawn draft.old))).drawn) }
    ensures decoder { IfOk result (λ decoder. decoder ≡ (spec.split_groups index len (spec.masked index GROUP_MASK (drawn draft.old))).decoder) }
    ensures words { length draft.new.words.items ≡ length draft.old.words.items }
    ensures places { IfOk result (λ decoder. (k : ℕ) → k < len → HasPlaces decoder k) }
{
    let group = masked(draft, index, GROUP_MASK)?;
    let count = (u64::from(len) + 31) / u64::from(GROUP_SIZE);
    let groups = compare(alloc, draft, group, GROUP_SIZE, count as u32)?;
    let place = masked(draft, index, PLACE_MASK)?;
    let places = compare(alloc, draft, place, 1, GROUP_SIZE)?;
    Ok(Decoder::Split { groups, places })
}

/// The index of a list of so many places.
#[tactic(auto, unfolding(crate::specs::Construction::decode))]
pub fn decode(alloc: Global, draft: &mut Draft, index: u32, len: u32) -> Result<Decoder, Memory>
    ensures drawn { OnOk result (drawn draft.new ≡ (spec.decode index len (drawn draft.old)).drawn) }
    ensures decoder { IfOk result (λ decoder. decoder ≡ (spec.decode index len (drawn draft.old)).decoder) }
    ensures words { length draft.new.words.items ≡ length draft.old.words.items }
    ensures places { IfOk result (λ decoder. (k : ℕ) → k < len → HasPlaces decoder k) }
{
    if len <= GROUP_SIZE {
        return Ok(Decoder::Direct { index });
    }
    split(alloc, draft, index, len)
}

/// The test that the index is this place.
#[tactic(auto, unfolding(crate::specs::Construction::at_place))]
pub fn at_place(draft: &mut Draft, decoder: &Decoder, place: u32) -> Result<u32, Memory>
    requires { HasPlaces decoder.now place }
    ensures drawn { OnOk result (drawn draft.new ≡ (spec.at_place decoder.now place (drawn draft.old)).drawn) }
    ensures node { IfOk result (λ test. test ≡ (spec.at_place decoder.now place (drawn draft.old)).node) }
    ensures words { length draft.new.words.items ≡ length draft.old.words.items }
{
    match decoder {
        Decoder::Direct { index } => equals(draft, *index, u64::from(place)),
        Decoder::Split { groups, places } => {
            let group = groups.items()[(place / GROUP_SIZE) as usize];
            let place = places.items()[(place % GROUP_SIZE) as usize];
            draft.join(Binary::Both, group, place)
        }
    }
}
