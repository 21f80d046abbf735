ghost use Rattle.std.specs.Prelude.{ℕ, ◌≡◌, ◌<◌, ◌+◌, ◌^◌, length, OnOk, IfOk};
ghost use Rattle.lz_flat.specs.Programs.{expression};
ghost use Rattle.lz_flat.specs.WellFormed.{IsExpressionOf, AreWithin};
ghost use Rattle.lz_ssa.specs.declared.node.Node.TheVariants as nodes;
ghost use Rattle.lz_ssa.specs.Construction as spec;
ghost use Rattle.lz_ssa.specs.Drafts.{drawn, HasPlaces};

use crate::decode::{Decoder, at_place, decode};
use crate::draft::Draft;
use crate::node::Node;
use lz_base::Memory;
use lz_flat::FlatExpr;
use std::alloc::Global;

/// The word at this place where the index is this place, and else what there was so far.
#[tactic(auto, unfolding(crate::specs::Construction::read_turn))]
fn read_turn(
    draft: &mut Draft,
    decoder: &Decoder,
    first: u32,
    place: u32,
    so_far: u32,
) -> Result<u32, Memory>
    requires places { HasPlaces decoder.now place }
    requires word { first + place < length draft.old.words.items }
    requires fits { first + place < 2 ^ 32 }
    ensures drawn { OnOk result (drawn draft.new ≡ (spec.read_turn decoder.now first place (record { drawn = drawn draft.old; node = so_far })).drawn) }
    ensures node { IfOk result (λ node. node ≡ (spec.read_turn decoder.now first place (record { drawn = drawn draft.old; node = so_far })).node) }
    ensures words { length draft.new.words.items ≡ length draft.old.words.items }
{
    let test = at_place(draft, decoder, place)?;
    let word = draft.word(first + place)?;
    draft.choose(test, word, so_far)
}

/// The word that the index chooses among so many from `first` on, or 0 past them: a chain of choices.
fn read(draft: &mut Draft, decoder: &Decoder, first: u32, len: u32) -> Result<u32, Memory>
    requires places { (k : ℕ) → k < len → HasPlaces decoder.now k }
    requires within { AreWithin (length draft.old.words.items) first len }
    requires short { length draft.old.words.items < 2 ^ 32 }
    ensures drawn { OnOk result (drawn draft.new ≡ (spec.read_from decoder.now first 0 len (spec.add (nodes.Constant 0) (drawn draft.old))).drawn) }
    ensures node { IfOk result (λ node. node ≡ (spec.read_from decoder.now first 0 len (spec.add (nodes.Constant 0) (drawn draft.old))).node) }
    ensures words { length draft.new.words.items ≡ length draft.old.words.items }
{
    let mut so_far = draft.add(Node::Constant { value: 0 })?;
    for place in 0..len {
        so_far = read_turn(draft, decoder, first, place, so_far)?;
    }
    Ok(so_far)
}

/// A read of an element by the node of its index.
#[tactic(auto, unfolding(crate::specs::Construction::read_element))]
fn element(
    alloc: Global,
    draft: &mut Draft,
    first: u32,
    len: u32,
    index: u32,
) -> Result<u32, Memory>
    requires within { AreWithin (length draft.old.words.items) first len }
    requires short { length draft.old.words.items < 2 ^ 32 }
    ensures drawn { OnOk result (drawn draft.new ≡ (spec.read_element first len (record { drawn = drawn draft.old; node = index })).drawn) }
    ensures node { IfOk result (λ node. node ≡ (spec.read_element first len (record { drawn = drawn draft.old; node = index })).node) }
    ensures words { length draft.new.words.items ≡ length draft.old.words.items }
{
    let decoder = decode(alloc, draft, index, len)?;
    read(draft, &decoder, first, len)
}

/// The node of an expression's value.
#[tactic(auto, unfolding(crate::specs::Construction::expression_node))]
pub fn expression(alloc: Global, draft: &mut Draft, expr: &FlatExpr) -> Result<u32, Memory>
    requires within { IsExpressionOf (length draft.old.words.items) (expression expr.now) }
    requires short { length draft.old.words.items < 2 ^ 32 }
    ensures drawn { OnOk result (drawn draft.new ≡ (spec.expression_node (expression expr.now) (drawn draft.old)).drawn) }
    ensures node { IfOk result (λ node. node ≡ (spec.expression_node (expression expr.now) (drawn draft.old)).node) }
    ensures words { length draft.new.words.items ≡ length draft.old.words.items }
{
    match expr {
        FlatExpr::Constant { value } => draft.add(Node::Constant { value: *value }),
        FlatExpr::Word { place } => draft.word(*place),
        FlatExpr::Element { first, len, index } => {
            let index = expression(alloc, draft, index)?;
            element(alloc, draft, *first, *len, index)
        }
        FlatExpr::Unary { op, kind, of } => {
            let of = expression(alloc, draft, of)?;
            draft.unary(*op, *kind, of)
        }
        FlatExpr::Binary {
            op,
            kind,
            left,
            right,
        } => {
            let left = expression(alloc, draft, left)?;
            let right = expression(alloc, draft, right)?;
            draft.binary(*op, *kind, left, right)
        }
        FlatExpr::Convert { from, to, of } => {
            let of = expression(alloc, draft, of)?;
            draft.convert(*from, *to, of)
        }
        FlatExpr::Choose { test, yes, no } => {
            let test = expression(alloc, draft, test)?;
            let chosen = expression(alloc, draft, yes)?;
            let other = expression(alloc, draft, no)?;
            draft.choose(test, chosen, other)
        }
    }
}
