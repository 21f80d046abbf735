ghost use Rattle.std.specs.Prelude.{◌≡◌, ◌<◌, ◌≤◌, List, ℕ, true, ⊤, IfSome, Some};
ghost use Rattle.lz_base.specs.Words.{value_bound, unary_value, binary_value};
ghost use Rattle.lz_base.specs.declared.word.IntType.{IntType};
ghost use Rattle.lz_ssa.specs.declared.node.Node.TheVariants as nodes;
ghost use Rattle.lz_fold.specs.Tables as tables;
ghost use Rattle.lz_fold.specs.Folding.{IsKnown, IsWordIfKnown, Knows, KnowsBoth, FoldsTo};

use crate::tables::{absorbs, keeps_equals, left_unit, of_equals, right_unit};
use lz_base::{Binary, IntType, Unary, Value, binary, unary};
use lz_ssa::Node;

/// What a node folds to: a node that stands already, or one to be made.
#[derive(Clone, Copy, Debug, PartialEq, Eq)]
pub enum Folded {
    Same { node: u32 },
    New { node: Node },
}

/// What a binary operator comes to at two known operands.
fn both_known(op: Binary, kind: IntType, a: Option<Value>, b: Option<Value>) -> Option<Value>
    requires left { IsWordIfKnown a }
    requires right { IsWordIfKnown b }
    ensures value { IfSome result (λ v. (x y : ℕ) → IsKnown a x → IsKnown b y → v ≡ binary_value op x y kind) }
    ensures word { IsWordIfKnown result }
{
    match a {
        None => None,
        Some(x) => match b {
            None => None,
            Some(y) => Some(binary(op, x, y, kind)),
        },
    }
}

/// Whether a known operand is this word.
fn is_word(word: Option<Value>, known: Option<Value>) -> bool
    ensures { result ≡ true → (x : ℕ) → IsKnown known x → word ≡ Some x }
{
    match word {
        None => false,
        Some(v) => match known {
            None => false,
            Some(x) => x == v,
        },
    }
}

/// Whether an operator is 0 since an operand is.
fn is_absorbed(op: Binary, a: Option<Value>, b: Option<Value>) -> bool
    ensures { result ≡ true → (t : IntType) (x y : ℕ) → IsKnown a x → IsKnown b y → binary_value op x y t ≡ 0 }
{
    absorbs(op) && (is_word(Some(0), a) || is_word(Some(0), b))
}

/// Folds a binary operator at two equal operands.
fn fold_equals(op: Binary, kind: IntType, left: u32, right: u32) -> Folded
    requires { left ≡ right }
    ensures { FoldsTo (nodes.Binary op kind left right) (λ words. ⊤) result }
{
    if let Some(value) = of_equals(op) {
        return Folded::New {
            node: Node::Constant { value },
        };
    }
    if keeps_equals(op) {
        return Folded::Same { node: left };
    }
    Folded::New {
        node: Node::Binary {
            op,
            kind,
            left,
            right,
        },
    }
}

/// Folds a binary operator, by what is known of its operands.
pub fn fold_binary(
    op: Binary,
    kind: IntType,
    left: u32,
    right: u32,
    a: Option<Value>,
    b: Option<Value>,
) -> Folded
    requires left { IsWordIfKnown a }
    requires right { IsWordIfKnown b }
    ensures { FoldsTo (nodes.Binary op kind left right) (KnowsBoth left a right b) result }
{
    if let Some(value) = both_known(op, kind, a, b) {
        return Folded::New {
            node: Node::Constant { value },
        };
    }
    if is_word(right_unit(op), b) {
        return Folded::Same { node: left };
    }
    if is_word(left_unit(op), a) {
        return Folded::Same { node: right };
    }
    if is_absorbed(op, a, b) {
        return Folded::New {
            node: Node::Constant { value: 0 },
        };
    }
    if left == right {
        return fold_equals(op, kind, left, right);
    }
    Folded::New {
        node: Node::Binary {
            op,
            kind,
            left,
            right,
        },
    }
}

/// Folds a unary operator, by what is known of its operand.
pub fn fold_unary(op: Unary, kind: IntType, of: u32, a: Option<Value>) -> Folded
    requires { IsWordIfKnown a }
    ensures { FoldsTo (nodes.Unary op kind of) (Knows of a) result }
{
    if let Some(x) = a {
        let value = unary(op, x, kind);
        return Folded::New {
            node: Node::Constant { value },
        };
    }
    if op == Unary::Plus {
        return Folded::Same { node: of };
    }
    Folded::New {
        node: Node::Unary { op, kind, of },
    }
}

/// Folds a choice, by what is known of its test.
pub fn fold_choice(test: u32, chosen: u32, other: u32, a: Option<Value>) -> Folded
    ensures { FoldsTo (nodes.Choose test chosen other) (Knows test a) result }
{
    if chosen == other {
        return Folded::Same { node: chosen };
    }
    match a {
        None => Folded::New {
            node: Node::Choose {
                test,
                yes: chosen,
                no: other,
            },
        },
        Some(0) => Folded::Same { node: other },
        Some(_) => Folded::Same { node: chosen },
    }
}
