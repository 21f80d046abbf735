ghost use Rattle.std.specs.Prelude.{◌≡◌, ◌<◌, length, map, OnOk, IfOk};
ghost use Rattle.lz_ssa.specs.declared.node.Node.TheVariants as nodes;
ghost use Rattle.lz_ssa.specs.Construction as spec;
ghost use Rattle.lz_ssa.specs.Construction.{add, join, word_node, with_word};

use crate::node::{Node, NodeList};
use lz_base::{Binary, IntType, Memory, Unary, Value};
use std::alloc::Global;

/// What a word of the memory has: its first value, or the word of a node.
#[derive(Clone, Copy)]
pub enum Held {
    First { value: Value },
    Made { node: u32 },
}

/// The nodes that were made so far, and what each word of the memory has.
#[derive(Drop)]
pub struct Draft {
    pub list: NodeList,
    pub words: Vec<Held>,
}

impl Draft {
    ghost use Rattle.lz_ssa.specs.Drafts.{drawn};

    /// Adds a node. Where it can't be numbered, memory is wanting.
    pub fn add(&mut self, node: Node) -> Result<u32, Memory>
        ensures drawn { OnOk result (drawn self.new ≡ (add node (drawn self.old)).drawn) }
        ensures node { IfOk result (λ number. number ≡ (add node (drawn self.old)).node) }
        ensures words { length self.new.words.items ≡ length self.old.words.items }
    {
        let number = self.list.items().len();
        if number >= u32::MAX as usize {
            return Err(Memory);
        }
        self.list.push(node)?;
        Ok(number as u32)
    }

    /// Adds a unary operator at a word of a kind.
    pub fn unary(&mut self, op: Unary, kind: IntType, of: u32) -> Result<u32, Memory>
        ensures drawn { OnOk result (drawn self.new ≡ (add (nodes.Unary op kind of) (drawn self.old)).drawn) }
        ensures node { IfOk result (λ number. number ≡ (add (nodes.Unary op kind of) (drawn self.old)).node) }
        ensures words { length self.new.words.items ≡ length self.old.words.items }
    {
        self.add(Node::Unary { op, kind, of })
    }

    /// Adds a binary operator at words of a kind.
    pub fn binary(
        &mut self,
        op: Binary,
        kind: IntType,
        left: u32,
        right: u32,
    ) -> Result<u32, Memory>
        ensures drawn { OnOk result (drawn self.new ≡ (add (nodes.Binary op kind left right) (drawn self.old)).drawn) }
        ensures node { IfOk result (λ number. number ≡ (add (nodes.Binary op kind left right) (drawn self.old)).node) }
        ensures words { length self.new.words.items ≡ length self.old.words.items }
    {
        self.add(Node::Binary {
            op,
            kind,
            left,
            right,
        })
    }

    /// Adds a binary operator at words without a sign.
    pub fn join(&mut self, op: Binary, left: u32, right: u32) -> Result<u32, Memory>
        ensures drawn { OnOk result (drawn self.new ≡ (join op left right (drawn self.old)).drawn) }
        ensures node { IfOk result (λ number. number ≡ (join op left right (drawn self.old)).node) }
        ensures words { length self.new.words.items ≡ length self.old.words.items }
    {
        self.binary(op, IntType::Unsigned, left, right)
    }

    /// Adds a conversion of a word.
    pub fn convert(&mut self, from: IntType, to: IntType, of: u32) -> Result<u32, Memory>
        ensures drawn { OnOk result (drawn self.new ≡ (add (nodes.Convert from to of) (drawn self.old)).drawn) }
        ensures node { IfOk result (λ number. number ≡ (add (nodes.Convert from to of) (drawn self.old)).node) }
        ensures words { length self.new.words.items ≡ length self.old.words.items }
    {
        self.add(Node::Convert { from, to, of })
    }

    /// Adds a choice between two words.
    pub fn choose(&mut self, test: u32, yes: u32, no: u32) -> Result<u32, Memory>
        ensures drawn { OnOk result (drawn self.new ≡ (add (nodes.Choose test yes no) (drawn self.old)).drawn) }
        ensures node { IfOk result (λ number. number ≡ (add (nodes.Choose test yes no) (drawn self.old)).node) }
        ensures words { length self.new.words.items ≡ length self.old.words.items }
    {
        self.add(Node::Choose { test, yes, no })
    }

    /// The node of a word of the memory. A first value becomes a constant where it is first read.
    #[tactic(auto, unfolding(crate::specs::Construction::word_node))]
    pub fn word(&mut self, place: u32) -> Result<u32, Memory>
        requires { place < length self.old.words.items }
        ensures drawn { OnOk result (drawn self.new ≡ (word_node place (drawn self.old)).drawn) }
        ensures node { IfOk result (λ number. number ≡ (word_node place (drawn self.old)).node) }
        ensures words { length self.new.words.items ≡ length self.old.words.items }
    {
        match self.words[place as usize] {
            Held::Made { node } => Ok(node),
            Held::First { value } => {
                let node = self.add(Node::Constant { value })?;
                self.words[place as usize] = Held::Made { node };
                Ok(node)
            }
        }
    }
}
