//! A formula that grows gate by gate (the encoding of Tseitin). A builder that has answered want of memory is spent:
//! it answers that from then on, at each call that can.
ghost use Rattle.std.specs.Prelude.{◌⊎◌, ◌≡◌, ℕ, ◌+◌, ◌*◌, ◌<◌, ◌≤◌, ◌&&◌, true, false, List, [], ◌∷◌, ◌++◌, IfOk, OnOk, OnErr, IsErr, length};
ghost use Rattle.std.specs.List.{All};
ghost use Rattle.lz_cnf.specs.Models.{IsFormula, variable_bound};
ghost use Rattle.lz_gates.specs.Circuits.{Assignment, Satisfies, value, xor, choice, IsLit, AreLits, IsCircuit, Makes, IsOpen, IsOpenChoice, first_clauses};

use crate::fold::{folded_and, folded_choice, folded_xor};
use lz_base::{Memory, Sequence};
use lz_cnf::{Clause, Clauses, Cnf, Lit};
use std::alloc::Global;
use std::marker::Model;

/// A formula under construction, with a literal that is true in each of its models.
#[derive(Drop)]
pub struct Builder {
    alloc: Global,
    variables: u32,
    clauses: Clauses,
    spent: bool,
}

impl Model for Builder {
    ghost use Rattle.lz_gates.specs.Circuits.{Circuit, IsCircuit};

    ghost Value = { Circuit };

    ghost view = { λ b. record { variables = b.variables; clauses = b.clauses; spent = b.spent } };

    ghost invariant = { λ b. IsCircuit (record { variables = b.variables; clauses = b.clauses; spent = b.spent }) };
}

/// Adds a copy of the clause at the end.
fn push_clause(clauses: &mut Clauses, alloc: Global, clause: &[Lit]) -> Result<(), Memory>
    ensures ok { OnOk result (clauses.new ≡ clauses.old ++ clause.now ∷ []) }
    ensures err { OnErr result (clauses.new ≡ clauses.old) }
{
    let mut own = Clause::new(alloc);
    own.append(clause)?;
    clauses.push(own)
}

impl Builder {
    /// One more variable, in no clause.
    pub fn fresh(&mut self) -> Result<Lit, Memory>
        requires room { self.old.variables + 1 < variable_bound }
        ensures lit { IfOk result (λ lit. lit.0 ≡ 2 * self.old.variables) }
        ensures variables { OnOk result (self.new.variables ≡ self.old.variables + 1) }
        ensures clauses { OnOk result (self.new.clauses ≡ self.old.clauses) }
        ensures working { OnOk result (self.new.spent ≡ false) }
        ensures err { OnErr result (self.new.spent ≡ true) }
        ensures stays_spent { self.old.spent ≡ true → IsErr result }
    {
        if self.spent {
            return Err(Memory);
        }
        let lit = Lit(2 * self.variables);
        self.variables += 1;
        Ok(lit)
    }

    /// One more clause, which has a literal.
    pub fn require(&mut self, clause: &[Lit]) -> Result<(), Memory>
        requires some { 0 < length clause.now }
        requires lits { AreLits self.old clause.now }
        ensures variables { OnOk result (self.new.variables ≡ self.old.variables) }
        ensures clauses { OnOk result (self.new.clauses ≡ self.old.clauses ++ clause.now ∷ []) }
        ensures working { OnOk result (self.new.spent ≡ false) }
        ensures err { OnErr result (self.new.spent ≡ true) }
        ensures stays_spent { self.old.spent ≡ true → IsErr result }
    {
        if self.spent {
            return Err(Memory);
        }
        match push_clause(&mut self.clauses, self.alloc, clause) {
            Ok(()) => Ok(()),
            Err(error) => {
                self.spent = true;
                Err(error)
            }
        }
    }

    /// A conjunction by a new variable.
    #[tactic(auto, using(crate::proofs::ListsLemmas::below_two, crate::proofs::ListsLemmas::below_three, crate::proofs::ListsLemmas::negated_below))]
    fn new_and(&mut self, left: Lit, right: Lit) -> Result<Lit, Memory>
        requires left { IsLit self.old left }
        requires right { IsLit self.old right }
        requires room { self.old.variables + 1 < variable_bound }
        ensures lit { IfOk result (IsLit self.new) }
        ensures more { OnOk result (self.old.variables ≤ self.new.variables) }
        ensures most { OnOk result (self.new.variables ≤ self.old.variables + 1) }
        ensures made { IfOk result (λ lit. Makes self.old self.new 1 3 (λ a. value a lit ≡ (value a left && value a right))) }
        ensures working { OnOk result (self.new.spent ≡ false) }
        ensures err { OnErr result (self.new.spent ≡ true) }
        ensures stays_spent { self.old.spent ≡ true → IsErr result }
    {
        let gate = self.fresh()?;
        let off = gate.negated();
        self.require(&[off, left])?;
        self.require(&[off, right])?;
        self.require(&[gate, left.negated(), right.negated()])?;
        Ok(gate)
    }

    /// The conjunction of two literals: at most one variable and three clauses.
    pub fn and_gate(&mut self, left: Lit, right: Lit) -> Result<Lit, Memory>
        requires left { IsLit self.old left }
        requires right { IsLit self.old right }
        requires room { self.old.variables + 1 < variable_bound }
        ensures lit { IfOk result (IsLit self.new) }
        ensures more { OnOk result (self.old.variables ≤ self.new.variables) }
        ensures most { OnOk result (self.new.variables ≤ self.old.variables + 1) }
        ensures made { IfOk result (λ lit. Makes self.old self.new 1 3 (λ a. value a lit ≡ (value a left && value a right))) }
        ensures folds { OnOk result ((IsOpen left right) ⊎ (self.new ≡ self.old)) }
        ensures working { OnOk result (self.new.spent ≡ false) }
        ensures err { OnErr result (self.new.spent ≡ true) }
        ensures stays_spent { self.old.spent ≡ true → IsErr result }
    {
        if self.spent {
            return Err(Memory);
        }
        match folded_and(left, right) {
            Some(lit) => Ok(lit),
            None => self.new_and(left, right),
        }
    }

    /// Whether exactly one is true, by a new variable.
    #[tactic(auto, using(crate::proofs::ListsLemmas::below_two, crate::proofs::ListsLemmas::below_three, crate::proofs::ListsLemmas::negated_below))]
    fn new_xor(&mut self, left: Lit, right: Lit) -> Result<Lit, Memory>
        requires left { IsLit self.old left }
        requires right { IsLit self.old right }
        requires room { self.old.variables + 1 < variable_bound }
        ensures lit { IfOk result (IsLit self.new) }
        ensures more { OnOk result (self.old.variables ≤ self.new.variables) }
        ensures most { OnOk result (self.new.variables ≤ self.old.variables + 1) }
        ensures made { IfOk result (λ lit. Makes self.old self.new 1 4 (λ a. value a lit ≡ xor (value a left) (value a right))) }
        ensures working { OnOk result (self.new.spent ≡ false) }
        ensures err { OnErr result (self.new.spent ≡ true) }
        ensures stays_spent { self.old.spent ≡ true → IsErr result }
    {
        let gate = self.fresh()?;
        let off = gate.negated();
        self.require(&[off, left, right])?;
        self.require(&[off, left.negated(), right.negated()])?;
        self.require(&[gate, left.negated(), right])?;
        self.require(&[gate, left, right.negated()])?;
        Ok(gate)
    }

    /// Whether exactly one of two literals is true: at most one variable and four clauses.
    pub fn xor_gate(&mut self, left: Lit, right: Lit) -> Result<Lit, Memory>
        requires left { IsLit self.old left }
        requires right { IsLit self.old right }
        requires room { self.old.variables + 1 < variable_bound }
        ensures lit { IfOk result (IsLit self.new) }
        ensures more { OnOk result (self.old.variables ≤ self.new.variables) }
        ensures most { OnOk result (self.new.variables ≤ self.old.variables + 1) }
        ensures made { IfOk result (λ lit. Makes self.old self.new 1 4 (λ a. value a lit ≡ xor (value a left) (value a right))) }
        ensures folds { OnOk result ((IsOpen left right) ⊎ (self.new ≡ self.old)) }
        ensures working { OnOk result (self.new.spent ≡ false) }
        ensures err { OnErr result (self.new.spent ≡ true) }
        ensures stays_spent { self.old.spent ≡ true → IsErr result }
    {
        if self.spent {
            return Err(Memory);
        }
        match folded_xor(left, right) {
            Some(lit) => Ok(lit),
            None => self.new_xor(left, right),
        }
    }

    /// A choice by a new variable. The last two clauses follow from the others, and let unit propagation see equal sides.
    #[tactic(auto, using(crate::proofs::ListsLemmas::below_two, crate::proofs::ListsLemmas::below_three, crate::proofs::ListsLemmas::negated_below))]
    fn new_choice(&mut self, test: Lit, yes: Lit, no: Lit) -> Result<Lit, Memory>
        requires test { IsLit self.old test }
        requires yes { IsLit self.old yes }
        requires no { IsLit self.old no }
        requires room { self.old.variables + 1 < variable_bound }
        ensures lit { IfOk result (IsLit self.new) }
        ensures more { OnOk result (self.old.variables ≤ self.new.variables) }
        ensures most { OnOk result (self.new.variables ≤ self.old.variables + 1) }
        ensures made { IfOk result (λ lit. Makes self.old self.new 1 6 (λ a. value a lit ≡ choice (value a test) (value a yes) (value a no))) }
        ensures working { OnOk result (self.new.spent ≡ false) }
        ensures err { OnErr result (self.new.spent ≡ true) }
        ensures stays_spent { self.old.spent ≡ true → IsErr result }
    {
        let gate = self.fresh()?;
        let off = gate.negated();
        self.require(&[test.negated(), yes.negated(), gate])?;
        self.require(&[test.negated(), yes, off])?;
        self.require(&[test, no.negated(), gate])?;
        self.require(&[test, no, off])?;
        self.require(&[yes.negated(), no.negated(), gate])?;
        self.require(&[yes, no, off])?;
        Ok(gate)
    }

    /// A choice that is none of its operands. Where a side is a constant, it is a conjunction.
    #[tactic(auto, using(crate::proofs::ListsLemmas::negated_below))]
    fn open_choice(&mut self, test: Lit, yes: Lit, no: Lit) -> Result<Lit, Memory>
        requires test { IsLit self.old test }
        requires yes { IsLit self.old yes }
        requires no { IsLit self.old no }
        requires room { self.old.variables + 1 < variable_bound }
        ensures lit { IfOk result (IsLit self.new) }
        ensures more { OnOk result (self.old.variables ≤ self.new.variables) }
        ensures most { OnOk result (self.new.variables ≤ self.old.variables + 1) }
        ensures made { IfOk result (λ lit. Makes self.old self.new 1 6 (λ a. value a lit ≡ choice (value a test) (value a yes) (value a no))) }
        ensures working { OnOk result (self.new.spent ≡ false) }
        ensures err { OnErr result (self.new.spent ≡ true) }
        ensures stays_spent { self.old.spent ≡ true → IsErr result }
    {
        let _variables = self.variables;
        if no.0 == 1 {
            let both = self.and_gate(test, yes)?;
            return Ok(both);
        }
        if yes.0 == 1 {
            let both = self.and_gate(test.negated(), no)?;
            return Ok(both);
        }
        if no.0 == 0 {
            let against = self.and_gate(test, yes.negated())?;
            return Ok(against.negated());
        }
        if yes.0 == 0 {
            let neither = self.and_gate(test.negated(), no.negated())?;
            return Ok(neither.negated());
        }
        self.new_choice(test, yes, no)
    }

    /// `yes` where the test is true, and `no` else: at most one variable and six clauses.
    pub fn choose_gate(&mut self, test: Lit, yes: Lit, no: Lit) -> Result<Lit, Memory>
        requires test { IsLit self.old test }
        requires yes { IsLit self.old yes }
        requires no { IsLit self.old no }
        requires room { self.old.variables + 1 < variable_bound }
        ensures lit { IfOk result (IsLit self.new) }
        ensures more { OnOk result (self.old.variables ≤ self.new.variables) }
        ensures most { OnOk result (self.new.variables ≤ self.old.variables + 1) }
        ensures made { IfOk result (λ lit. Makes self.old self.new 1 6 (λ a. value a lit ≡ choice (value a test) (value a yes) (value a no))) }
        ensures folds { OnOk result ((IsOpenChoice test yes no) ⊎ (self.new ≡ self.old)) }
        ensures working { OnOk result (self.new.spent ≡ false) }
        ensures err { OnErr result (self.new.spent ≡ true) }
        ensures stays_spent { self.old.spent ≡ true → IsErr result }
    {
        if self.spent {
            return Err(Memory);
        }
        match folded_choice(test, yes, no) {
            Some(lit) => Ok(lit),
            None => self.open_choice(test, yes, no),
        }
    }

    /// The literal that is true in every model. Takes no memory.
    pub fn truth(&self) -> Lit
        ensures lit { IsLit self.now result }
        ensures circuit { IsCircuit self.now }
        ensures says { (a : Assignment) → Satisfies a self.now.clauses → value a result ≡ true }
    {
        let _variables = self.variables;
        Lit(0)
    }

    /// The literal that is false in every model. Takes no memory.
    pub fn falsity(&self) -> Lit
        ensures lit { IsLit self.now result }
        ensures says { (a : Assignment) → Satisfies a self.now.clauses → value a result ≡ false }
    {
        let _variables = self.variables;
        Lit(1)
    }

    /// Whether the builder has answered want of memory. It then answers that at each call that can.
    pub fn is_spent(&self) -> bool
        ensures { result ≡ self.now.spent }
    {
        self.spent
    }

    /// Answers want of memory from now on, as a caller wants whose own lists found none.
    pub fn give_up(&mut self)
        ensures spent { self.new.spent ≡ true }
        ensures variables { self.new.variables ≡ self.old.variables }
        ensures clauses { self.new.clauses ≡ self.old.clauses }
    {
        self.spent = true;
    }

    /// The formula that was built. No clause of it is empty. Takes no memory.
    pub fn finish(self) -> Cnf
        ensures variables { result.variables ≡ self.variables }
        ensures clauses { result.clauses ≡ self.clauses }
        ensures formula { IsFormula result }
        ensures filled { All (λ clause. 0 < length clause) result.clauses }
        ensures circuit { IsCircuit self }
    {
        Cnf {
            variables: self.variables,
            clauses: self.clauses,
        }
    }

    /// A formula with one clause, the truth literal, of the one variable.
    pub fn new(alloc: Global) -> Result<Builder, Memory>
        ensures working { IfOk result (λ builder. builder.spent ≡ false) }
        ensures variables { IfOk result (λ builder. builder.variables ≡ 1) }
        ensures clauses { IfOk result (λ builder. builder.clauses ≡ first_clauses) }
    {
        let mut clauses = Clauses::new(alloc);
        push_clause(&mut clauses, alloc, &[Lit(0)])?;
        Ok(Builder {
            alloc,
            variables: 1,
            clauses,
            spent: false,
        })
    }
}
