ghost use Rattle.std.specs.Prelude.{◌≡◌, ◌↔◌, ◌*◌, ◌+◌, ◌^◌, ◌<◌, IsTrue, List, [], ◌∷◌, ◌++◌, length, IfOk};
ghost use Rattle.std.specs.List.{All, Contains};
ghost use Rattle.lz_cnf.specs.Models.{variable_of};
ghost use Rattle.lz_cnf.specs.declared.clause.Lit.{Lit};
ghost use Rattle.lz_log.specs.Marks.{AreStamps, Mark, Stands};

use lz_base::Memory;
use lz_cnf::Lit;
use std::alloc::Global;

/// Which literals are false at a step of a check: those whose stamp is that of the present round. A new round
/// forgets all of them at once, so that no step pays for the literals of another.
#[derive(Drop)]
pub struct Marks {
    /// For each literal the round in which it was last marked.
    pub stamps: Vec<u32>,
    /// The present round, from 1 on.
    pub round: u32,
}

/// How a clause stands where some literals are false.
#[derive(Clone, Copy, Debug, PartialEq, Eq)]
pub enum Standing {
    /// Each literal is false.
    AllFalse,
    /// One literal is not false.
    OneLeft(Lit),
    /// Two different literals are not false.
    TwoLeft,
}

impl Marks {
    /// Marks for the literals of so many variables.
    pub fn new(alloc: Global, variables: u32) -> Result<Marks, Memory>
        ensures stamps { IfOk result AreStamps }
        ensures room { IfOk result (λ marks. length marks.stamps.items ≡ variables * 2) }
    {
        let stamps = vec![in alloc; 0; variables as usize * 2]?;
        Ok(Marks { stamps, round: 1 })
    }

    /// Forgets every mark.
    pub fn begin(&mut self)
        ensures room { length self.new.stamps.items ≡ length self.old.stamps.items }
        ensures stamps { AreStamps self.old → AreStamps self.new }
        ensures none { AreStamps self.old → Mark self.new [] }
    {
        if self.round == u32::MAX {
            self.clear();
            return self.next();
        }
        self.next()
    }

    /// Begins the next round, of which no stamp is.
    fn next(&mut self)
        requires { self.old.round + 1 < 2 ^ 32 }
        ensures room { length self.new.stamps.items ≡ length self.old.stamps.items }
        ensures stamps { AreStamps self.old → AreStamps self.new }
        ensures none { AreStamps self.old → Mark self.new [] }
    {
        self.round += 1;
    }

    /// Sets every stamp back to 0.
    fn clear(&mut self)
        ensures room { length self.new.stamps.items ≡ length self.old.stamps.items }
        ensures stamps { AreStamps self.old → AreStamps self.new }
        ensures round { self.new.round ≡ 1 }
    {
        self.stamps.fill(0);
        self.round = 1;
    }

    /// Marks a literal as false.
    pub fn mark(&mut self, lit: Lit)
        requires { lit.0 < length self.old.stamps.items }
        ensures room { length self.new.stamps.items ≡ length self.old.stamps.items }
        ensures stamps { AreStamps self.old → AreStamps self.new }
        ensures marked { (false_ : List Lit) → Mark self.old false_ → Mark self.new (lit ∷ false_) }
    {
        self.stamps[lit.0 as usize] = self.round;
    }

    /// Whether a literal is marked as false.
    pub fn is_false(&self, lit: Lit) -> bool
        requires { lit.0 < length self.now.stamps.items }
        ensures { (false_ : List Lit) → Mark self.now false_ → IsTrue result ↔ Contains false_ lit }
    {
        self.stamps[lit.0 as usize] == self.round
    }

    /// How a clause stands. Its literals are looked at once each.
    pub fn standing(&self, clause: &[Lit]) -> Standing
        requires { All (λ lit. lit.0 < length self.now.stamps.items) clause.now }
        ensures { (false_ : List Lit) → Mark self.now false_ → Stands false_ clause.now result }
    {
        let mut standing = Standing::AllFalse;
        for lit in clause {
            standing = self.with_one_more(standing, *lit);
        }
        standing
    }

    /// How a clause stands that has a further literal.
    fn with_one_more(&self, standing: Standing, lit: Lit) -> Standing
        requires { lit.0 < length self.now.stamps.items }
        ensures { (false_ clause : List Lit) → Mark self.now false_ → Stands false_ clause standing → Stands false_ (clause ++ lit ∷ []) result }
    {
        if self.is_false(lit) {
            return standing;
        }
        standing.with_open(lit)
    }
}

impl Standing {
    /// How a clause stands that has a further literal, which is not false.
    fn with_open(self, lit: Lit) -> Standing
        ensures { (false_ clause : List Lit) → Stands false_ clause self → (Contains false_ lit → ⊥) → Stands false_ (clause ++ lit ∷ []) result }
    {
        match self {
            Standing::AllFalse => Standing::OneLeft(lit),
            Standing::OneLeft(other) => {
                if other == lit {
                    Standing::OneLeft(other)
                } else {
                    Standing::TwoLeft
                }
            }
            Standing::TwoLeft => Standing::TwoLeft,
        }
    }
}
