/// What a search did, for the measurement of solvers. Each number wraps at 2^64; no contract speaks of them.
#[derive(Clone, Copy, Debug, PartialEq, Eq)]
pub struct Counts {
    /// Variables that were given a value by choice.
    pub decisions: u64,
    /// Clauses that propagation found false.
    pub conflicts: u64,
    /// Literals that became true, by choice or by a unit clause.
    pub propagations: u64,
}

impl Counts {
    /// Nothing was done yet.
    pub fn new() -> Counts {
        Counts {
            decisions: 0,
            conflicts: 0,
            propagations: 0,
        }
    }

    /// Counts a decision.
    pub fn decided(&mut self) {
        self.decisions = self.decisions.wrapping_add(1);
        self.propagations = self.propagations.wrapping_add(1);
    }

    /// Counts a conflict.
    pub fn ran_into_conflict(&mut self) {
        self.conflicts = self.conflicts.wrapping_add(1);
    }

    /// Counts the literals of a trail that grew from one length to another.
    pub fn propagated(&mut self, before: usize, after: usize) {
        let literals = (after as u64).wrapping_sub(before as u64);
        self.propagations = self.propagations.wrapping_add(literals);
    }
}
