ghost use Rattle.std.specs.Prelude.{◌≡◌, ℕ, ◌<◌, ◌≤◌, List, Option, length, take, IfOk, OnOk, OnErr};
ghost use Rattle.lz_outside.specs.Faults.{Rose};
ghost use Rattle.lz_outside.specs.Written.{Gains};

use crate::folder::Failed;

/// Where bytes are put, as the standard output. It may tell what was written, as one in memory does.
pub trait Sink {
    /// The bytes that were written, where the sink tells them.
    ghost written: { Self → Option (List ℕ) };

    /// How many writes have failed. It never falls, and stands still at the end of its type.
    ghost faults: { Self → ℕ };

    /// Adds a front of the piece and answers its length, at least 1 where the piece is not empty (POSIX.1-2017
    /// write). It fails only where the count of failed writes rises, and has then added nothing.
    fn put(&mut self, piece: &[u8]) -> Result<usize, Failed>
        ensures count { IfOk result (λ n. n ≤ length piece.now) }
        ensures some { IfOk result (λ n. 0 < length piece.now → 0 < n) }
        ensures gains { IfOk result (λ n. Gains (written self.old) (written self.new) (take n piece.now)) }
        ensures calm { OnOk result (faults self.new ≡ faults self.old) }
        ensures failed { OnErr result (Rose (faults self.old) (faults self.new)) }
        ensures unchanged { OnErr result (written self.new ≡ written self.old) }
        ensures counts { faults self.old ≤ faults self.new };
}
