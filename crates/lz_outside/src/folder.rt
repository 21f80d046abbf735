ghost use Rattle.std.specs.Prelude.{◌≡◌, ◌⊎◌, ℕ, ◌<◌, ◌≤◌, [], ◌++◌, Option, length, take, IfOk, OnOk, OnErr};
ghost use Rattle.lz_outside.specs.Faults.{Rose};
ghost use Rattle.lz_outside.specs.Files.{Changes, FileMap, GivesPiece, KeepsOthers, Lacks, bytes_of};

/// A read or a write of the outside that did not succeed.
#[derive(Clone, Copy, Debug, PartialEq, Eq)]
pub struct Failed;

/// A folder of files that pieces are read from and written to. It may tell what its files hold, as one in memory does.
pub trait Folder {
    /// What the file of each name holds, `None` where no file has the name; or `None` in all, where
    /// the folder tells nothing.
    ghost files: { Self → Option FileMap };

    /// How many reads have failed. It never falls, and stands still at the end of its type.
    ghost read_faults: { Self → ℕ };

    /// How many writes have failed. It never falls, and stands still at the end of its type.
    ghost write_faults: { Self → ℕ };

    /// Copies bytes of the named file, from the given place on, into the front of `into`, and answers
    /// how many (POSIX.1-2017 read). It answers 0 only where the place is at or past the end of the
    /// file, or `into` is empty. It fails only where the count of failed reads rises, or the told
    /// files lack the name. It changes no file.
    fn read_piece(&mut self, name: &str, place: u64, into: &mut [u8]) -> Result<usize, Failed>
        ensures count { IfOk result (λ n. n ≤ length into.old) }
        ensures piece { IfOk result (λ n. GivesPiece (files self.old) name.now place n into.old into.new) }
        ensures calm { OnOk result (read_faults self.new ≡ read_faults self.old) }
        ensures failed { OnErr result (Rose (read_faults self.old) (read_faults self.new)
            ⊎ Lacks (files self.old) name.now) }
        ensures counts { read_faults self.old ≤ read_faults self.new }
        ensures keeps_files { files self.new ≡ files self.old }
        ensures same_writes { write_faults self.new ≡ write_faults self.old };

    /// Makes the named file empty, and makes it where no file has the name (POSIX.1-2017 open with
    /// O_CREAT and O_TRUNC). It fails only where the count of failed writes rises; the named file may
    /// then hold anything, or be absent. Other files stay.
    fn begin(&mut self, name: &str) -> Result<(), Failed>
        ensures changes { OnOk result (Changes (files self.old) (files self.new) name.now []) }
        ensures calm { OnOk result (write_faults self.new ≡ write_faults self.old) }
        ensures failed { OnErr result (Rose (write_faults self.old) (write_faults self.new)) }
        ensures others { OnErr result (KeepsOthers (files self.old) (files self.new) name.now) }
        ensures counts { write_faults self.old ≤ write_faults self.new }
        ensures same_reads { read_faults self.new ≡ read_faults self.old };

    /// Adds a front of the piece at the end of the named file and answers its length, at least 1 where
    /// the piece is not empty (POSIX.1-2017 write). It makes the file where no file has the name. It
    /// fails only where the count of failed writes rises; the named file may then hold anything, or be
    /// absent. Other files stay.
    fn append_piece(&mut self, name: &str, piece: &[u8]) -> Result<usize, Failed>
        ensures count { IfOk result (λ n. n ≤ length piece.now) }
        ensures some { IfOk result (λ n. 0 < length piece.now → 0 < n) }
        ensures changes { IfOk result (λ n. Changes (files self.old) (files self.new) name.now
            (bytes_of (files self.old) name.now ++ take n piece.now)) }
        ensures calm { OnOk result (write_faults self.new ≡ write_faults self.old) }
        ensures failed { OnErr result (Rose (write_faults self.old) (write_faults self.new)) }
        ensures others { OnErr result (KeepsOthers (files self.old) (files self.new) name.now) }
        ensures counts { write_faults self.old ≤ write_faults self.new }
        ensures same_reads { read_faults self.new ≡ read_faults self.old };
}
