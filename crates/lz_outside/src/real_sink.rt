ghost use Rattle.std.specs.Prelude.{◌≡◌, ℕ, ◌<◌, ◌≤◌, ◌+◌, ◌-◌, ◌^◌, None, length, min, IfOk, IfSome, OnOk, OnErr, ⊤};
ghost use Rattle.lz_outside.specs.Faults.{Rose};

use crate::faults::raised;
use crate::folder::Failed;
use crate::sink::Sink;
use std::io::Print;
use std::marker::Model;

/// The standard output. It tells nothing of what was written: what the system takes is trusted.
/// Contracts see it as the number of its writes that failed.
#[derive(Drop)]
pub struct RealSink<R> {
    runtime: R,
    faults: u64,
}

impl<R> Model for RealSink<R> {
    ghost Value = { ℕ };

    ghost view = { λ sink. sink.faults };
}

impl<R: Print> RealSink<R> {
    /// The standard output of the program's runtime.
    pub fn new(runtime: R) -> RealSink<R>
        ensures { result ≡ 0 }
    {
        RealSink { runtime, faults: 0 }
    }
}

impl<R: Print> Sink for RealSink<R> {
    ghost written = { λ _. None };

    ghost faults = { λ sink. sink };

    /// Writes once, past any buffer (POSIX.1-2017 write). Each error raises the count, and so do a write
    /// that a signal interrupts and a write of 0 bytes of a piece that is not empty.
    fn put(&mut self, piece: &[u8]) -> Result<usize, Failed> {
        match write_some(&self.runtime, piece) {
            Some(count) => Ok(count),
            None => {
                self.faults = raised(self.faults);
                Err(Failed)
            }
        }
    }
}

// Writes some of a piece and says how many bytes, or nothing where the write fails or takes none of a
// piece that is not empty.
fn write_some<R: Print>(runtime: &R, piece: &[u8]) -> Option<usize>
    ensures count { IfSome result (λ n. n ≤ length piece.now) }
    ensures some { IfSome result (λ n. 0 < length piece.now → 0 < n) }
{
    match runtime.write_some(piece) {
        Ok(0) if !piece.is_empty() => None,
        Ok(count) => Some(count),
        Err(_) => None,
    }
}
