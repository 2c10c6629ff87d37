//! What a program asks of the devices that it reads and writes.

ghost use Rattle.std.specs.Prelude.{ℕ, ◌<◌, ◌≤◌, List, Option, length, IfOk};
ghost use Rattle.std.specs.Io.KnownBytes.{ReadConsumes, WriteAppends};
ghost use Rattle.bcl_io.specs.Faults.{CountsFaults};

use crate::Failed;

/// Bytes that are read in pieces.
pub trait Source {
    /// The bytes left, where the source tells them.
    ghost left: { Self → Option (List ℕ) };

    /// How many calls have failed. At 2^64 - 1 the count stands still.
    ghost faults: { Self → ℕ };

    /// Moves the front of what is left into `buf`, and answers how many bytes. 0 for a `buf` that isn't empty is the end.
    /// A call that fails moves nothing.
    fn read(&mut self, buf: &mut [u8]) -> Result<usize, Failed>
        ensures bound { IfOk result (λ n. n ≤ length buf.new) }
        ensures bytes { ReadConsumes (left self.old) (left self.new) result buf.new }
        ensures faults { CountsFaults (faults self.old) (faults self.new) result };
}

/// Bytes that are written in pieces.
pub trait Sink {
    /// The bytes taken so far, where the sink tells them.
    ghost taken: { Self → Option (List ℕ) };

    /// How many calls have failed. At 2^64 - 1 the count stands still.
    ghost faults: { Self → ℕ };

    /// Takes the front of `buf`, and answers how many bytes: at least one where `buf` isn't empty.
    /// A call that fails takes nothing.
    fn write(&mut self, buf: &[u8]) -> Result<usize, Failed>
        ensures bound { IfOk result (λ n. n ≤ length buf.now) }
        ensures moves { IfOk result (λ n. 0 < length buf.now → 0 < n) }
        ensures bytes { WriteAppends (taken self.old) (taken self.new) result buf.now }
        ensures faults { CountsFaults (faults self.old) (faults self.new) result };
}
