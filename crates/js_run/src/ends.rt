//! The ends of a run: where its text comes from, and where its output goes.

ghost use Rattle.std.specs.Prelude.{ℕ, ◌<◌, ◌≤◌, List, Option, length, IfOk, OnErr};
ghost use Rattle.std.specs.Io.KnownBytes.{ReadConsumes, WriteAppends};
ghost use Rattle.js_run.specs.Ends.{CountsFault};

/// A read or a write failed.
#[derive(Debug, Drop)]
pub struct Failed;

/// Where bytes come from.
pub trait Source {
    /// The bytes that are left, where they are told.
    ghost remaining: { Self → Option (List ℕ) };

    /// How many faults there were.
    ghost faults: { Self → ℕ };

    /// Reads the next bytes into the front of `into`, and answers how many. None are read only at the end, or
    /// where there is no room for one.
    fn read(&mut self, into: &mut [u8]) -> Result<usize, Failed>
        ensures fits { IfOk result (λ n. n ≤ length into.new) }
        ensures bytes { ReadConsumes (remaining self.old) (remaining self.new) result into.new }
        ensures counts { faults self.old ≤ faults self.new }
        ensures failed { OnErr result (CountsFault (faults self.old) (faults self.new)) };
}

/// Where bytes go.
pub trait Sink {
    /// The bytes that were taken, where they are told.
    ghost taken: { Self → Option (List ℕ) };

    /// How many faults there were.
    ghost faults: { Self → ℕ };

    /// Takes a front of `piece`, and answers its length: one byte at least, where there is one.
    fn write(&mut self, piece: &[u8]) -> Result<usize, Failed>
        ensures fits { IfOk result (λ n. n ≤ length piece.now) }
        ensures bytes { WriteAppends (taken self.old) (taken self.new) result piece.now }
        ensures goes_on { IfOk result (λ n. 0 < length piece.now → 0 < n) }
        ensures counts { faults self.old ≤ faults self.new }
        ensures failed { OnErr result (CountsFault (faults self.old) (faults self.new)) };
}
