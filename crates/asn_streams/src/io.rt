//! Defines where bytes come from and where they go. Both traits count their faults, so that a
//! contract can state that an error comes only where a read or a write failed. The
//! implementations are in `memory` and in `standard`.
ghost use Rattle.std.specs.Prelude.{◌<◌, ℕ, List, Option, length, IfOk};
ghost use Rattle.std.specs.Io.{ReadsAtMost, WritesAtMost};
ghost use Rattle.std.specs.Io.KnownBytes.{ReadConsumes, WriteAppends};
ghost use Rattle.asn_streams.specs.Faults.{HasCause};

/// Reports that a read or a write failed. Why it did is not kept.
#[derive(Clone, Copy, Debug, PartialEq, Eq, Drop)]
pub struct Failed;

/// Gives bytes in pieces. A source counts its faults, and lets contracts see the bytes that it has
/// left where it can. A file or a pipe cannot: of what it gives contracts say only that there are
/// such bytes.
pub trait Source {
    /// The bytes that are left, or `None` where the source doesn't let contracts see them.
    ghost left: { Self → Option (List ℕ) };

    /// The number of reads that have failed. It never falls, and stands still at 2^64 - 1.
    ghost faults: { Self → ℕ };

    /// Puts bytes into the front of the slice, and returns their number. `Ok(0)` is the end of the
    /// input, unless the slice is empty.
    ///
    /// # Errors
    ///
    /// `Failed` exactly where the count of faults rises, and then no byte is taken from the source.
    fn read(&mut self, into: &mut [u8]) -> Result<usize, Failed>
        // At most the length of the slice, the bytes next in order, and faults at errors alone.
        ensures bound { ReadsAtMost result into.new }
        ensures bytes { ReadConsumes (left self.old) (left self.new) result into.new }
        ensures cause { HasCause (faults self.old) (faults self.new) result };
}

/// Takes bytes in pieces. A sink counts its faults, and lets contracts see the bytes that it was
/// given where it can.
pub trait Sink {
    /// The bytes that were written, or `None` where the sink doesn't let contracts see them.
    ghost written: { Self → Option (List ℕ) };

    /// The number of writes that have failed. It never falls, and stands still at 2^64 - 1.
    ghost faults: { Self → ℕ };

    /// Takes bytes from the front of the slice, and returns their number, at least one of a slice
    /// that is not empty. So a loop that writes the rest ends.
    ///
    /// # Errors
    ///
    /// `Failed` exactly where the count of faults rises, and then nothing is written.
    fn write(&mut self, from: &[u8]) -> Result<usize, Failed>
        // At most the slice's length is taken, in order after the bytes before, and faults are
        // counted at errors alone.
        ensures bound { WritesAtMost result from.now }
        ensures bytes { WriteAppends (written self.old) (written self.new) result from.now }
        ensures moves { IfOk result (λ n. 0 < length from.now → 0 < n) }
        ensures cause { HasCause (faults self.old) (faults self.new) result };
}
