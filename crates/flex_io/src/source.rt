//! What bytes are read from.

ghost use Rattle.std.specs.Prelude.{ℕ, List, Option, ◌≤◌, OnErr};
ghost use Rattle.std.specs.Io.{ReadsAtMost};
ghost use Rattle.std.specs.Io.KnownBytes.{ReadConsumes};
ghost use Rattle.flex_io.specs.Faults.{HasRisen};

use crate::Failed;

/// A source of bytes. A source that tells the bytes left goes on to tell them.
pub trait Source {
    /// The bytes left, where the source tells them.
    ghost remaining: { Self → Option (List ℕ) };

    /// How often the source has failed. The number never falls.
    ghost faults: { Self → ℕ };

    /// Reads up to `buf.len()` bytes into the front of `buf`, and answers how many. At 0 the
    /// source is at its end, or `buf` is empty. A read that fails takes nothing.
    fn read(&mut self, buf: &mut [u8]) -> Result<usize, Failed>
        ensures within { ReadsAtMost result buf.new }
        ensures consumed { ReadConsumes (remaining self.old) (remaining self.new) result buf.new }
        ensures faults { OnErr result (HasRisen (faults self.old) (faults self.new)) }
        ensures never_falls { faults self.old ≤ faults self.new };
}
