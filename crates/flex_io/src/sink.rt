//! What bytes are written to.

ghost use Rattle.std.specs.Prelude.{◌≡◌, ℕ, List, Option, ◌≤◌, ◌<◌, length, IfOk};
ghost use Rattle.std.specs.Result.{IsErrOf};
ghost use Rattle.std.specs.Io.{WritesAtMost};
ghost use Rattle.std.specs.Io.KnownBytes.{WriteAppends};
ghost use Rattle.flex_io.specs.Faults.{HasCause};

use crate::Fault;

/// A sink of bytes. A sink that tells the bytes taken goes on to tell them.
pub trait Sink {
    /// The bytes taken, where the sink tells them.
    ghost taken: { Self → Option (List ℕ) };

    /// How often the sink has failed. The number never falls.
    ghost faults: { Self → ℕ };

    /// Writes a front of the bytes, and answers how many it took: one at least, unless there are
    /// none. A write that fails takes nothing.
    fn write(&mut self, bytes: &[u8]) -> Result<usize, Fault>
        ensures within { WritesAtMost result bytes.now }
        ensures written { WriteAppends (taken self.old) (taken self.new) result bytes.now }
        ensures some { IfOk result (λ count. 0 < length bytes.now → 0 < count) }
        ensures faults { HasCause result (faults self.old) (faults self.new) }
        ensures no_memory { IsErrOf result Fault.NoMemory
            → (taken self.new ≡ taken self.old) × (faults self.new ≡ faults self.old) }
        ensures never_falls { faults self.old ≤ faults self.new };
}
