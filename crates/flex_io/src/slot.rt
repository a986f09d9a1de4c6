//! One unit's room on a drive.

ghost use Rattle.std.specs.Prelude.{◌≡◌, ℕ, List, Option, ◌≤◌, length, IsOk, IsSome, OnOk, OnErr};
ghost use Rattle.std.specs.Result.{IsErrOf};
ghost use Rattle.flex_io.specs.declared.raw_place.RawPlace.{RawPlace};
ghost use Rattle.flex_io.specs.Faults.{HasRisen, HasCause};
ghost use Rattle.flex_io.specs.Slots.{StaysTold, Holds, CountsOk};

use crate::{Failed, Fault, RawPlace};

/// A slot: a place that holds the bytes of its last write.
pub trait Slot {
    /// Where the slot is. No call changes it.
    ghost place_of: { Self → RawPlace };

    /// The bytes that the slot holds, where it tells them.
    ghost content: { Self → Option (List ℕ) };

    /// How many bytes the last write had that was Ok, 0 if there was none.
    ghost len_of: { Self → ℕ };

    /// How many reads were Ok, modulo 2^64.
    ghost reads: { Self → ℕ };

    /// Whether each read of the slot is Ok.
    ghost is_steady: { Self → Type 0 };

    /// How often the slot has failed. The number never falls.
    ghost faults: { Self → ℕ };

    // Either all slots of a type tell their content, or none does.
    ghost alike: { (one : Self) → (other : Self) → IsSome (content one) → IsSome (content other) };

    /// Where the slot is.
    fn place(&self) -> RawPlace
        ensures { result ≡ place_of self.now };

    /// How many bytes the last write had that was Ok, 0 if there was none.
    fn len(&self) -> u32
        ensures { result ≡ len_of self.now };

    /// Puts the bytes in the place of what the slot holds. A write that fails leaves any content.
    fn write(&mut self, bytes: &[u8]) -> Result<(), Fault>
        requires { length bytes.now ≤ 262144 }

        // What the slot holds then.
        ensures written { OnOk result (Holds (content self.new) bytes.now) }
        ensures told { OnOk result (StaysTold (content self.old) (content self.new)) }
        ensures len { OnOk result (len_of self.new ≡ length bytes.now) }
        ensures kept { OnErr result (len_of self.new ≡ len_of self.old) }

        // What stays as it was.
        ensures place { place_of self.new ≡ place_of self.old }
        ensures reads { reads self.new ≡ reads self.old }
        ensures steady { is_steady self.old → is_steady self.new }

        ensures faults { HasCause result (faults self.old) (faults self.new) }
        ensures no_memory { IsErrOf result Fault.NoMemory
            → (content self.new ≡ content self.old) × (faults self.new ≡ faults self.old) }
        ensures never_falls { faults self.old ≤ faults self.new };

    /// Fills `buf`, which is as long as the content, with the content.
    fn read(&mut self, buf: &mut [u8]) -> Result<(), Failed>
        requires { length buf.old ≡ len_of self.old }

        ensures ok { OnOk result (Holds (content self.old) buf.new) }
        ensures reads { CountsOk result (reads self.old) (reads self.new) }

        // What stays as it was.
        ensures content { content self.new ≡ content self.old }
        ensures len { len_of self.new ≡ len_of self.old }
        ensures place { place_of self.new ≡ place_of self.old }

        ensures steady { is_steady self.old → IsOk result }
        ensures stays_steady { is_steady self.old → is_steady self.new }
        ensures faults { OnErr result (HasRisen (faults self.old) (faults self.new)) }
        ensures never_falls { faults self.old ≤ faults self.new };
}

/// A slot whose type is steady: each read of each such slot is Ok.
pub trait Steady: Slot {
    ghost always: { (slot : Self) → Self.is_steady slot };
}
