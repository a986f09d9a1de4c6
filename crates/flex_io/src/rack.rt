//! What slots are taken from and put back to.

ghost use Rattle.std.specs.Prelude.{◌≡◌, ℕ, List, [], Option, IsSome, ◌≤◌, IfOk, OnOk, OnErr};
ghost use Rattle.std.specs.Result.{IsErrOf};
ghost use Rattle.flex_io.specs.declared.rack.Returned.{Returned};
ghost use Rattle.flex_io.specs.Faults.{HasCause};
ghost use Rattle.flex_io.specs.Slots.{Holds, CountsOk};
ghost use Rattle.flex_io.specs.Racks.{place_on, TakesBack};

use crate::{Fault, RawPlace, Slot};
use lists::List;

/// A slot that came back: where it is, and the bytes that it holds.
#[derive(Drop)]
pub struct Returned {
    pub place: RawPlace,
    pub bytes: List<u8>,
}

/// A rack of drives, from which slots are taken and to which they come back. A rack that tells what
/// came back goes on to tell it, and then every slot of its type tells its content.
pub trait Rack {
    type Piece: Slot + Send + Drop;

    /// What came back, in order, where the rack tells it.
    ghost back: { Self → Option (List Returned) };

    /// How many slots the rack gave, and how many came back, each modulo 2^64.
    ghost takes: { Self → ℕ };

    ghost puts: { Self → ℕ };

    /// How often the rack has failed. The number never falls.
    ghost faults: { Self → ℕ };

    /// Gives the slot of this number, counted from 0, on the drive (node, drive), counted from 1.
    /// It was never written.
    fn take(&mut self, drive: (u8, u8), slot: u16) -> Result<Self::Piece, Fault>
        ensures place { IfOk result (λ piece. Self.Piece.place_of piece ≡ place_on drive slot) }
        ensures fresh { IfOk result (λ piece. Holds (Self.Piece.content piece) []) }
        ensures len { IfOk result (λ piece. Self.Piece.len_of piece ≡ 0) }
        ensures back { back self.new ≡ back self.old }
        ensures takes { CountsOk result (takes self.old) (takes self.new) }
        ensures puts { puts self.new ≡ puts self.old }
        ensures faults { HasCause result (faults self.old) (faults self.new) }
        ensures no_memory { IsErrOf result Fault.NoMemory → faults self.new ≡ faults self.old }
        ensures never_falls { faults self.old ≤ faults self.new };

    /// Takes a slot back. At an `Err` the slot is gone: it is neither handed back nor kept.
    fn put(&mut self, piece: Self::Piece) -> Result<(), Fault>
        ensures ok { OnOk result (TakesBack (back self.old) (back self.new)
            (Self.Piece.place_of piece) (Self.Piece.content piece)) }
        ensures kept { OnErr result (back self.new ≡ back self.old) }
        ensures takes { takes self.new ≡ takes self.old }
        ensures puts { CountsOk result (puts self.old) (puts self.new) }
        ensures faults { HasCause result (faults self.old) (faults self.new) }
        ensures no_memory { IsErrOf result Fault.NoMemory → faults self.new ≡ faults self.old }
        ensures never_falls { faults self.old ≤ faults self.new };

    // A slot that has passed through other hands tells its content as well.
    ghost tells: { (rack : Self) → IsSome (back rack) → (piece : Self.Piece) → IsSome (Self.Piece.content piece) };
}
