//! The state that a cell holds: it counts its turns and keeps a history.

ghost use Rattle.std.specs.Prelude.{◌≡◌, ℕ, ◌+◌, ◌-◌, ◌^◌, ◌<◌, List};

/// An entry of a history, with the seat that made it and the number of turns that had passed before its turn.
#[derive(Clone, Copy, Debug, PartialEq, Eq)]
pub struct Note<E> {
    pub turn: u64,
    pub seat: u8,
    pub entry: E,
}

/// A state that counts its turns, keeps notes of them, and tallies what each seat did.
///
/// The laws say that `begin` changes nothing but the seat, and that `pass` adds one to the turns and changes nothing else.
pub trait Chronicle {
    ghost use Rattle.turn_cell.specs.declared.chronicle.Note.{Note};

    /// What a note says.
    type Entry;

    /// What no turn changes.
    type Fixed;

    /// How many turns have passed.
    ghost turns_of: { Self → ℕ };

    /// The seat whose turn it is.
    ghost seat_of: { Self → ℕ };

    /// The history: the notes of every turn, in order.
    ghost notes_of: { Self → List (Note Self.Entry) };

    /// What the state counts for the seat with this number.
    ghost tally_of: { Self → ℕ → List ℕ };

    /// The fixed part.
    ghost fixed_of: { Self → Self.Fixed };

    /// The state after `begin`.
    ghost begun: { Self → ℕ → Self };

    /// The state after `pass`.
    ghost passed: { Self → Self };

    /// How many turns have passed.
    fn turns(&self) -> u64
        ensures { result ≡ turns_of self.now };

    /// Begins a turn of the seat with this number.
    fn begin(&mut self, seat: u8)
        requires { seat < 32 }
        ensures { self.new ≡ begun self.old seat };

    /// Ends the turn.
    fn pass(&mut self)
        requires { turns_of self.old < 2 ^ 64 - 1 }
        ensures { self.new ≡ passed self.old };

    ghost begun_turns: { (state : Self) (seat : ℕ) → turns_of (begun state seat) ≡ turns_of state };

    ghost begun_seat: { (state : Self) (seat : ℕ) → seat_of (begun state seat) ≡ seat };

    ghost begun_notes: { (state : Self) (seat : ℕ) → notes_of (begun state seat) ≡ notes_of state };

    ghost begun_tally: { (state : Self) (seat number : ℕ) → tally_of (begun state seat) number ≡ tally_of state number };

    ghost begun_fixed: { (state : Self) (seat : ℕ) → fixed_of (begun state seat) ≡ fixed_of state };

    ghost passed_turns: { (state : Self) → turns_of (passed state) ≡ turns_of state + 1 };

    ghost passed_seat: { (state : Self) → seat_of (passed state) ≡ seat_of state };

    ghost passed_notes: { (state : Self) → notes_of (passed state) ≡ notes_of state };

    ghost passed_tally: { (state : Self) (number : ℕ) → tally_of (passed state) number ≡ tally_of state number };

    ghost passed_fixed: { (state : Self) → fixed_of (passed state) ≡ fixed_of state };
}
