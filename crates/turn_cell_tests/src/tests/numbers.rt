//! A list of numbers that threads write in turns.

ghost use Rattle.std.specs.Prelude.{◌≡◌, ◌≢◌, ℕ, ◌+◌, ◌%◌, ◌^◌, ◌<◌, [], ◌∷◌, ◌++◌, OnErr, OnOk, slice_index};

use std::alloc::{AllocError, Global};
use turn_cell::{Chronicle, Note};

/// Numbers with their notes, and how many numbers each seat has written.
#[derive(Drop)]
pub struct Numbers {
    pub turns: u64,
    pub seat: u8,
    pub notes: Vec<Note<u32>>,
    pub written: [u64; 32],
}

impl Chronicle for Numbers {
    ghost use Rattle.std.specs.Prelude.{refl};

    type Entry = u32;

    type Fixed = ();

    ghost turns_of = { λ s. s.turns };

    ghost seat_of = { λ s. s.seat };

    ghost notes_of = { λ s. s.notes.items };

    ghost tally_of = { λ s number. slice_index s.written number ∷ [] };

    ghost fixed_of = { λ s. tt };

    ghost begun = { λ s seat. record s { seat = seat } };

    ghost passed = { λ s. record s { turns = s.turns + 1 } };

    ghost begun_turns = { λ s seat. refl };

    ghost begun_seat = { λ s seat. refl };

    ghost begun_notes = { λ s seat. refl };

    ghost begun_tally = { λ s seat number. refl };

    ghost begun_fixed = { λ s seat. refl };

    ghost passed_turns = { λ s. refl };

    ghost passed_seat = { λ s. refl };

    ghost passed_notes = { λ s. refl };

    ghost passed_tally = { λ s number. refl };

    ghost passed_fixed = { λ s. refl };

    fn turns(&self) -> u64 {
        self.turns
    }

    fn begin(&mut self, seat: u8) {
        self.seat = seat;
    }

    fn pass(&mut self) {
        self.turns += 1;
    }
}

impl Numbers {
    pub fn new(alloc: Global) -> Numbers
        ensures turns { result.turns ≡ 0 }
        ensures notes { result.notes.items ≡ [] }
        ensures written { (k : ℕ) → slice_index result.written k ≡ 0 }
    {
        Numbers {
            turns: 0,
            seat: 0,
            notes: Vec::new(alloc),
            written: [0; 32],
        }
    }

    /// Writes a number.
    pub fn write(&mut self, number: u32) -> Result<(), AllocError>
        requires { self.old.seat < 32 }
        ensures turn { (self.new.turns ≡ self.old.turns) × (self.new.seat ≡ self.old.seat) }
        ensures ok { OnOk result (self.new.notes.items ≡ self.old.notes.items ++ record { turn = self.old.turns; seat = self.old.seat; entry = number } ∷ []) }
        ensures tally { OnOk result (slice_index self.new.written self.old.seat ≡ (slice_index self.old.written self.old.seat + 1) % 2 ^ 64) }
        ensures others { (k : ℕ) → k ≢ self.old.seat → slice_index self.new.written k ≡ slice_index self.old.written k }
        ensures kept { OnErr result ((self.new.notes.items ≡ self.old.notes.items) × (self.new.written ≡ self.old.written)) }
    {
        self.notes.reserve(1)?;
        self.notes.push_reserved(Note {
            turn: self.turns,
            seat: self.seat,
            entry: number,
        });
        let seat = usize::from(self.seat);
        self.written[seat] = self.written[seat].wrapping_add(1);
        Ok(())
    }
}
