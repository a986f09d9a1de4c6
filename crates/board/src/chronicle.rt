//! A board as the state of a turn cell: its notes are the entries.

use crate::board::Board;
use board_history::BoardEntry;
use domains::Shape;
use turn_cell::Chronicle;

impl Chronicle for Board {
    ghost use Rattle.std.specs.Prelude.{◌+◌, [], refl};

    type Entry = BoardEntry;

    /// The cluster, and how many entries the log may have.
    type Fixed = (Shape, u32);

    ghost turns_of = { λ b. b.turns };

    ghost seat_of = { λ b. b.seat };

    ghost notes_of = { λ b. b.notes };

    ghost tally_of = { λ b number. [] };

    ghost fixed_of = { λ b. (b.shape, b.room) };

    ghost begun = { λ b seat. record b { seat = seat } };

    ghost passed = { λ b. record b { turns = b.turns + 1 } };

    ghost begun_turns = { λ b seat. refl };

    ghost begun_seat = { λ b seat. refl };

    ghost begun_notes = { λ b seat. refl };

    ghost begun_tally = { λ b seat number. refl };

    ghost begun_fixed = { λ b seat. refl };

    ghost passed_turns = { λ b. refl };

    ghost passed_seat = { λ b. refl };

    ghost passed_notes = { λ b. refl };

    ghost passed_tally = { λ b number. refl };

    ghost passed_fixed = { λ b. refl };

    fn turns(&self) -> u64 {
        self.turns
    }

    fn begin(&mut self, seat: u8) {
        self.seat = seat;
    }

    fn pass(&mut self) {
        self.turns += 1;
    }
}
