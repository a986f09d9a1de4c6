//! A yard as the state of a turn cell: it keeps no notes, and a tally for each seat.

use crate::yard::Yard;
use domains::Shape;
use flex_io::Slot;
use turn_cell::Chronicle;

impl<S: Slot + Send + Drop> Chronicle for Yard<S> {
    ghost use Rattle.std.specs.Prelude.{◌+◌, [], refl};
    ghost use Rattle.slot_yard.specs.Tallies.{numbers_of, tally_at};

    type Entry = ();

    /// What no turn of a yard changes: the shape of its cluster.
    type Fixed = Shape;

    ghost turns_of = { λ y. y.turns };

    ghost seat_of = { λ y. y.seat };

    ghost notes_of = { λ y. [] };

    ghost tally_of = { λ y number. numbers_of (tally_at y.tallies number) };

    ghost fixed_of = { λ y. y.shape };

    ghost begun = { λ y seat. record y { seat = seat } };

    ghost passed = { λ y. record y { turns = y.turns + 1 } };

    ghost begun_turns = { λ y seat. refl };

    ghost begun_seat = { λ y seat. refl };

    ghost begun_notes = { λ y seat. refl };

    ghost begun_tally = { λ y seat number. refl };

    ghost begun_fixed = { λ y seat. refl };

    ghost passed_turns = { λ y. refl };

    ghost passed_seat = { λ y. refl };

    ghost passed_notes = { λ y. refl };

    ghost passed_tally = { λ y number. refl };

    ghost passed_fixed = { λ y. refl };

    fn turns(&self) -> u64 {
        self.turns
    }

    fn begin(&mut self, seat: u8) {
        self.seat = seat;
    }

    fn pass(&mut self) {
        self.turns += 1;
    }
}
