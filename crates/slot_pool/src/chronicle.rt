//! A pool as the state of a turn cell: it keeps no notes, and a tally for each seat.

use crate::pool::Pool;
use domains::DriveId;
use flex_io::Slot;
use turn_cell::Chronicle;

/// What no turn of a pool changes: its drive, and how many slots the drive has.
#[derive(Clone, Copy, Debug, PartialEq, Eq)]
pub struct DriveSlots {
    pub drive: DriveId,
    pub slots: u16,
}

impl<S: Slot + Send + Drop> Chronicle for Pool<S> {
    ghost use Rattle.std.specs.Prelude.{◌+◌, [], refl};
    ghost use Rattle.slot_pool.specs.Tallies.{numbers_of, tally_at};

    type Entry = ();

    type Fixed = DriveSlots;

    ghost turns_of = { λ p. p.turns };

    ghost seat_of = { λ p. p.seat };

    ghost notes_of = { λ p. [] };

    ghost tally_of = { λ p number. numbers_of (tally_at p.tallies number) };

    ghost fixed_of = { λ p. record { drive = p.drive; slots = p.slots } };

    ghost begun = { λ p seat. record p { seat = seat } };

    ghost passed = { λ p. record p { turns = p.turns + 1 } };

    ghost begun_turns = { λ p seat. refl };

    ghost begun_seat = { λ p seat. refl };

    ghost begun_notes = { λ p seat. refl };

    ghost begun_tally = { λ p seat number. refl };

    ghost begun_fixed = { λ p seat. refl };

    ghost passed_turns = { λ p. refl };

    ghost passed_seat = { λ p. refl };

    ghost passed_notes = { λ p. refl };

    ghost passed_tally = { λ p number. refl };

    ghost passed_fixed = { λ p. refl };

    fn turns(&self) -> u64 {
        self.turns
    }

    fn begin(&mut self, seat: u8) {
        self.seat = seat;
    }

    fn pass(&mut self) {
        self.turns += 1;
    }
}
