//! A file as the state of a turn cell: its notes are its entries, with their views and payloads.

use crate::noted::Noted;
use crate::state::FileState;
use domains::{Level, Shape};
use flex_io::Slot;
use turn_cell::Chronicle;

/// What no turn changes of a file: its number, the cluster, the declared level, and how many entries the log may have.
#[derive(Clone, Copy, Debug, PartialEq, Eq)]
pub struct FileTerms {
    pub file: u16,
    pub shape: Shape,
    pub level: Level,
    pub room: u32,
}

impl<S: Slot + Send + Drop> Chronicle for FileState<S> {
    ghost use Rattle.std.specs.Prelude.{◌+◌, [], refl};

    type Entry = Noted;

    type Fixed = FileTerms;

    ghost turns_of = { λ f. f.turns };

    ghost seat_of = { λ f. f.seat };

    ghost notes_of = { λ f. f.notes };

    ghost tally_of = { λ f number. [] };

    ghost fixed_of = { λ f. record { file = f.file; shape = f.shape; level = f.level; room = f.room } };

    ghost begun = { λ f seat. record f { seat = seat } };

    ghost passed = { λ f. record f { turns = f.turns + 1 } };

    ghost begun_turns = { λ f seat. refl };

    ghost begun_seat = { λ f seat. refl };

    ghost begun_notes = { λ f seat. refl };

    ghost begun_tally = { λ f seat number. refl };

    ghost begun_fixed = { λ f seat. refl };

    ghost passed_turns = { λ f. refl };

    ghost passed_seat = { λ f. refl };

    ghost passed_notes = { λ f. refl };

    ghost passed_tally = { λ f number. refl };

    ghost passed_fixed = { λ f. refl };

    fn turns(&self) -> u64 {
        self.turns
    }

    fn begin(&mut self, seat: u8) {
        self.seat = seat;
    }

    fn pass(&mut self) {
        self.turns += 1;
    }
}
