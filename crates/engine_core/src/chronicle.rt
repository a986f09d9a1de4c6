//! An engine as the state of a turn cell: its notes are the entries, and it counts for each seat what the seat has begun.

use crate::engine::Engine;
use domains::Shape;
use engine_history::EngineEntry;
use turn_cell::Chronicle;

impl Chronicle for Engine {
    ghost use Rattle.std.specs.Prelude.{◌+◌, refl};
    ghost use Rattle.engine_core.specs.BegunItems.{tally_of};

    type Entry = EngineEntry;

    /// The cluster, how many files there are, and how many entries the log may have.
    type Fixed = (Shape, u16, u32);

    ghost turns_of = { λ e. e.log.turns };

    ghost seat_of = { λ e. e.log.seat };

    ghost notes_of = { λ e. e.log.notes };

    ghost tally_of = { λ e seat. tally_of e.begun seat };

    ghost fixed_of = { λ e. (e.log.field.shape, e.log.field.files, e.log.room) };

    ghost begun = { λ e seat. record e { log = record e.log { seat = seat } } };

    ghost passed = { λ e. record e { log = record e.log { turns = e.log.turns + 1 } } };

    ghost begun_turns = { λ e seat. refl };

    ghost begun_seat = { λ e seat. refl };

    ghost begun_notes = { λ e seat. refl };

    ghost begun_tally = { λ e seat number. refl };

    ghost begun_fixed = { λ e seat. refl };

    ghost passed_turns = { λ e. refl };

    ghost passed_seat = { λ e. refl };

    ghost passed_notes = { λ e. refl };

    ghost passed_tally = { λ e number. refl };

    ghost passed_fixed = { λ e. refl };

    fn turns(&self) -> u64 {
        self.log.turns()
    }

    fn begin(&mut self, seat: u8) {
        self.log.begin(seat);
    }

    fn pass(&mut self) {
        self.log.pass();
    }
}
