//! A number to which turns add.

use turn_cell::Chronicle;

/// How many turns were made, as the turns themselves count them.
#[derive(Drop)]
pub struct Count {
    pub turns: u64,
    pub seat: u8,
    pub sum: u64,
}

impl Count {
    /// Before the first turn.
    pub const ZERO: Count = Count {
        turns: 0,
        seat: 0,
        sum: 0,
    };
}

impl Chronicle for Count {
    ghost use Rattle.std.specs.Prelude.{◌+◌, [], refl};

    type Entry = ();

    type Fixed = ();

    ghost turns_of = { λ c. c.turns };

    ghost seat_of = { λ c. c.seat };

    ghost notes_of = { λ c. [] };

    ghost tally_of = { λ c number. [] };

    ghost fixed_of = { λ c. tt };

    ghost begun = { λ c seat. record c { seat = seat } };

    ghost passed = { λ c. record c { turns = c.turns + 1 } };

    ghost begun_turns = { λ c seat. refl };

    ghost begun_seat = { λ c seat. refl };

    ghost begun_notes = { λ c seat. refl };

    ghost begun_tally = { λ c seat number. refl };

    ghost begun_fixed = { λ c seat. refl };

    ghost passed_turns = { λ c. refl };

    ghost passed_seat = { λ c. refl };

    ghost passed_notes = { λ c. refl };

    ghost passed_tally = { λ c number. refl };

    ghost passed_fixed = { λ c. refl };

    fn turns(&self) -> u64 {
        self.turns
    }

    fn begin(&mut self, seat: u8) {
        self.seat = seat;
    }

    fn pass(&mut self) {
        self.turns += 1;
    }
}
