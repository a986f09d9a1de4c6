//! The state in a turn. The clause of `state` names the row of `Turn`, which the file that declares `Turn` cannot import.
ghost use Rattle.std.specs.Prelude.{◌≡◌, []};
ghost use Rattle.std.specs.Borrow.{Lends};
ghost use mir.Syntax.{named};
ghost use types.Logic.{sem};
ghost use Rattle.turn_cell.specs.Seats.{state_of, with_state};
ghost use Rattle.turn_cell.specs.contracts.turn.Turn.{the_row};

use crate::chronicle::Chronicle;
use crate::turn::Turn;

impl<'a, S: Chronicle> Turn<'a, S> {
    /// The state, which this turn may change. `leave` says what a change must keep (`Changed`).
    pub fn state(&mut self) -> &mut S
        ensures* lends { sem 𝓛 (Lends (the_row (record { mir = named 1; lft = [] }) S.row S.Entry.row S.Fixed.row S.Chronicle) S.row self.entry result (with_state self.old)) }
        ensures value { result.now ≡ state_of self.old }
    {
        &mut self.state
    }
}
