//! A turn of a seat, and its end.

use crate::cell::TurnCell;
use crate::chronicle::Chronicle;
use crate::seat::Seat;

/// The turn of a seat, with the state of its cell. Only `leave` ends it.
pub struct Turn<'a, S: Chronicle> {
    pub(crate) cell: &'a TurnCell<S>,
    pub(crate) seat: &'a mut Seat<S>,
    pub(crate) ticket: u64,
    pub(crate) state: S,
}

impl<'a, S: Chronicle> Turn<'a, S> {
    ghost use Rattle.std.specs.Prelude.{◌≡◌, ◌+◌};
    ghost use Rattle.turn_cell.specs.Histories.{Changed};
    ghost use Rattle.turn_cell.specs.Seats.{InTurn, Grows, seat_view, left, state_of, taken, turn_seat};

    /// Passes the turn and puts the state back, which becomes the seat's `last`.
    pub fn leave(self)
        requires turn { InTurn S.turns_of S.notes_of S.tally_of S.fixed_of self }
        requires changed { Changed S.turns_of S.notes_of S.tally_of S.fixed_of (turn_seat self).number (taken self) (state_of self) }
        ensures left { seat_view self.exit.1.0.now ≡ left (turn_seat self.entry) (S.turns_of (taken self.entry) + 1) (S.passed (state_of self.entry)) }
        ensures grows { Grows S.turns_of S.notes_of S.tally_of S.fixed_of (turn_seat self.entry).number (turn_seat self.entry).last (taken self.entry) (S.passed (state_of self.entry)) }
    {
        let Turn {
            cell,
            seat,
            ticket,
            mut state,
        } = self;
        state.pass();
        seat.put_back(cell, ticket, state);
    }
}
