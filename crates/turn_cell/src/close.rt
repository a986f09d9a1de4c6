//! The end of a cell.

ghost use Rattle.std.specs.Prelude.{◌≡◌, []};
ghost use Rattle.turn_cell.specs.CellRule.{taken_in};
ghost use Rattle.turn_cell.specs.Seats.{AreSeatsOf, Closes, IsIdle, IsOwn, IsSame, cell_view};

use crate::cell::TurnCell;
use crate::chronicle::Chronicle;
use crate::seat::Seat;
use crate::steps::VALUE;
use crate::view::TakeIn;

impl<S: Chronicle> TurnCell<S> {
    /// Returns the state. Takes all seats of the cell, in the order of their numbers and in no turn.
    pub fn close(self, mut seats: Vec<Seat<S>>) -> S
        requires seats { AreSeatsOf (cell_view self) seats.items }
        ensures { Closes S.turns_of S.notes_of S.tally_of S.fixed_of seats.items result }
    {
        let mut first = seats.remove(0);
        while let Some(seat) = seats.pop() {
            self.take_in(&mut first, seat);
        }
        let TurnCell { table } = self;
        let mut closed = table.close_with(first.into_token());
        let slot = closed.take(VALUE);
        closed.free();
        slot.unwrap()
    }

    /// Seat 0 takes in another seat.
    fn take_in(&self, first: &mut Seat<S>, seat: Seat<S>)
        requires own { IsOwn self.now first.old × IsOwn self.now seat }
        requires idle { IsIdle first.old × IsIdle seat }
        ensures same { IsSame first.old first.new }
        ensures taken { first.new.token.me ≡ (taken_in first.old.token.me.0 seat.token.me.0, []) }
    {
        self.table
            .shared
            .join_seat::<TakeIn>(&mut first.token, seat.into_token());
    }
}
