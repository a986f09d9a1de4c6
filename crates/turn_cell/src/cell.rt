//! A cell, and the ways into a turn.

ghost use Rattle.std.specs.Prelude.{◌≡◌, ◌≤◌};

use crate::chronicle::Chronicle;
use crate::seat::Seat;
use crate::steps::SERVING;
use crate::turn::Turn;
use crate::view::{InTurns, Look, Origin, View};
use atomic_table::Table;
use std::alloc::Global;
use std::sync::Wait;

/// One value, which the seats of the cell change in turns. Turns are served in the order in which they are asked for.
#[derive(Drop)]
pub struct TurnCell<S: Chronicle> {
    pub(crate) table: Table<Option<S>, View<S>, Origin<S>, InTurns<S>, Global>,
    ghost two_words: { table.shared.table_id.words ≡ 2 },
    ghost one_slot: { table.shared.table_id.slots ≡ 1 },
    ghost some_seats: { 1 ≤ table.shared.key.seats },
}

impl<S: Chronicle> TurnCell<S> {
    ghost use Rattle.std.specs.Prelude.{true};
    ghost use Rattle.turn_cell.specs.Seats.{Enters, InTurn, IsIdleOf, cell_view, seat_view, seeing, state_of, taken, turn_seat};

    /// Waits for the seat's turn and begins it. The turn must end with `Turn::leave`; code that drops it does not compile.
    pub fn enter<'a, R: Wait>(&'a self, rt: &R, seat: &'a mut Seat<S>) -> Turn<'a, S>
        requires own { (seat_view seat.old).cell ≡ cell_view self.now }
        requires idle { (seat_view seat.old).idle ≡ true }
        ensures same { result.seat.ghost_name ≡ seat.entry.ghost_name }
        ensures entered { Enters S.turns_of S.notes_of S.tally_of S.fixed_of S.begun (seat_view seat.old) (turn_seat result) (taken result) (state_of result) }
        ensures turn { InTurn S.turns_of S.notes_of S.tally_of S.fixed_of result }
    {
        let (ticket, mut state) = seat.fetch(rt, self);
        state.begin(seat.number);
        Turn {
            cell: self,
            seat,
            ticket,
            state,
        }
    }

    /// How many turns have passed. Does not wait.
    pub fn turns_done(&self, seat: &mut Seat<S>) -> u64
        requires own { (seat_view seat.old).cell ≡ cell_view self.now }
        requires idle { (seat_view seat.old).idle ≡ true }
        ensures value { (seat_view seat.old).turns ≤ result }
        ensures seen { seat_view seat.new ≡ seeing (seat_view seat.old) result }
    {
        self.table.shared.load::<Look>(&mut seat.token, SERVING)
    }
}
