//! A new cell and its seats.

ghost use Rattle.std.specs.Prelude.{◌≡◌, ◌≤◌, ◌<◌, ◌+◌, ◌-◌, [], ◌∷◌, length, Some, IfOk, IfErr, vec_len, vec_capacity};
ghost use Rattle.turn_cell.specs.Histories.{IsFresh};
ghost use Rattle.turn_cell.specs.CellRule.{dealing};
ghost use Rattle.turn_cell.specs.Seats.{AreNewFrom, AreNewSeats, IsDealer, IsOwn, cell_view, first_state, new_seat, seat_view};

use crate::cell::TurnCell;
use crate::chronicle::Chronicle;
use crate::seat::Seat;
use crate::view::{Deal, Origin};
use atomic_table::{Refused, Table};
use std::alloc::{AllocError, Global};
use std::snapshot::Snapshot;

/// The state, out of a table that got no memory.
fn refused_state<S>(refused: Refused<Option<S>, Global>) -> S
    requires { (state : S) × (refused.slots.items ≡ Some state ∷ []) }
    ensures { refused.slots.items ≡ Some result ∷ [] }
{
    let Refused { mut slots } = refused;
    let slot = slots.pop();
    slots.destroy_empty();
    slot.unwrap().unwrap()
}

impl<S: Chronicle> TurnCell<S> {
    /// Makes a cell of the state and its `seats` seats, 1 to 32, numbered from 0 in their order. An error hands the state back.
    pub fn new(
        alloc: Global,
        state: S,
        seats: u8,
    ) -> Result<(TurnCell<S>, Vec<Seat<S>>), (AllocError, S)>
        requires some { 1 ≤ seats }
        requires few { seats ≤ 32 }
        requires fresh { IsFresh S.turns_of S.notes_of S.tally_of state }
        ensures ok { IfOk result (λ made. ((cell_view made.0).seats ≡ seats) × AreNewSeats (cell_view made.0) state made.1.items) }
        ensures kept { IfErr result (λ refused. refused.1 ≡ state) }
    {
        let Ok(room) = Vec::with_capacity(alloc, usize::from(seats)) else {
            return Err((AllocError, state));
        };
        match TurnCell::open(alloc, state, seats) {
            Ok((cell, first)) => {
                let all = cell.deal_all(first, seats, room);
                Ok((cell, all))
            }
            Err(state) => Err((AllocError, state)),
        }
    }

    /// Makes a cell of the state and its seat 0.
    fn open(alloc: Global, state: S, seats: u8) -> Result<(TurnCell<S>, Seat<S>), S>
        requires some { 1 ≤ seats }
        requires few { seats ≤ 32 }
        requires fresh { IsFresh S.turns_of S.notes_of S.tally_of state }
        ensures ok { IfOk result (λ made. ((cell_view made.0).seats ≡ seats) × (first_state made.0 ≡ state) × IsOwn made.0 made.1 × IsDealer made.0 made.1 1) }
        ensures kept { IfErr result (λ refused. refused ≡ state) }
    {
        let Ok(mut slots) = Vec::with_capacity(alloc, 1) else {
            return Err(state);
        };
        let origin = Origin {
            seats,
            state: Snapshot::of(&state),
        };
        slots.push_reserved(Some(state));
        match Table::new(alloc, &[0, 0], slots, &origin) {
            Ok((table, token)) => Ok((TurnCell { table }, Seat { number: 0, token })),
            Err(refused) => Err(refused_state(refused)),
        }
    }

    /// Makes the seat with the next number.
    fn deal(&self, first: &mut Seat<S>, number: u8) -> Seat<S>
        requires own { IsOwn self.now first.old }
        requires dealer { IsDealer self.now first.old number }
        requires room { number < (cell_view self.now).seats }
        requires few { number < 32 }
        ensures own { IsOwn self.now first.new }
        ensures dealer { IsDealer self.now first.new (number + 1) }
        ensures dealt { seat_view result ≡ new_seat (cell_view self.now) (first_state self.now) number }
    {
        let token = self.table.shared.split_seat::<Deal>(&mut first.token);
        Seat { number, token }
    }

    /// Makes the other seats and returns all, in the buffer that was reserved for them.
    fn deal_all(&self, mut first: Seat<S>, seats: u8, mut room: Vec<Seat<S>>) -> Vec<Seat<S>>
        requires count { seats ≡ (cell_view self.now).seats }
        requires own { IsOwn self.now first }
        requires dealer { IsDealer self.now first 1 }
        requires some { 1 ≤ seats }
        requires few { seats ≤ 32 }
        requires room { (room.items ≡ []) × (vec_capacity room ≡ seats) }
        ensures { AreNewSeats (cell_view self.now) (first_state self.now) result.items }
    {
        for number in 1..seats {
            let next = self.deal(&mut first, number);
            room.push_reserved(next);
        }
        let inserted = room.insert(0, first);
        let Ok(()) = inserted else { unreachable!() };
        room
    }
}
