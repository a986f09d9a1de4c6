//! The steps of a seat: it draws a ticket, waits until the ticket is served, takes the value, and puts it back.

ghost use Rattle.std.specs.Prelude.{◌≡◌, ◌+◌, ◌<◌, ◌^◌, [], ◌∷◌};
ghost use Rattle.turn_cell.specs.declared.view.Hold.TheVariants.{Waits};
ghost use Rattle.turn_cell.specs.declared.view.View.TheVariants.{Active};
ghost use Rattle.turn_cell.specs.Histories.{Leaves};
ghost use Rattle.turn_cell.specs.Seats.{HasTurn, IsOwn, IsIdle, IsSame, IsWaiting, Takes, known, found_of};
ghost use Rattle.turn_cell.specs.Views.{with_hold, after_turn};

use crate::backoff::Backoff;
use crate::cell::TurnCell;
use crate::chronicle::Chronicle;
use crate::seat::Seat;
use crate::view::{Advance, Draw, Take};
use std::sync::Wait;
use std::thread;

/// The word with the next ticket to draw.
pub(crate) const TICKET: usize = 0;

/// The word with the ticket that is served, which is the number of turns that have passed.
pub(crate) const SERVING: usize = 1;

/// The slot with the value.
pub(crate) const VALUE: usize = 0;

impl<S: Chronicle> Seat<S> {
    /// Draws a ticket. Once the last ticket of a word is reached, after 2^64 - 1 turns, it waits forever.
    fn draw<R: Wait>(&mut self, rt: &R, cell: &TurnCell<S>) -> u64
        requires own { IsOwn cell.now self.old }
        requires idle { IsIdle self.old }
        ensures same { IsSame self.old self.new }
        ensures drawn { self.new.token.me ≡ (Active (with_hold (known self.old) (Waits result)), []) }
        ensures room { result + 1 < 2 ^ 64 }
    {
        for _ in rt.forever() {
            let ticket = cell.table.shared.peek(TICKET);
            if ticket < u64::MAX {
                let found = cell
                    .table
                    .shared
                    .compare_exchange::<Draw>(&mut self.token, TICKET, ticket, ticket + 1);
                if found == ticket {
                    return ticket;
                }
            } else {
                thread::yield_now();
            }
        }
        unreachable!()
    }

    /// Waits until the seat's ticket is served and takes the value.
    fn take<R: Wait>(&mut self, rt: &R, cell: &TurnCell<S>, ticket: u64) -> S
        requires own { IsOwn cell.now self.old }
        requires drawn { IsWaiting self.old ticket }
        ensures same { IsSame self.old self.new }
        ensures taken { Takes S.turns_of S.notes_of S.tally_of S.fixed_of (known self.old) ticket result self.new }
    {
        let mut backoff = Backoff::new();
        for _ in rt.forever() {
            let served = cell.table.shared.load::<Take>(&mut self.token, SERVING);
            if served == ticket {
                let value = cell.table.shared.exchange(&mut self.token, VALUE, None);
                return value.unwrap();
            }
            backoff.wait(ticket.saturating_sub(served));
        }
        unreachable!()
    }

    /// Waits for the seat's turn: returns its ticket and the value.
    pub(crate) fn fetch<R: Wait>(&mut self, rt: &R, cell: &TurnCell<S>) -> (u64, S)
        requires own { IsOwn cell.now self.old }
        requires idle { IsIdle self.old }
        ensures same { IsSame self.old self.new }
        ensures taken { Takes S.turns_of S.notes_of S.tally_of S.fixed_of (known self.old) result.0 result.1 self.new }
        ensures room { result.0 + 1 < 2 ^ 64 }
    {
        let ticket = self.draw(rt, cell);
        let state = self.take(rt, cell, ticket);
        (ticket, state)
    }

    /// Puts the value back and serves the next ticket.
    pub(crate) fn put_back(&mut self, cell: &TurnCell<S>, ticket: u64, state: S)
        requires turn { HasTurn S.turns_of S.notes_of S.tally_of S.fixed_of cell.now self.old ticket }
        requires leaves { Leaves S.turns_of S.notes_of S.tally_of S.fixed_of (known self.old).number (found_of self.old) state }
        ensures same { IsSame self.old self.new }
        ensures left { self.new.token.me ≡ (Active (after_turn (known self.old) ticket state), []) }
    {
        let shared = &cell.table.shared;
        let hole = shared.exchange(&mut self.token, VALUE, Some(state));
        let None = hole else { unreachable!() };
        shared.store::<Advance>(&mut self.token, SERVING, ticket + 1);
    }
}
