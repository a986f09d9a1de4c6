//! At any state that may cross threads, threads may share a cell, and a seat may go to a thread and come back.

ghost use Rattle.std.specs.Prelude.{◌≡◌};
ghost use Rattle.turn_cell.specs.Seats.{seat_view};

use std::thread::{Threads, join};
use turn_cell::{Chronicle, Seat, TurnCell};

fn is_sync<T: Sync>(_: &T) {}

/// Threads may share a cell: this compiles.
pub fn share<S: Chronicle + Send>(cell: &TurnCell<S>) {
    is_sync(cell);
}

/// Two seats go to a thread each.
pub fn send<S: Send, R: Threads>(rt: &R, zero: Seat<S>, one: Seat<S>) -> (Seat<S>, Seat<S>)
    ensures zero { seat_view result.0 ≡ seat_view zero }
    ensures one { seat_view result.1 ≡ seat_view one }
{
    join(
        rt,
        move || -> Seat<S>
            ensures { seat_view result ≡ seat_view zero }
        { zero },
        move || -> Seat<S>
            ensures { seat_view result ≡ seat_view one }
        { one },
    )
}
