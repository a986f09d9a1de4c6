//! What a state counts for each seat.

ghost use Rattle.std.specs.Prelude.{◌≡◌, ◌<◌, length, slice_index_or, slice_set};
ghost use Rattle.std.specs.Borrow.{Lends, sem};
ghost use Rattle.turn_cell.specs.contracts.seat_tallies.SeatTallies.{the_row};

use std::marker::Model;

/// A tally for each of the 32 seats that a cell may have. Contracts see them in the order of the seats' numbers.
#[derive(Debug, Drop)]
pub struct SeatTallies<T> {
    of_seats: Vec<T>,
}

impl<T> Model for SeatTallies<T> {
    ghost use Rattle.std.specs.Prelude.{◌≡◌, List, length};

    ghost Value = { List T };

    ghost view = { λ t. t.of_seats.items };

    ghost invariant = { λ t. length t.of_seats.items ≡ 32 };
}

impl<T> SeatTallies<T> {
    /// How many tallies there are.
    pub const COUNT: usize = 32;

    /// The tallies of the seats 0 to 31, in the vector's buffer.
    pub fn from_vec(of_seats: Vec<T>) -> Self
        requires { length of_seats.items ≡ 32 }
        ensures { result ≡ of_seats.items }
    {
        SeatTallies { of_seats }
    }

    /// The tally of the seat with this number.
    pub fn of(&self, seat: u8) -> &T
        requires { seat < 32 }
        ensures { (other : T) → result.now ≡ slice_index_or self.now seat other }
    {
        &self.of_seats[usize::from(seat)]
    }

    /// The tally of the seat with this number, to be changed. The other tallies stay as they are.
    pub fn of_mut(&mut self, seat: u8) -> &mut T
        requires { seat < 32 }
        ensures* lends { sem 𝓛 (Lends (the_row T.row) T.row self.entry result (slice_set self.old seat)) }
        ensures value { (other : T) → result.now ≡ slice_index_or self.old seat other }
    {
        &mut self.of_seats[usize::from(seat)]
    }
}
