//! A seat of a cell.

ghost use Rattle.std.specs.Prelude.{◌≡◌, ◌<◌};
ghost use Rattle.turn_cell.specs.Views.{IsActive, IsActive-prop, number_in};

use crate::view::View;

/// The table's seat, which each step of ours takes.
pub(crate) type TableSeat<S> = atomic_table::Seat<Option<S>, View<S>>;

/// The right to take turns at one cell, under a number of its own. While a `Turn` borrows it, it is in that turn.
pub struct Seat<S> {
    pub(crate) number: u8,
    pub(crate) token: TableSeat<S>,
    ghost active: { IsActive token.me.0 } by { IsActive-prop token.me.0 },
    ghost numbered: { number ≡ number_in token.me.0 },
    ghost few: { number < 32 },
}

impl<S> Drop for Seat<S> {
    fn drop(self) {
        let Seat {
            number: _,
            token: _,
        } = self;
    }
}

impl<S> Seat<S> {
    pub(crate) fn into_token(self) -> TableSeat<S>
        ensures { result ≡ self.token }
    {
        let Seat { number: _, token } = self;
        token
    }
}
