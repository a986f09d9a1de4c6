//! What others note between two turns of a seat.

ghost use Rattle.std.specs.Prelude.{◌≡◌, ◌≢◌, ℕ, List, ◌++◌};
ghost use Rattle.std.specs.List.{All};
ghost use Rattle.turn_cell.specs.declared.chronicle.Note.{Note};
ghost use Rattle.turn_cell_tests.specs.declared.tests.numbers.Numbers.{Numbers};
ghost use Rattle.turn_cell.specs.Seats.{IsIdleOf, cell_view, seat_view};

use super::numbers::Numbers;
use std::sync::Wait;
use turn_cell::{Seat, TurnCell};

/// Takes a turn that changes nothing. Of the notes that the seat had not seen, none is its own.
pub fn look<R: Wait>(rt: &R, cell: &TurnCell<Numbers>, seat: &mut Seat<Numbers>)
    requires { IsIdleOf (cell_view cell.now) (seat_view seat.old) }
    ensures idle { IsIdleOf (cell_view cell.now) (seat_view seat.new) }
    ensures others { (more : List (Note ℕ)) → (seat_view seat.new).last.notes.items ≡ (seat_view seat.old).last.notes.items ++ more → All (λ note. note.seat ≢ (seat_view seat.old).number) more }
{
    cell.enter(rt, seat).leave();
}
