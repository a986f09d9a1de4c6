//! A turn that looks at a file.

ghost use Rattle.std.specs.Prelude.{◌≡◌, length};
ghost use Rattle.turn_cell.specs.Seats.{IsIdleOf, cell_view, seat_view};
ghost use Rattle.file_core.specs.FileView.{layout_of};
ghost use Rattle.file_core.specs.Looks.{IsLook};
ghost use Rattle.file_turns.specs.FileTurns.{FileTurn};

use file_core::{FileState, Look};
use flex_io::Slot;
use std::sync::Wait;
use turn_cell::{Seat, TurnCell};

/// What the file is in one turn of the seat, which changes nothing.
pub fn look<S: Slot + Send + Drop, R: Wait>(
    rt: &R,
    cell: &TurnCell<FileState<S>>,
    seat: &mut Seat<FileState<S>>,
) -> Look
    requires seat { IsIdleOf (cell_view cell.now) (seat_view seat.old) }
    ensures seat { IsIdleOf (cell_view cell.now) (seat_view seat.new) }
    ensures number { (seat_view seat.new).number ≡ (seat_view seat.old).number }
    ensures turn { FileTurn (λ x y. (y ≡ x) × IsLook (layout_of x) (length x.notes) result) (seat_view seat.old) (seat_view seat.new) }
{
    let mut turn = cell.enter(rt, seat);
    let look = turn.state().look();
    turn.leave();
    look
}
