//! Slots taken and given in turns of a cell.

ghost use Rattle.std.specs.Prelude.{◌≡◌, OnOk, OnErr, IfOk, IfErr};
ghost use Rattle.held_slots.specs.Slots.{place_from, IsOn};
ghost use Rattle.slot_pool.specs.Tallies.{took, gave, found_none, tally_at};
ghost use Rattle.turn_cell.specs.Seats.{IsIdleOf, cell_view, seat_view};

use flex_io::Slot;
use held_slots::{Empty, Held};
use slot_pool::Pool;
use std::alloc::AllocError;
use std::sync::Wait;
use turn_cell::{Seat, TurnCell};

/// Takes a slot in one turn.
pub fn draw<S: Slot + Send + Drop, R: Wait>(
    rt: &R,
    cell: &TurnCell<Pool<S>>,
    seat: &mut Seat<Pool<S>>,
) -> Result<Held<S>, Empty>
    requires { IsIdleOf (cell_view cell.now) (seat_view seat.old) }
    ensures idle { IsIdleOf (cell_view cell.now) (seat_view seat.new) }
    ensures same { (seat_view seat.new).number ≡ (seat_view seat.old).number }
    ensures on { IfOk result (λ held. IsOn (seat_view seat.old).last.drive (seat_view seat.old).last.slots (place_from (S.place_of held))) }
    ensures ok { OnOk result (tally_at (seat_view seat.new).last.tallies (seat_view seat.old).number ≡ took 1 (tally_at (seat_view seat.old).last.tallies (seat_view seat.old).number)) }
    ensures empty { IfErr result (λ empty. tally_at (seat_view seat.new).last.tallies (seat_view seat.old).number ≡ found_none (tally_at (seat_view seat.old).last.tallies (seat_view seat.old).number)) }
    ensures drive { (seat_view seat.new).last.drive ≡ (seat_view seat.old).last.drive }
    ensures slots { (seat_view seat.new).last.slots ≡ (seat_view seat.old).last.slots }
{
    let mut turn = cell.enter(rt, seat);
    let taken = turn.state().take();
    turn.leave();
    taken
}

/// Gives a slot in one turn.
pub fn put_back<S: Slot + Send + Drop, R: Wait>(
    rt: &R,
    cell: &TurnCell<Pool<S>>,
    seat: &mut Seat<Pool<S>>,
    held: Held<S>,
) -> Result<(), (AllocError, Held<S>)>
    requires seat { IsIdleOf (cell_view cell.now) (seat_view seat.old) }
    requires on { IsOn (seat_view seat.old).last.drive (seat_view seat.old).last.slots (place_from (S.place_of held)) }
    ensures idle { IsIdleOf (cell_view cell.now) (seat_view seat.new) }
    ensures same { (seat_view seat.new).number ≡ (seat_view seat.old).number }
    ensures ok { OnOk result (tally_at (seat_view seat.new).last.tallies (seat_view seat.old).number ≡ gave (tally_at (seat_view seat.old).last.tallies (seat_view seat.old).number)) }
    ensures kept { IfErr result (λ refused. refused.1 ≡ held) }
    ensures drive { (seat_view seat.new).last.drive ≡ (seat_view seat.old).last.drive }
    ensures slots { (seat_view seat.new).last.slots ≡ (seat_view seat.old).last.slots }
{
    let mut turn = cell.enter(rt, seat);
    let given = turn.state().give(held);
    turn.leave();
    given
}
