//! What a pool counts in a turn, in the tally of the seat.

ghost use Rattle.std.specs.Prelude.{◌≡◌, ◌<◌, replicate, IfOk};
ghost use Rattle.slot_pool.specs.Tallies.{took, gave, found_none, no_tally, with_tally};

use crate::tally::Tally;
use std::alloc::{AllocError, Global};
use turn_cell::SeatTallies;

/// The most seats of a cell.
const SEATS: usize = 32;

/// The tallies before the first turn.
pub(crate) fn new_tallies(alloc: Global) -> Result<SeatTallies<Tally>, AllocError>
    ensures { IfOk result (λ tallies. tallies ≡ replicate 32 no_tally) }
{
    let of_seats = vec![in alloc; Tally::NONE; SEATS]?;
    Ok(SeatTallies::from_vec(of_seats))
}

pub(crate) fn count_taken(tallies: &mut SeatTallies<Tally>, seat: u8, slots: u64)
    requires { seat < 32 }
    ensures { tallies.new ≡ with_tally seat (took slots) tallies.old }
{
    let tally = tallies.of_mut(seat);
    *tally = tally.took(slots);
}

pub(crate) fn count_given(tallies: &mut SeatTallies<Tally>, seat: u8)
    requires { seat < 32 }
    ensures { tallies.new ≡ with_tally seat gave tallies.old }
{
    let tally = tallies.of_mut(seat);
    *tally = tally.gave();
}

pub(crate) fn count_empty(tallies: &mut SeatTallies<Tally>, seat: u8)
    requires { seat < 32 }
    ensures { tallies.new ≡ with_tally seat found_none tallies.old }
{
    let tally = tallies.of_mut(seat);
    *tally = tally.found_none();
}
