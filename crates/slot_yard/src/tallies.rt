//! What a yard counts in a turn, in the tally of the seat.

ghost use Rattle.std.specs.Prelude.{◌≡◌, ◌<◌, length, IfOk};
ghost use Rattle.slot_yard.specs.Tallies.{AreNew, count_all, count_one, rank_of, tally_at, with_counts, with_tally};

use crate::counts::Move;
use crate::tally::Tally;
use domains::DriveId;
use std::alloc::{AllocError, Global};
use turn_cell::SeatTallies;

/// The most seats of a cell.
const SEATS: usize = 32;

/// The tallies before the first turn, for the drives of `nodes` nodes.
pub(crate) fn new_tallies(alloc: Global, nodes: u8) -> Result<SeatTallies<Tally>, AllocError>
    ensures { IfOk result (AreNew nodes) }
{
    let mut of_seats = Vec::with_capacity(alloc, SEATS)?;
    for _seat in 0..SEATS {
        of_seats.push_reserved(Tally::new(alloc, nodes)?);
    }
    Ok(SeatTallies::from_vec(of_seats))
}

/// Counts a slot of the drive for the seat.
pub(crate) fn count(tallies: &mut SeatTallies<Tally>, seat: u8, drive: DriveId, what: Move)
    requires seat { seat < 32 }
    requires within { rank_of drive < length (tally_at tallies.old seat) }
    ensures { tallies.new ≡ with_tally seat (with_counts drive (count_one what)) tallies.old }
{
    tallies.of_mut(seat).count(drive, what);
}

/// Counts slots of the drive that were taken and retired together.
pub(crate) fn count_all(
    tallies: &mut SeatTallies<Tally>,
    seat: u8,
    drive: DriveId,
    taken: u64,
    retired: u64,
)
    requires seat { seat < 32 }
    requires within { rank_of drive < length (tally_at tallies.old seat) }
    ensures { tallies.new ≡ with_tally seat (with_counts drive (count_all taken retired)) tallies.old }
{
    tallies.of_mut(seat).count_all(drive, taken, retired);
}
