//! The slots of a drive.

ghost use Rattle.std.specs.Prelude.{◌≡◌, ℕ, ◌≤◌, length, IfOk};
ghost use Rattle.slot_pool.specs.Tallies.{no_tally, tally_at};
ghost use Rattle.slot_pool.specs.Pools.{AreSlotsOf};

use domains::DriveId;
use flex_io::{Fault, Rack, SurePiece, SureRack};
use lists::List;
use slot_pool::Pool;
use std::alloc::Global;

/// The slots of a drive, in the order of their numbers.
pub fn slots_of<R: Rack>(
    alloc: Global,
    rack: &mut R,
    drive: DriveId,
    count: u16,
) -> Result<List<R::Piece>, Fault>
    ensures { IfOk result (λ slots. (length slots ≡ count) × AreSlotsOf R.Piece.place_of drive slots) }
{
    let mut slots = List::new(alloc);
    for number in 0..count {
        let slot = rack.take((drive.node(), drive.drive()), number)?;
        slots.push(slot).map_err(|_| Fault::NoMemory)?;
    }
    Ok(slots)
}

/// A pool of `count` slots of drive 2/1.
pub fn pool_of(alloc: Global, count: u16) -> Result<Pool<SurePiece>, Fault>
    requires { count ≤ 4096 }
    ensures turns { IfOk result (λ pool. pool.turns ≡ 0) }
    ensures drive { IfOk result (λ pool. pool.drive ≡ record { node = 2; drive = 1 }) }
    ensures slots { IfOk result (λ pool. pool.slots ≡ count) }
    ensures none { IfOk result (λ pool. (k : ℕ) → tally_at pool.tallies k ≡ no_tally) }
{
    let drive = DriveId::new(2, 1);
    let slots = slots_of(alloc, &mut SureRack::new(alloc), drive, count)?;
    match Pool::new(alloc, drive, slots) {
        Ok(pool) => Ok(pool),
        Err(_refused) => Err(Fault::NoMemory),
    }
}
