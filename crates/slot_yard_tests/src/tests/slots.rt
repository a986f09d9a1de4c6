//! Slots of drives, and a yard for them.

ghost use Rattle.std.specs.Prelude.{◌≡◌, ◌≤◌, length, IfOk, true};
ghost use Rattle.domains.specs.Shape.{is_of};
ghost use Rattle.slot_pool.specs.Pools.{AreSlotsOf};

use domains::{DriveId, Shape};
use flex_io::{Fault, Rack, Slot, SurePiece, SureRack};
use held_slots::Held;
use lists::List;
use slot_pool::Pool;
use slot_yard::{Yard, YardParts};
use std::alloc::{AllocError, Global};

/// Two nodes of two drives with five slots each.
pub fn small() -> Shape
    ensures { result ≡ record { nodes = 2; drives = 2; slots = 5; unit = 8 } }
{
    Shape::new(2, 2, 5, 8)
}

/// The slots of a drive, in the order of their numbers.
fn slots_of<R: Rack>(
    alloc: Global,
    rack: &mut R,
    drive: DriveId,
    count: u16,
) -> Result<List<R::Piece>, Fault>
    ensures { IfOk result (λ slots. (length slots ≡ count) × AreSlotsOf R.Piece.place_of drive slots) }
{
    let mut slots = List::new(alloc);
    for number in 0..count {
        let slot = rack.take((drive.node(), drive.drive()), number)?;
        slots.push(slot).map_err(|_| Fault::NoMemory)?;
    }
    Ok(slots)
}

/// A pool of the first `count` slots of the drive.
pub fn pool_of(alloc: Global, drive: DriveId, count: u16) -> Result<Pool<SurePiece>, Fault>
    requires { count ≤ 4096 }
    ensures drive { IfOk result (λ pool. pool.drive ≡ drive) }
    ensures slots { IfOk result (λ pool. pool.slots ≡ count) }
{
    let slots = slots_of(alloc, &mut SureRack::new(alloc), drive, count)?;
    match Pool::new(alloc, drive, slots) {
        Ok(pool) => Ok(pool),
        Err(_refused) => Err(Fault::NoMemory),
    }
}

/// Puts the pool's next slot into the yard, and returns whether it is there.
pub fn put_next(yard: &mut Yard<SurePiece>, pool: &mut Pool<SurePiece>) -> bool
    requires of { is_of yard.old.shape pool.old.drive ≡ true }
    requires slots { pool.old.slots ≤ yard.old.shape.slots }
    ensures shape { yard.new.shape ≡ yard.old.shape }
    ensures drive { pool.new.drive ≡ pool.old.drive }
    ensures slots { pool.new.slots ≡ pool.old.slots }
{
    let Ok(held) = pool.take() else {
        return false;
    };
    match yard.put(held) {
        Ok(()) => true,
        Err((_error, held)) => {
            let _slot = held.spend();
            false
        }
    }
}

/// Retires the pool's next slot, and returns whether it is retired.
pub fn retire_next(yard: &mut Yard<SurePiece>, pool: &mut Pool<SurePiece>) -> bool
    requires of { is_of yard.old.shape pool.old.drive ≡ true }
    requires slots { pool.old.slots ≤ yard.old.shape.slots }
    ensures shape { yard.new.shape ≡ yard.old.shape }
    ensures drive { pool.new.drive ≡ pool.old.drive }
    ensures slots { pool.new.slots ≡ pool.old.slots }
{
    let Ok(held) = pool.take() else {
        return false;
    };
    match yard.retire(held) {
        Ok(()) => true,
        Err((_error, held)) => {
            let _slot = held.spend();
            false
        }
    }
}

/// Retires the pool's drive, and returns how many slots are retired.
pub fn retire_drive(yard: &mut Yard<SurePiece>, pool: &mut Pool<SurePiece>) -> Option<u32>
    requires of { is_of yard.old.shape pool.old.drive ≡ true }
    requires slots { pool.old.slots ≤ yard.old.shape.slots }
    ensures shape { yard.new.shape ≡ yard.old.shape }
    ensures drive { pool.new.drive ≡ pool.old.drive }
    ensures slots { pool.new.slots ≡ pool.old.slots }
{
    match yard.retire_drive(pool) {
        Ok(count) => Some(count),
        Err(AllocError) => None,
    }
}

/// The node, the drive and the number of a slot, which is spent.
pub fn place_of(held: Held<SurePiece>) -> (u8, u8, u16) {
    let at = held.spend().place();
    (at.node, at.drive, at.slot)
}

/// The places of all slots, in their order. All slots are spent.
fn places_of(alloc: Global, all: List<Held<SurePiece>>) -> Result<Vec<(u8, u8, u16)>, AllocError> {
    let mut all = all.into_vec();
    all.reverse();
    let mut places = Vec::new(alloc);
    let mut refused = false;
    while let Some(held) = all.pop() {
        refused |= places.push(place_of(held)).is_err();
    }
    all.destroy_empty();
    if refused { Err(AllocError) } else { Ok(places) }
}

/// The places of all slots that wait, and of those that are retired. The yard ends.
pub fn places_left(
    alloc: Global,
    yard: Yard<SurePiece>,
) -> Result<(Vec<(u8, u8, u16)>, Vec<(u8, u8, u16)>), AllocError> {
    let YardParts { yard, retired } = yard.close();
    let waiting = places_of(alloc, yard);
    let retired = places_of(alloc, retired)?;
    Ok((waiting?, retired))
}
