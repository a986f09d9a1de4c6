use crate::{Held, spend_all};
use flex_io::{Rack, Slot, SurePiece, SureRack};
use lists::List;
use std::test::Fail;

// Where a slot is that was written, how many of its two bytes it holds, and whether the write was done.
fn write_and_spend(piece: SurePiece) -> ((u8, u8, u16), u32, bool) {
    let mut held = Held::new(piece);
    let is_written = held.slot().write(&[7, 8]).is_ok();
    let slot = held.spend();
    let place = slot.place();
    (
        (place.node, place.drive, place.slot),
        slot.len(),
        is_written,
    )
}

#[test]
fn a_held_slot_is_written_and_spent(rt: HostRuntime) -> Result<(), Fail> {
    let mut rack = SureRack::new(rt.alloc());
    let piece = rack.take((2, 1), 3)?;
    assert_eq!(rt; write_and_spend(piece), ((2, 1, 3), 2, true));
    Ok(())
}

#[test]
fn all_slots_are_spent(rt: HostRuntime) -> Result<(), Fail> {
    let mut rack = SureRack::new(rt.alloc());
    let (one, other) = (rack.take((1, 1), 0)?, rack.take((1, 1), 1)?);
    let mut slots = Vec::with_capacity(rt.alloc(), 2)?;
    slots.push_reserved(Held::new(one));
    slots.push_reserved(Held::new(other));
    assert_eq!(rt; spend_all(List::from_vec(slots)), 2);
    Ok(())
}
