//! The slots of a new inode.

ghost use Rattle.std.specs.Prelude.{◌≡◌, ◌≤◌, ◌+◌, ℕ, length, map, OnOk, IfErr};
ghost use Rattle.std.specs.List.{AllByRecursion};
ghost use Rattle.striped_groups.specs.StoredGroups.{Took};
ghost use Rattle.map_switches.specs.Switches.{IsFaultAt, IsSlotFault};

use flex_io::{Fault, Slot};
use held_slots::Held;
use stale_changes::Stale;

/// Writes the bytes to each of these slots, the first of which has this position. It stops at the first that does not take them.
pub fn write_each<S: Slot>(slots: &mut [Held<S>], bytes: &[u8], position: u8) -> Result<(), Stale>
    requires fits { length bytes.now ≤ 262144 }
    requires few { position + length slots.old ≤ 255 }
    ensures took { OnOk result (AllByRecursion (Took S.content S.len_of bytes.now) slots.new) }
    ensures failed { IfErr result (λ why. IsSlotFault S.faults slots.old slots.new position why) }
    ensures places { map S.place_of slots.new ≡ map S.place_of slots.old }
{
    let Some((slot, rest)) = slots.split_first_mut() else {
        return Ok(());
    };
    write_one(slot, bytes, position)?;
    write_each(rest, bytes, position + 1)
}

/// Writes the bytes to the slot at this position.
fn write_one<S: Slot>(slot: &mut Held<S>, bytes: &[u8], position: u8) -> Result<(), Stale>
    requires fits { length bytes.now ≤ 262144 }
    ensures took { OnOk result (Took S.content S.len_of bytes.now slot.new) }
    ensures failed { IfErr result (λ why. IsFaultAt S.faults slot.old slot.new position why) }
    ensures place { S.place_of slot.new ≡ S.place_of slot.old }
{
    match slot.slot().write(bytes) {
        Ok(()) => Ok(()),
        Err(Fault::Failed) => Err(Stale::InodeSlot { position }),
        Err(Fault::NoMemory) => Err(Stale::NoMemory),
    }
}
