//! Slots that are taken from a rack and put back to it.

ghost use Rattle.std.specs.Prelude.{◌≡◌, ◌⊎◌, ◌≤◌, ◌<◌, ◌*◌, true, length, IfOk, OnOk};
ghost use Rattle.std.specs.Result.{IsErrOf};
ghost use Rattle.domains.specs.Shape.{is_of};
ghost use Rattle.flex_io.specs.Faults.{HasCause, HasRisen};
ghost use Rattle.slot_pool.specs.Pools.{AreSlotsOf};
ghost use Rattle.fabric.specs.Cells.{place_in};
ghost use Rattle.fabric.specs.NewFabric.{AreNewPoolsFrom, IsNewPool, free_in};
ghost use Rattle.fabric.specs.RackCounts.{ComesBack, HasRisenTwice, RisesBy};
ghost use Rattle.fabric.specs.declared.fault.OpenFault.TheVariants.{Rack as RackFault};

use crate::close::Parts;
use crate::fault::OpenFault;
use domains::{DriveId, Shape};
use flex_io::{Fault, Rack, Slot};
use held_slots::Held;
use lists::List;
use slot_pool::Pool;
use std::alloc::Global;

/// The pools of all drives, each with all its slots free and slot 0 on top: node by node, and within a node drive by drive. At
/// an `Err` the slots are put back.
pub(crate) fn take_pools<S: Slot + Send + Drop, R: Rack<Piece = S>>(
    alloc: Global,
    rack: &mut R,
    shape: Shape,
) -> Result<Vec<Pool<S>>, OpenFault>
    ensures many { IfOk result (λ pools. length pools.items ≡ shape.nodes * shape.drives) }
    ensures pools { IfOk result (λ pools. AreNewPoolsFrom S.place_of shape 0 pools.items) }
    ensures takes { OnOk result (RisesBy (shape.nodes * shape.drives * shape.slots) (R.takes rack.old) (R.takes rack.new)) }
    ensures puts { OnOk result (R.puts rack.new ≡ R.puts rack.old) }
    ensures same { OnOk result (R.back rack.new ≡ R.back rack.old) }
    ensures comes_back { IsErrOf result RackFault → ComesBack (R.takes rack.old) (R.puts rack.old) (R.takes rack.new) (R.puts rack.new)
        ⊎ HasRisenTwice (R.faults rack.old) (R.faults rack.new) }
    ensures rack { IsErrOf result RackFault → HasRisen (R.faults rack.old) (R.faults rack.new) }
    ensures never_falls { R.faults rack.old ≤ R.faults rack.new }
{
    let drives = u16::from(shape.nodes()) * u16::from(shape.drives());
    let Ok(mut pools) = Vec::with_capacity(alloc, usize::from(drives)) else {
        return Err(OpenFault::NoMemory);
    };
    for place in 0..drives {
        match take_pool(alloc, rack, shape, drive_at(shape, place)) {
            Ok(pool) => pools.push_reserved(pool),
            Err(fault) => return Err(fault.after(put_pools_back(rack, pools))),
        }
    }
    Ok(pools)
}

/// The drive of this place.
fn drive_at(shape: Shape, place: u16) -> DriveId
    requires { place < shape.nodes * shape.drives }
    ensures of { is_of shape result ≡ true }
    ensures place { place_in shape result ≡ place }
{
    let drives = u16::from(shape.drives());
    let node = place / drives;
    let drive = place % drives;
    DriveId::new(node as u8 + 1, drive as u8 + 1)
}

/// The pool of a drive, with all its slots. At an `Err` the slots are put back.
fn take_pool<S: Slot + Send + Drop, R: Rack<Piece = S>>(
    alloc: Global,
    rack: &mut R,
    shape: Shape,
    drive: DriveId,
) -> Result<Pool<S>, OpenFault>
    ensures drive { IfOk result (λ pool. pool.drive ≡ drive) }
    ensures pool { IfOk result (λ pool. IsNewPool S.place_of shape drive pool) }
    ensures takes { OnOk result (RisesBy shape.slots (R.takes rack.old) (R.takes rack.new)) }
    ensures puts { OnOk result (R.puts rack.new ≡ R.puts rack.old) }
    ensures same { OnOk result (R.back rack.new ≡ R.back rack.old) }
    ensures comes_back { IsErrOf result RackFault → ComesBack (R.takes rack.old) (R.puts rack.old) (R.takes rack.new) (R.puts rack.new)
        ⊎ HasRisenTwice (R.faults rack.old) (R.faults rack.new) }
    ensures rack { IsErrOf result RackFault → HasRisen (R.faults rack.old) (R.faults rack.new) }
    ensures never_falls { R.faults rack.old ≤ R.faults rack.new }
{
    let slots = take_slots(alloc, rack, drive, shape.slots())?;
    match Pool::new(alloc, drive, slots) {
        Ok(pool) => Ok(pool),
        Err((_error, slots)) => {
            let _put = put_back(rack, slots);
            Err(OpenFault::NoMemory)
        }
    }
}

/// The first `count` slots of a drive, in the order of their numbers. At an `Err` they are put back.
fn take_slots<S: Slot + Send + Drop, R: Rack<Piece = S>>(
    alloc: Global,
    rack: &mut R,
    drive: DriveId,
    count: u16,
) -> Result<List<S>, OpenFault>
    ensures many { IfOk result (λ slots. length slots ≡ count) }
    ensures are { IfOk result (λ slots. AreSlotsOf S.place_of drive slots) }
    ensures takes { OnOk result (RisesBy count (R.takes rack.old) (R.takes rack.new)) }
    ensures puts { OnOk result (R.puts rack.new ≡ R.puts rack.old) }
    ensures same { OnOk result (R.back rack.new ≡ R.back rack.old) }
    ensures comes_back { IsErrOf result RackFault → ComesBack (R.takes rack.old) (R.puts rack.old) (R.takes rack.new) (R.puts rack.new)
        ⊎ HasRisenTwice (R.faults rack.old) (R.faults rack.new) }
    ensures rack { IsErrOf result RackFault → HasRisen (R.faults rack.old) (R.faults rack.new) }
    ensures never_falls { R.faults rack.old ≤ R.faults rack.new }
{
    let Ok(mut slots) = Vec::with_capacity(alloc, usize::from(count)) else {
        return Err(OpenFault::NoMemory);
    };
    for number in 0..count {
        match rack.take((drive.node(), drive.drive()), number) {
            Ok(slot) => slots.push_reserved(slot),
            Err(fault) => {
                let put = put_back(rack, List::from_vec(slots));
                return Err(OpenFault::of(fault).after(put));
            }
        }
    }
    Ok(List::from_vec(slots))
}

/// Puts slots back. A slot whose put fails is gone, and the first fault is the answer.
fn put_back<S: Slot + Send + Drop, R: Rack<Piece = S>>(
    rack: &mut R,
    slots: List<S>,
) -> Result<(), Fault>
    ensures takes { R.takes rack.new ≡ R.takes rack.old }
    ensures puts { OnOk result (RisesBy (length slots) (R.puts rack.old) (R.puts rack.new)) }
    ensures fault { HasCause result (R.faults rack.old) (R.faults rack.new) }
    ensures never_falls { R.faults rack.old ≤ R.faults rack.new }
{
    let mut outcome = Ok(());
    for slot in slots.into_vec() {
        let put = rack.put(slot);
        outcome = outcome.and(put);
    }
    outcome
}

/// Puts the free slots of pools back. A slot whose put fails is gone, and the first fault is the answer.
pub(crate) fn put_pools_back<S: Slot + Send + Drop, R: Rack<Piece = S>>(
    rack: &mut R,
    pools: Vec<Pool<S>>,
) -> Result<(), Fault>
    ensures takes { R.takes rack.new ≡ R.takes rack.old }
    ensures puts { OnOk result (RisesBy (free_in pools.items) (R.puts rack.old) (R.puts rack.new)) }
    ensures fault { HasCause result (R.faults rack.old) (R.faults rack.new) }
    ensures never_falls { R.faults rack.old ≤ R.faults rack.new }
{
    let mut outcome = Ok(());
    for pool in pools {
        let put = put_back(rack, pool.close());
        outcome = outcome.and(put);
    }
    outcome
}

/// Puts slots back that are out of their pools.
fn put_held_back<S: Slot + Send + Drop, R: Rack<Piece = S>>(rack: &mut R, held: List<Held<S>>)
    ensures { R.faults rack.old ≤ R.faults rack.new }
{
    let mut all = held.into_vec();
    while let Some(held) = all.pop() {
        let _put = rack.put(held.spend());
    }
    all.destroy_empty();
}

/// Puts all slots of a closed fabric back.
pub(crate) fn put_all_back<S: Slot + Send + Drop, R: Rack<Piece = S>>(rack: &mut R, parts: Parts<S>)
    ensures { R.faults rack.old ≤ R.faults rack.new }
{
    let Parts {
        board: _,
        yard,
        retired,
        pools,
    } = parts;
    put_held_back(rack, yard);
    put_held_back(rack, retired);
    let _put = put_pools_back(rack, pools.into_vec());
}
