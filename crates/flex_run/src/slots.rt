//! All slots of a cluster, taken from a rack and put back.

ghost use Rattle.std.specs.Prelude.{◌≡◌, ◌++◌, ◌≤◌, ◌*◌, [], length, IfOk, OnOk};
ghost use Rattle.std.specs.Result.{IsErrOf};
ghost use Rattle.domains.specs.Shape.{IsShape};
ghost use Rattle.flex_io.specs.Faults.{HasCause};
ghost use Rattle.flex_run.specs.RackStates.{RisesBy, slot_count};
ghost use Rattle.held_slots.specs.Slots.{places_from};
ghost use Rattle.flex_run.specs.StockOrder.{drive_stack, node_stacks, stock_order, PutsBack};

use domains::Shape;
use flex_io::{Fault, Rack};
use lists::List;
use std::alloc::Global;

/// Takes all slots of the cluster, drive by drive, each drive's from the bottom of its stack: the last first.
pub(crate) fn take_all<R: Rack>(
    alloc: Global,
    shape: Shape,
    rack: &mut R,
) -> Result<List<R::Piece>, Fault>
    ensures order { IfOk result (λ slots. places_from R.Piece.place_of slots ≡ stock_order shape) }
    ensures takes { OnOk result (RisesBy (slot_count shape) (R.takes rack.old) (R.takes rack.new)) }
    ensures puts { R.puts rack.new ≡ R.puts rack.old }
    ensures same { R.back rack.new ≡ R.back rack.old }
    ensures fault { HasCause result (R.faults rack.old) (R.faults rack.new) }
    ensures never_falls { R.faults rack.old ≤ R.faults rack.new }
{
    let mut slots = Vec::new(alloc);
    slots.reserve(count_of(shape)).map_err(|_| Fault::NoMemory)?;
    for node in 0..shape.nodes() {
        take_node(shape, node + 1, rack, &mut slots)?;
    }
    Ok(List::from_vec(slots))
}

/// How many slots the cluster has.
fn count_of(shape: Shape) -> usize {
    usize::from(shape.nodes()) * usize::from(shape.drives()) * usize::from(shape.slots())
}

/// Takes the slots of a node.
fn take_node<R: Rack>(
    shape: Shape,
    node: u8,
    rack: &mut R,
    slots: &mut Vec<R::Piece>,
) -> Result<(), Fault>
    ensures order { OnOk result (places_from R.Piece.place_of slots.new.items
        ≡ places_from R.Piece.place_of slots.old.items ++ node_stacks shape.drives node shape.slots) }
    ensures takes { OnOk result (RisesBy (shape.drives * shape.slots) (R.takes rack.old) (R.takes rack.new)) }
    ensures puts { R.puts rack.new ≡ R.puts rack.old }
    ensures same { R.back rack.new ≡ R.back rack.old }
    ensures fault { HasCause result (R.faults rack.old) (R.faults rack.new) }
    ensures never_falls { R.faults rack.old ≤ R.faults rack.new }
{
    for drive in 0..shape.drives() {
        take_drive(shape.slots(), (node, drive + 1), rack, slots)?;
    }
    Ok(())
}

/// Takes the first `count` slots of a drive, the last first.
fn take_drive<R: Rack>(
    count: u16,
    drive: (u8, u8),
    rack: &mut R,
    slots: &mut Vec<R::Piece>,
) -> Result<(), Fault>
    ensures order { OnOk result (places_from R.Piece.place_of slots.new.items
        ≡ places_from R.Piece.place_of slots.old.items ++ drive_stack count (record { node = drive.0; drive = drive.1 })) }
    ensures takes { OnOk result (RisesBy count (R.takes rack.old) (R.takes rack.new)) }
    ensures puts { R.puts rack.new ≡ R.puts rack.old }
    ensures same { R.back rack.new ≡ R.back rack.old }
    ensures fault { HasCause result (R.faults rack.old) (R.faults rack.new) }
    ensures never_falls { R.faults rack.old ≤ R.faults rack.new }
{
    for turn in 0..count {
        let piece = rack.take(drive, count - 1 - turn)?;
        slots.push(piece).map_err(|_| Fault::NoMemory)?;
    }
    Ok(())
}

/// Puts slots back, in their order.
pub(crate) fn put_all<R: Rack>(rack: &mut R, slots: List<R::Piece>) -> Result<(), Fault>
    ensures back { OnOk result (PutsBack (R.back rack.old) (R.back rack.new) R.Piece.place_of R.Piece.content slots) }
    ensures takes { R.takes rack.new ≡ R.takes rack.old }
    ensures puts { OnOk result (RisesBy (length slots) (R.puts rack.old) (R.puts rack.new)) }
    ensures fault { HasCause result (R.faults rack.old) (R.faults rack.new) }
    ensures never_falls { R.faults rack.old ≤ R.faults rack.new }
{
    for piece in slots.into_vec() {
        rack.put(piece)?;
    }
    Ok(())
}
