//! The units of a group, written one by one.

ghost use Rattle.std.specs.Prelude.{◌≡◌, [], ℕ, List, OnOk, ◌+◌, ◌<◌, ◌≤◌, length};
ghost use Rattle.std.specs.Result.{IsErrOf};
ghost use Rattle.fabric.specs.Views.{IsHandOf, fabric_view};
ghost use Rattle.slot_search.specs.Searches.{AsksClosed, KeepsHand};
ghost use Rattle.placement.specs.PartialGroups.{GoesOn, GoesOnFrom, GoesOnWith, HasNoRoom, IsAtStage, IsInOrder, LosesOnTheWay, slots_of, slots_with};

use crate::partial_group::{PartialGroup, PlaceStop, draw_one, set_aside, write};
use fabric::{Fabric, Hand};
use flex_io::{Fault, Slot};
use held_slots::Held;
use rs_codes::Units;
use slot_search::Request;
use std::sync::Wait;

/// Writes the units whose slots wait, each to its slot. A slot that fails is retired, and another comes in its place.
pub(crate) fn write_all<S: Slot + Send + Drop, R: Wait>(
    rt: &R,
    fabric: &Fabric<S>,
    hand: &mut Hand<S>,
    request: &Request,
    units: &Units,
    group: &mut PartialGroup<S>,
) -> Result<(), PlaceStop>
    requires shape { (fabric_view fabric.now).shape ≡ request.now.shape }
    requires hand { IsHandOf (fabric_view fabric.now) hand.old }
    requires unit { units.now.unit_length ≤ 262144 }
    requires many { length units.now.units ≡ request.now.count }
    requires in_order { IsInOrder S.place_of request.now group.old (slots_of group.old) }
    requires stage { IsAtStage S.place_of request.now group.old (slots_of group.old) }
    requires full { length (slots_of group.old) ≡ request.now.count }
    ensures keeps { KeepsHand (fabric_view fabric.now) hand.old hand.new }
    ensures in_order { IsInOrder S.place_of request.now group.new (slots_of group.new) }
    ensures once { (start : Hand S) → AsksClosed S.place_of request.now.shape group.old.search start hand.old
        → AsksClosed S.place_of request.now.shape group.new.search start hand.new }
    ensures full { OnOk result (length (slots_of group.new) ≡ request.now.count) }
    ensures stage { OnOk result (IsAtStage S.place_of request.now group.new (slots_of group.new)) }
    ensures none_waits { OnOk result (group.new.waiting.items ≡ []) }
    ensures placed { OnOk result (GoesOn S.place_of S.content S.len_of S.faults request.now units.now.units group.old group.new hand.old hand.new) }
    ensures no_room { IsErrOf result PlaceStop.NoRoom → HasNoRoom S.place_of request.now group.new }
    ensures so_far { IsErrOf result PlaceStop.NoRoom → GoesOn S.place_of S.content S.len_of S.faults request.now units.now.units group.old group.new hand.old hand.new }
    ensures lost { IsErrOf result PlaceStop.NoMemory → LosesOnTheWay S.place_of S.content S.len_of S.faults request.now units.now.units group.old (slots_of group.old) group.new hand.old hand.new }
{
    while let Some(held) = group.waiting.pop() {
        write_next(rt, fabric, hand, request, units, group, held)?;
    }
    Ok(())
}

/// Writes the next unit to this slot, which stands out of its place.
fn write_next<S: Slot + Send + Drop, R: Wait>(
    rt: &R,
    fabric: &Fabric<S>,
    hand: &mut Hand<S>,
    request: &Request,
    units: &Units,
    group: &mut PartialGroup<S>,
    held: Held<S>,
) -> Result<(), PlaceStop>
    requires shape { (fabric_view fabric.now).shape ≡ request.now.shape }
    requires hand { IsHandOf (fabric_view fabric.now) hand.old }
    requires unit { units.now.unit_length ≤ 262144 }
    requires many { length units.now.units ≡ request.now.count }
    requires in_order { IsInOrder S.place_of request.now group.old (slots_with group.old held) }
    requires stage { IsAtStage S.place_of request.now group.old (slots_with group.old held) }
    requires full { length (slots_with group.old held) ≡ request.now.count }
    ensures keeps { KeepsHand (fabric_view fabric.now) hand.old hand.new }
    ensures in_order { IsInOrder S.place_of request.now group.new (slots_of group.new) }
    ensures once { (start : Hand S) → AsksClosed S.place_of request.now.shape group.old.search start hand.old
        → AsksClosed S.place_of request.now.shape group.new.search start hand.new }
    ensures full { OnOk result (length (slots_of group.new) ≡ request.now.count) }
    ensures stage { OnOk result (IsAtStage S.place_of request.now group.new (slots_of group.new)) }
    ensures less { OnOk result (length group.new.waiting.items + length group.old.failed.items
        ≡ length group.old.waiting.items + length group.new.failed.items) }
    ensures placed { OnOk result (GoesOnFrom S.place_of S.content S.len_of S.faults request.now units.now.units held group.old group.new hand.old hand.new) }
    ensures no_room { IsErrOf result PlaceStop.NoRoom → HasNoRoom S.place_of request.now group.new }
    ensures so_far { IsErrOf result PlaceStop.NoRoom → GoesOnFrom S.place_of S.content S.len_of S.faults request.now units.now.units held group.old group.new hand.old hand.new }
    ensures lost { IsErrOf result PlaceStop.NoMemory → LosesOnTheWay S.place_of S.content S.len_of S.faults request.now units.now.units group.old (slots_with group.old held) group.new hand.old hand.new }
{
    let _count = units.count();
    let at = group.written.len() as u8;
    match write(held, units.unit(at)) {
        Ok(held) => {
            group.written.push_reserved(held);
            Ok(())
        }
        Err((Fault::NoMemory, held)) => {
            group.waiting.push_reserved(held);
            Err(PlaceStop::NoMemory)
        }
        Err((Fault::Failed, held)) => replace(rt, fabric, hand, request, group, held),
    }
}

/// Retires a slot that has failed, and draws another in its place.
fn replace<S: Slot + Send + Drop, R: Wait>(
    rt: &R,
    fabric: &Fabric<S>,
    hand: &mut Hand<S>,
    request: &Request,
    group: &mut PartialGroup<S>,
    held: Held<S>,
) -> Result<(), PlaceStop>
    requires shape { (fabric_view fabric.now).shape ≡ request.now.shape }
    requires hand { IsHandOf (fabric_view fabric.now) hand.old }
    requires failed { 0 < S.faults held }
    requires in_order { IsInOrder S.place_of request.now group.old (slots_with group.old held) }
    requires stage { IsAtStage S.place_of request.now group.old (slots_with group.old held) }
    requires full { length (slots_with group.old held) ≡ request.now.count }
    ensures keeps { KeepsHand (fabric_view fabric.now) hand.old hand.new }
    ensures in_order { IsInOrder S.place_of request.now group.new (slots_of group.new) }
    ensures once { (start : Hand S) → AsksClosed S.place_of request.now.shape group.old.search start hand.old
        → AsksClosed S.place_of request.now.shape group.new.search start hand.new }
    ensures full { OnOk result (length (slots_of group.new) ≡ request.now.count) }
    ensures stage { OnOk result (IsAtStage S.place_of request.now group.new (slots_of group.new)) }
    ensures less { OnOk result (length group.new.waiting.items + length group.old.failed.items
        ≡ length group.old.waiting.items + length group.new.failed.items) }
    ensures placed { OnOk result ((units : List (List ℕ))
        → GoesOnWith S.place_of S.content S.len_of S.faults request.now units held group.old group.new hand.old hand.new) }
    ensures no_room { IsErrOf result PlaceStop.NoRoom → HasNoRoom S.place_of request.now group.new }
    ensures so_far { IsErrOf result PlaceStop.NoRoom → (units : List (List ℕ))
        → GoesOnWith S.place_of S.content S.len_of S.faults request.now units held group.old group.new hand.old hand.new }
    ensures lost { IsErrOf result PlaceStop.NoMemory → (units : List (List ℕ))
        → LosesOnTheWay S.place_of S.content S.len_of S.faults request.now units group.old (slots_with group.old held) group.new hand.old hand.new }
{
    if !set_aside(rt, fabric, hand, request, group, held) {
        return Err(PlaceStop::NoMemory);
    }
    if draw_one(rt, fabric, hand, request, group) {
        Ok(())
    } else {
        Err(PlaceStop::NoRoom)
    }
}
