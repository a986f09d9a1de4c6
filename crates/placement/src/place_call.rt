//! The units of a group on slots.

ghost use Rattle.std.specs.Prelude.{◌≡◌, false, [], ◌++◌, reverse, IfOk, IfErr, OnOk, ◌+◌, ◌≤◌, length, vec_capacity};
ghost use Rattle.std.specs.Result.{IsErrOf};
ghost use Rattle.domains.specs.Drive.{Drive};
ghost use Rattle.domains.specs.DriveSet.{has};
ghost use Rattle.turn_cell.specs.Seats.{seat_view};
ghost use Rattle.fabric.specs.Views.{IsHandOf, fabric_view, number_of};
ghost use Rattle.slot_search.specs.HandSeats.{ReturnsOnce, TriesOnce, draw_request};
ghost use Rattle.placement.specs.Draws.{IfNoMemory, IfNoRoom, IsSameDesk, LosesSlots};
ghost use Rattle.placement.specs.PlacedGroups.{FindsNoPlace, Places};
ghost use Rattle.slot_search.specs.Searches.{AsksClosed, GivesBack, KeepsHand, request_of};
ghost use Rattle.placement.specs.PartialGroups.{HasLost, HasNoRoom, HasPlaced, IsAtStage, IsDrawnGroup, IsInOrder, IsNewGroup, TellsNoRoom, slots_of};

use crate::partial_group::{PartialGroup, PlaceStop};
use crate::refusal::{NoRoom, PlaceRefusal};
use crate::unit_writes::write_all;
use board::View;
use domains::{DriveSet, Level};
use fabric::{Desk, Fabric, Hand};
use flex_io::{Gate, Slot};
use held_slots::Held;
use lists::List;
use rs_codes::Units;
use slot_search::{Request, Search, draw_all, release_all};
use std::alloc::Global;
use std::sync::Wait;

/// Draws a slot for each unit, all of them first, as `draw` does, and writes each unit to its slot. A slot whose write fails
/// is retired, its drive is excluded for this group, and another slot is drawn for the unit by the same order, in which the
/// group's other drives count as used. If no drive is left, the group's slots go back.
pub fn place<S: Slot + Send + Drop, G: Gate, R: Wait>(
    rt: &R,
    alloc: Global,
    desk: &mut Desk<'_, S, G>,
    level: &Level,
    view: &View,
    allowed: &DriveSet,
    used: &DriveSet,
    spin: u32,
    units: &Units,
) -> Result<List<Held<S>>, PlaceRefusal>
    requires hand { IsHandOf (fabric_view desk.old.fabric.now) desk.old.hand.now }
    requires unit { units.now.unit_length ≤ 262144 }
    ensures hand { IsHandOf (fabric_view desk.old.fabric.now) desk.new.hand.now }
    ensures number { number_of desk.new.hand.now ≡ number_of desk.old.hand.now }
    ensures board { seat_view desk.new.hand.now.board ≡ seat_view desk.old.hand.now.board }
    ensures same { IsSameDesk desk.old desk.new }
    ensures once { TriesOnce S.place_of (fabric_view desk.old.fabric.now).shape desk.old.hand.now desk.new.hand.now }
    ensures ok { IfOk result (λ slots. Places S.place_of S.content S.len_of S.faults
        (draw_request level.now (fabric_view desk.old.fabric.now).shape view.now allowed.now used.now spin) units.now.units slots
        desk.old.hand.now desk.new.hand.now) }
    ensures no_room { IfErr result (λ e. IfNoRoom e (λ told. FindsNoPlace S.place_of S.content S.len_of S.faults
        (draw_request level.now (fabric_view desk.old.fabric.now).shape view.now allowed.now used.now spin) units.now.units told
        desk.old.hand.now desk.new.hand.now)) }
    // Memory also runs out if a slot that failed is not retired, or a pool refuses a slot that goes back. Such a slot is lost.
    ensures no_memory { IfErr result (λ e. IfNoMemory e (LosesSlots S.place_of (fabric_view desk.old.fabric.now).shape desk.old.hand.now desk.new.hand.now)) }
{
    let request = Request::new(
        level,
        desk.fabric.shape(),
        view,
        allowed,
        used,
        spin,
        units.count(),
    );
    place_by(rt, alloc, desk.fabric, desk.hand, view, &request, units)
}

/// Places the units of a group, or gives all slots back.
fn place_by<S: Slot + Send + Drop, R: Wait>(
    rt: &R,
    alloc: Global,
    fabric: &Fabric<S>,
    hand: &mut Hand<S>,
    view: &View,
    request: &Request,
    units: &Units,
) -> Result<List<Held<S>>, PlaceRefusal>
    requires shape { (fabric_view fabric.now).shape ≡ request.now.shape }
    requires hand { IsHandOf (fabric_view fabric.now) hand.old }
    requires unit { units.now.unit_length ≤ 262144 }
    requires many { length units.now.units ≡ request.now.count }
    requires barred { (d : Drive) → has request.now.barred d ≡ false }
    requires up { request.now.up ≡ view.now.up }
    ensures keeps { KeepsHand (fabric_view fabric.now) hand.old hand.new }
    ensures once { TriesOnce S.place_of request.now.shape hand.old hand.new }
    ensures ok { IfOk result (λ slots. Places S.place_of S.content S.len_of S.faults (request_of request.now) units.now.units slots hand.old hand.new) }
    ensures no_room { IfErr result (λ e. IfNoRoom e (λ told. FindsNoPlace S.place_of S.content S.len_of S.faults
        (request_of request.now) units.now.units told hand.old hand.new)) }
    ensures no_memory { IfErr result (λ e. IfNoMemory e (LosesSlots S.place_of request.now.shape hand.old hand.new)) }
{
    let Ok(mut group) = PartialGroup::new(alloc, request) else {
        return Err(PlaceRefusal::NoMemory);
    };
    match place_all(rt, fabric, hand, request, units, &mut group) {
        Ok(()) => Ok(finish(group)),
        Err(PlaceStop::NoRoom) => Err(refuse(rt, fabric, hand, view, request, group)),
        Err(PlaceStop::NoMemory) => {
            refuse(rt, fabric, hand, view, request, group);
            Err(PlaceRefusal::NoMemory)
        }
    }
}

/// Draws all slots of a group and then writes them.
fn place_all<S: Slot + Send + Drop, R: Wait>(
    rt: &R,
    fabric: &Fabric<S>,
    hand: &mut Hand<S>,
    request: &Request,
    units: &Units,
    group: &mut PartialGroup<S>,
) -> Result<(), PlaceStop>
    requires shape { (fabric_view fabric.now).shape ≡ request.now.shape }
    requires hand { IsHandOf (fabric_view fabric.now) hand.old }
    requires unit { units.now.unit_length ≤ 262144 }
    requires many { length units.now.units ≡ request.now.count }
    requires barred { (d : Drive) → has request.now.barred d ≡ false }
    requires new { IsNewGroup S.place_of request.now group.old }
    ensures keeps { KeepsHand (fabric_view fabric.now) hand.old hand.new }
    ensures in_order { IsInOrder S.place_of request.now group.new (slots_of group.new) }
    ensures once { AsksClosed S.place_of request.now.shape group.new.search hand.old hand.new }
    ensures full { OnOk result (length (slots_of group.new) ≡ request.now.count) }
    ensures stage { OnOk result (IsAtStage S.place_of request.now group.new (slots_of group.new)) }
    ensures none_waits { OnOk result (group.new.waiting.items ≡ []) }
    ensures placed { OnOk result (HasPlaced S.place_of S.content S.len_of S.faults request.now units.now.units group.new (slots_of group.new) hand.old hand.new) }
    ensures no_room { IsErrOf result PlaceStop.NoRoom → HasNoRoom S.place_of request.now group.new }
    ensures so_far { IsErrOf result PlaceStop.NoRoom
        → HasPlaced S.place_of S.content S.len_of S.faults request.now units.now.units group.new (slots_of group.new) hand.old hand.new }
    ensures lost { IsErrOf result PlaceStop.NoMemory → HasLost S.place_of request.now.shape (slots_of group.new) hand.old hand.new }
{
    draw_group(rt, fabric, hand, request, group);
    if group.waiting.len() < usize::from(request.count) {
        return Err(PlaceStop::NoRoom);
    }
    write_all(rt, fabric, hand, request, units, group)
}

/// Draws all slots of a group, which wait then, the first one last.
fn draw_group<S: Slot + Send + Drop, R: Wait>(
    rt: &R,
    fabric: &Fabric<S>,
    hand: &mut Hand<S>,
    request: &Request,
    group: &mut PartialGroup<S>,
)
    requires shape { (fabric_view fabric.now).shape ≡ request.now.shape }
    requires hand { IsHandOf (fabric_view fabric.now) hand.old }
    requires barred { (d : Drive) → has request.now.barred d ≡ false }
    requires new { IsNewGroup S.place_of request.now group.old }
    ensures keeps { KeepsHand (fabric_view fabric.now) hand.old hand.new }
    ensures once { AsksClosed S.place_of request.now.shape group.new.search hand.old hand.new }
    ensures drawn { IsDrawnGroup S.place_of S.content S.len_of S.faults request.now group.new hand.old hand.new }
{
    draw_all(rt, fabric, hand, request, &mut group.search);
    take_down(&mut group.search.slots, &mut group.waiting);
}

/// Moves all slots behind the others, the last one first.
fn take_down<S>(from: &mut Vec<Held<S>>, to: &mut Vec<Held<S>>)
    requires { length to.old.items + length from.old.items ≤ vec_capacity to.old }
    ensures all { to.new.items ≡ to.old.items ++ reverse from.old.items }
    ensures none { from.new.items ≡ [] }
    ensures from { vec_capacity from.new ≡ vec_capacity from.old }
    ensures to { vec_capacity to.new ≡ vec_capacity to.old }
{
    while let Some(held) = from.pop() {
        to.push_reserved(held);
    }
}

/// The slots of a group that is written.
fn finish<S: Slot + Send + Drop>(group: PartialGroup<S>) -> List<Held<S>>
    requires none { group.search.slots.items ≡ [] }
    requires none_waits { group.waiting.items ≡ [] }
    ensures { result ≡ group.written.items }
{
    let PartialGroup {
        search,
        waiting,
        written,
        failed: _,
    } = group;
    let Search {
        taken: _,
        spent: _,
        slots,
        empty: _,
    } = search;
    slots.destroy_empty();
    waiting.destroy_empty();
    List::from_vec(written)
}

/// Gives the slots of a group back, that of the last unit first, and tells which drives were of no use.
fn refuse<S: Slot + Send + Drop, R: Wait>(
    rt: &R,
    fabric: &Fabric<S>,
    hand: &mut Hand<S>,
    view: &View,
    request: &Request,
    group: PartialGroup<S>,
) -> PlaceRefusal
    requires shape { (fabric_view fabric.now).shape ≡ request.now.shape }
    requires hand { IsHandOf (fabric_view fabric.now) hand.old }
    requires in_order { IsInOrder S.place_of request.now group (slots_of group) }
    requires up { request.now.up ≡ view.now.up }
    ensures keeps { KeepsHand (fabric_view fabric.now) hand.old hand.new }
    ensures once { ReturnsOnce S.place_of request.now.shape hand.old hand.new }
    ensures no_room { IfNoRoom result (λ told. TellsNoRoom S.place_of S.content S.len_of S.faults request.now group told hand.old hand.new) }
    ensures back { GivesBack S.place_of request.now.shape (slots_of group) hand.old hand.new }
{
    let PartialGroup {
        search,
        mut waiting,
        mut written,
        failed,
    } = group;
    let Search {
        taken: _,
        spent: _,
        slots,
        empty,
    } = search;
    slots.destroy_empty();
    take_down(&mut waiting, &mut written);
    waiting.destroy_empty();
    let _most = usize::from(request.count);
    let got = written.len() as u8;
    if !release_all(rt, fabric, hand, view, written) {
        return PlaceRefusal::NoMemory;
    }
    PlaceRefusal::NoRoom(NoRoom {
        need: request.count,
        got,
        empty: List::from_vec(empty),
        failed: List::from_vec(failed),
    })
}
