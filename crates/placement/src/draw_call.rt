//! Slots for a group.

ghost use Rattle.std.specs.Prelude.{◌≡◌, false, IfOk, IfErr};
ghost use Rattle.domains.specs.Drive.{Drive};
ghost use Rattle.domains.specs.DriveSet.{has};
ghost use Rattle.turn_cell.specs.Seats.{seat_view};
ghost use Rattle.fabric.specs.Views.{IsHandOf, fabric_view, number_of};
ghost use Rattle.slot_search.specs.HandSeats.{TriesOnce, draw_request};
ghost use Rattle.placement.specs.Draws.{Draws, FindsNoRoom, IfNoMemory, IfNoRoom, IsSameDesk, LosesSlots};
ghost use Rattle.slot_search.specs.Searches.{KeepsHand, request_of};

use crate::refusal::{NoRoom, PlaceRefusal};
use board::View;
use domains::{DriveSet, Level};
use fabric::{Desk, Fabric, Hand};
use flex_io::{Gate, Slot};
use held_slots::Held;
use lists::List;
use slot_search::{Request, Search, draw_all, release_all};
use std::alloc::Global;
use std::sync::Wait;

/// Draws n slots for a group, from the first drives of the order of placement: allowed drives that are up in the view
/// and that the group does not use, at most k of its units on a node. A drive that is found empty is passed over. If too
/// few drives have a free slot, the slots that were drawn go back, the last one first.
pub fn draw<S: Slot + Send + Drop, G: Gate, R: Wait>(
    rt: &R,
    alloc: Global,
    desk: &mut Desk<'_, S, G>,
    level: &Level,
    view: &View,
    allowed: &DriveSet,
    used: &DriveSet,
    spin: u32,
    count: u8,
) -> Result<List<Held<S>>, PlaceRefusal>
    requires { IsHandOf (fabric_view desk.old.fabric.now) desk.old.hand.now }
    ensures hand { IsHandOf (fabric_view desk.old.fabric.now) desk.new.hand.now }
    ensures number { number_of desk.new.hand.now ≡ number_of desk.old.hand.now }
    ensures board { seat_view desk.new.hand.now.board ≡ seat_view desk.old.hand.now.board }
    ensures same { IsSameDesk desk.old desk.new }
    ensures once { TriesOnce S.place_of (fabric_view desk.old.fabric.now).shape desk.old.hand.now desk.new.hand.now }
    ensures ok { IfOk result (λ slots. Draws S.place_of
        (draw_request level.now (fabric_view desk.old.fabric.now).shape view.now allowed.now used.now spin) count slots
        desk.old.hand.now desk.new.hand.now) }
    ensures no_room { IfErr result (λ e. IfNoRoom e (λ told. FindsNoRoom S.place_of
        (draw_request level.now (fabric_view desk.old.fabric.now).shape view.now allowed.now used.now spin) count told
        desk.old.hand.now desk.new.hand.now)) }
    // Memory also runs out if a pool refuses a slot that goes back. Such a slot is lost.
    ensures no_memory { IfErr result (λ e. IfNoMemory e (LosesSlots S.place_of (fabric_view desk.old.fabric.now).shape desk.old.hand.now desk.new.hand.now)) }
{
    let request = Request::new(level, desk.fabric.shape(), view, allowed, used, spin, count);
    draw_by(rt, alloc, desk.fabric, desk.hand, view, &request)
}

/// Draws the slots of a group, or gives all back.
fn draw_by<S: Slot + Send + Drop, R: Wait>(
    rt: &R,
    alloc: Global,
    fabric: &Fabric<S>,
    hand: &mut Hand<S>,
    view: &View,
    request: &Request,
) -> Result<List<Held<S>>, PlaceRefusal>
    requires shape { (fabric_view fabric.now).shape ≡ request.now.shape }
    requires hand { IsHandOf (fabric_view fabric.now) hand.old }
    requires barred { (d : Drive) → has request.now.barred d ≡ false }
    requires up { request.now.up ≡ view.now.up }
    ensures keeps { KeepsHand (fabric_view fabric.now) hand.old hand.new }
    ensures once { TriesOnce S.place_of request.now.shape hand.old hand.new }
    ensures ok { IfOk result (λ slots. Draws S.place_of (request_of request.now) request.now.count slots hand.old hand.new) }
    ensures no_room { IfErr result (λ e. IfNoRoom e (λ told. FindsNoRoom S.place_of (request_of request.now) request.now.count told hand.old hand.new)) }
    ensures no_memory { IfErr result (λ e. IfNoMemory e (LosesSlots S.place_of request.now.shape hand.old hand.new)) }
{
    let Ok(mut search) = Search::new(alloc, request) else {
        return Err(PlaceRefusal::NoMemory);
    };
    draw_all(rt, fabric, hand, request, &mut search);
    let Search {
        taken: _,
        spent: _,
        slots,
        empty,
    } = search;
    if slots.len() >= usize::from(request.count) {
        return Ok(List::from_vec(slots));
    }
    let got = slots.len() as u8;
    if !release_all(rt, fabric, hand, view, slots) {
        return Err(PlaceRefusal::NoMemory);
    }
    Err(PlaceRefusal::NoRoom(NoRoom {
        need: request.count,
        got,
        empty: List::from_vec(empty),
        failed: List::new(alloc),
    }))
}
