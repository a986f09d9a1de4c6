//! A new group on new slots.

ghost use Rattle.std.specs.Prelude.{◌≡◌, ◌*◌, ◌≤◌, IfOk, IfErr, OnOk};
ghost use Rattle.domains.specs.Shape.{IsShape};
ghost use Rattle.rs_codes.specs.Codes.{IsCodeSize};
ghost use Rattle.fabric.specs.Views.{IsHandOf, fabric_view};
ghost use Rattle.slot_search.specs.Searches.{KeepsHand};
ghost use Rattle.placement.specs.Draws.{IfNoRoom, IsSameDesk};
ghost use Rattle.write_rule.specs.NewBytes.{bytes_of, padded_slice};
ghost use Rattle.placed_runs.specs.PlacedRuns.{FindsNoGroup, IsFreshGroup, MayGoBack, PlacesGroup};

use crate::terms::RunTerms;
use domains::DriveSet;
use fabric::Desk;
use flex_io::{Gate, Slot};
use held_slots::Held;
use lists::List;
use placement::{PlaceRefusal, place};
use slot_search::release_all;
use std::alloc::{AllocError, Global};
use std::sync::Wait;
use striped_groups::Stripe;
use write_rule::NewBytes;
use write_units::group_units;

/// Places the units of a new group of `n` data units, whose data are the new bytes from `from` on.
pub(crate) fn place_group<S: Slot + Send + Drop, G: Gate, R: Wait>(
    rt: &R,
    alloc: Global,
    desk: &mut Desk<'_, S, G>,
    terms: &RunTerms,
    spin: u32,
    bytes: &NewBytes<'_>,
    from: usize,
    n: u8,
) -> Result<Stripe<S>, PlaceRefusal>
    requires hand { IsHandOf (fabric_view desk.old.fabric.now) desk.old.hand.now }
    requires cluster { IsShape (fabric_view desk.old.fabric.now).shape }
    requires size { IsCodeSize n terms.now.level.m }
    requires wide { terms.now.unit ≤ 131072 }
    ensures keeps { KeepsHand (fabric_view desk.old.fabric.now) desk.old.hand.now desk.new.hand.now }
    ensures same { IsSameDesk desk.old desk.new }
    ensures placed { IfOk result (λ g. PlacesGroup S.place_of S.content S.len_of S.faults terms.now (fabric_view desk.old.fabric.now).shape spin n
        (padded_slice (bytes_of bytes.now) from (n * terms.now.unit)) g desk.old.hand.now desk.new.hand.now) }
    ensures no_room { IfErr result (λ e. IfNoRoom e (λ told. FindsNoGroup S.place_of S.content S.len_of S.faults terms.now (fabric_view desk.old.fabric.now).shape spin n
        (padded_slice (bytes_of bytes.now) from (n * terms.now.unit)) told desk.old.hand.now desk.new.hand.now)) }
{
    let m = terms.level.m();
    let Ok(units) = group_units(alloc, bytes, from, terms.unit, n, m) else {
        return Err(PlaceRefusal::NoMemory);
    };
    let none = DriveSet::new();
    match place(
        rt,
        alloc,
        desk,
        &terms.level,
        &terms.view,
        &terms.usable,
        &none,
        spin,
        &units,
    ) {
        Ok(slots) => on_slots(rt, alloc, desk, terms, n, m, slots),
        Err(refusal) => Err(refusal),
    }
}

/// A group of `n` data and `m` correction units on its slots. If memory runs out they go back.
pub(crate) fn on_slots<S: Slot + Send + Drop, G: Gate, R: Wait>(
    rt: &R,
    alloc: Global,
    desk: &mut Desk<'_, S, G>,
    terms: &RunTerms,
    n: u8,
    m: u8,
    slots: List<Held<S>>,
) -> Result<Stripe<S>, PlaceRefusal>
    requires hand { IsHandOf (fabric_view desk.old.fabric.now) desk.old.hand.now }
    requires cluster { IsShape (fabric_view desk.old.fabric.now).shape }
    requires back { MayGoBack S.place_of (fabric_view desk.old.fabric.now).shape terms.now.view slots }
    ensures keeps { KeepsHand (fabric_view desk.old.fabric.now) desk.old.hand.now desk.new.hand.now }
    ensures same { IsSameDesk desk.old desk.new }
    ensures group { IfOk result (λ g. IsFreshGroup S.place_of n m g) }
    ensures slots { IfOk result (λ g. g.slots ≡ slots) }
    ensures kept { OnOk result (desk.new.hand.now ≡ desk.old.hand.now) }
    ensures memory { IfErr result (λ e. e ≡ PlaceRefusal.NoMemory) }
{
    match Stripe::new(alloc, n, m, slots) {
        Ok(group) => Ok(group),
        Err((AllocError, slots)) => {
            release_all(rt, desk.fabric, desk.hand, &terms.view, slots.into_vec());
            Err(PlaceRefusal::NoMemory)
        }
    }
}
