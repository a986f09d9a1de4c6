//! The slots of an inode.

ghost use Rattle.std.specs.Prelude.{◌≡◌, ◌<◌, IfOk, IfErr};
ghost use Rattle.domains.specs.Shape.{IsShape};
ghost use Rattle.fabric.specs.Views.{IsHandOf, fabric_view};
ghost use Rattle.slot_search.specs.Searches.{KeepsHand};
ghost use Rattle.placement.specs.Draws.{IfNoRoom, IsSameDesk};
ghost use Rattle.placed_runs.specs.PlacedRuns.{DrawsInode, FindsNoInode};

use crate::group::on_slots;
use crate::terms::RunTerms;
use domains::DriveSet;
use fabric::Desk;
use flex_io::{Gate, Slot};
use placement::{PlaceRefusal, draw};
use std::alloc::Global;
use std::sync::Wait;
use striped_groups::Stripe;

/// Draws slots for an inode, which is a mirror at the level.
pub(crate) fn draw_inode<S: Slot + Send + Drop, G: Gate, R: Wait>(
    rt: &R,
    alloc: Global,
    desk: &mut Desk<'_, S, G>,
    terms: &RunTerms,
    spin: u32,
) -> Result<Stripe<S>, PlaceRefusal>
    requires hand { IsHandOf (fabric_view desk.old.fabric.now) desk.old.hand.now }
    requires cluster { IsShape (fabric_view desk.old.fabric.now).shape }
    ensures keeps { KeepsHand (fabric_view desk.old.fabric.now) desk.old.hand.now desk.new.hand.now }
    ensures same { IsSameDesk desk.old desk.new }
    ensures drawn { IfOk result (λ inode. DrawsInode S.place_of terms.now (fabric_view desk.old.fabric.now).shape spin inode desk.old.hand.now desk.new.hand.now) }
    ensures no_room { IfErr result (λ e. IfNoRoom e (λ told. FindsNoInode S.place_of terms.now (fabric_view desk.old.fabric.now).shape spin told
        desk.old.hand.now desk.new.hand.now)) }
{
    let m = terms.level.m();
    let none = DriveSet::new();
    match draw(
        rt,
        alloc,
        desk,
        &terms.level,
        &terms.view,
        &terms.usable,
        &none,
        spin,
        m + 1,
    ) {
        Ok(slots) => on_slots(rt, alloc, desk, terms, 1, m, slots),
        Err(refusal) => Err(refusal),
    }
}
