//! What becomes of slots that are not used.

ghost use Rattle.std.specs.Prelude.{◌≡◌, true, false};
ghost use Rattle.domains.specs.Drive.{AreApart, Drive, is_in};
ghost use Rattle.domains.specs.DriveSet.{has};
ghost use Rattle.domains.specs.Shape.{is_of};
ghost use Rattle.held_slots.specs.Slots.{drive_of, place_from};
ghost use Rattle.domains.specs.Place.{IsPlaceOf};
ghost use Rattle.turn_cell.specs.Seats.{seat_view};
ghost use Rattle.fabric.specs.Views.{IsHandOf, fabric_view, seat_on};
ghost use Rattle.slot_search.specs.HandSeats.{AreOfCluster, ReturnsOnce, drives_of_all};
ghost use Rattle.slot_search.specs.Searches.{GivesAllBack, GivesBack, KeepsHand, ReleasesOne};

use board::View;
use fabric::{Fabric, Hand};
use flex_io::Slot;
use held_slots::Held;
use std::sync::Wait;

/// Gives slots back to the pools of their drives, the last one first, and answers whether all went. One that is refused
/// is lost.
pub fn release_all<S: Slot + Send + Drop, R: Wait>(
    rt: &R,
    fabric: &Fabric<S>,
    hand: &mut Hand<S>,
    view: &View,
    mut slots: Vec<Held<S>>,
) -> bool
    requires hand { IsHandOf (fabric_view fabric.now) hand.old }
    requires places { AreOfCluster S.place_of (fabric_view fabric.now).shape slots.items }
    requires apart { AreApart (drives_of_all S.place_of slots.items) }
    requires up { (d : Drive) → is_in (drives_of_all S.place_of slots.items) d ≡ true → has view.now.up d ≡ true }
    ensures keeps { KeepsHand (fabric_view fabric.now) hand.old hand.new }
    ensures yard { seat_view hand.new.yard ≡ seat_view hand.old.yard }
    ensures others { (e : Drive) → is_of (fabric_view fabric.now).shape e ≡ true → is_in (drives_of_all S.place_of slots.items) e ≡ false
        → seat_on (fabric_view fabric.now).shape hand.new e ≡ seat_on (fabric_view fabric.now).shape hand.old e }
    ensures once { ReturnsOnce S.place_of (fabric_view fabric.now).shape hand.old hand.new }
    ensures back { GivesBack S.place_of (fabric_view fabric.now).shape slots.items hand.old hand.new }
    ensures all_back { result ≡ true → GivesAllBack S.place_of (fabric_view fabric.now).shape slots.items hand.old hand.new }
{
    let mut all_back = true;
    while let Some(held) = slots.pop() {
        let back = release(rt, fabric, hand, view, held);
        all_back = all_back && back;
    }
    slots.destroy_empty();
    all_back
}

/// Gives a slot back to the pool of its drive, and answers whether it went. If it is refused, it is lost.
fn release<S: Slot + Send + Drop, R: Wait>(
    rt: &R,
    fabric: &Fabric<S>,
    hand: &mut Hand<S>,
    view: &View,
    held: Held<S>,
) -> bool
    requires hand { IsHandOf (fabric_view fabric.now) hand.old }
    requires place { IsPlaceOf (fabric_view fabric.now).shape (place_from (S.place_of held)) }
    requires up { has view.now.up (drive_of S.place_of held) ≡ true }
    ensures { ReleasesOne S.place_of (fabric_view fabric.now) held result hand.old hand.new }
{
    match fabric.release(rt, hand, view, held) {
        Ok(()) => true,
        Err((_error, held)) => {
            held.spend();
            false
        }
    }
}
