//! The slots of a file that is gone go back.

ghost use Rattle.std.specs.Prelude.{◌≡◌, true, ◌++◌, reverse};
ghost use Rattle.domains.specs.Place.{IsPlaceOf};
ghost use Rattle.held_slots.specs.Slots.{place_from};
ghost use Rattle.fabric.specs.Views.{IsHandOf, fabric_view};
ghost use Rattle.slot_search.specs.HandSeats.{AreOfCluster};
ghost use Rattle.slot_search.specs.Searches.{KeepsHand};
ghost use Rattle.write_path.specs.Releases.{IsReleased, ReleasesEach, slots_in};

use board::View;
use fabric::{Fabric, Hand};
use file_core::{DeletedSlots, Stripe};
use flex_io::Slot;
use held_slots::Held;
use lists::List;
use std::alloc::AllocError;
use std::sync::Wait;

/// Releases the slots of a deleted file, the groups' in map order and then the inode's, and answers whether all went. One that is
/// refused is lost.
pub(crate) fn release_deleted<S: Slot + Send + Drop, R: Wait>(
    rt: &R,
    fabric: &Fabric<S>,
    hand: &mut Hand<S>,
    view: &View,
    deleted: DeletedSlots<S>,
) -> bool
    requires hand { IsHandOf (fabric_view fabric.now) hand.old }
    requires places { AreOfCluster S.place_of (fabric_view fabric.now).shape (slots_in deleted.groups ++ deleted.inode.slots) }
    ensures keeps { KeepsHand (fabric_view fabric.now) hand.old hand.new }
    ensures all { result ≡ true → ReleasesEach S.place_of (slots_in deleted.groups ++ deleted.inode.slots) (fabric_view fabric.now).shape view.now hand.old hand.new }
{
    let DeletedSlots { groups, inode } = deleted;
    let groups = release_groups(rt, fabric, hand, view, groups);
    let inode = release_slots(rt, fabric, hand, view, inode.into_slots());
    groups && inode
}

/// Releases the slots of the groups, in order.
fn release_groups<S: Slot + Send + Drop, R: Wait>(
    rt: &R,
    fabric: &Fabric<S>,
    hand: &mut Hand<S>,
    view: &View,
    groups: List<Stripe<S>>,
) -> bool
    requires hand { IsHandOf (fabric_view fabric.now) hand.old }
    requires places { AreOfCluster S.place_of (fabric_view fabric.now).shape (slots_in groups) }
    ensures keeps { KeepsHand (fabric_view fabric.now) hand.old hand.new }
    ensures all { result ≡ true → ReleasesEach S.place_of (slots_in groups) (fabric_view fabric.now).shape view.now hand.old hand.new }
{
    let mut groups = groups.into_vec();
    groups.reverse();
    release_groups_back(rt, fabric, hand, view, groups)
}

/// Releases the slots of the groups, of the last group first.
fn release_groups_back<S: Slot + Send + Drop, R: Wait>(
    rt: &R,
    fabric: &Fabric<S>,
    hand: &mut Hand<S>,
    view: &View,
    mut groups: Vec<Stripe<S>>,
) -> bool
    requires hand { IsHandOf (fabric_view fabric.now) hand.old }
    requires places { AreOfCluster S.place_of (fabric_view fabric.now).shape (slots_in (reverse groups.items)) }
    ensures keeps { KeepsHand (fabric_view fabric.now) hand.old hand.new }
    ensures all { result ≡ true → ReleasesEach S.place_of (slots_in (reverse groups.items)) (fabric_view fabric.now).shape view.now hand.old hand.new }
{
    let mut all = true;
    while let Some(group) = groups.pop() {
        let went = release_slots(rt, fabric, hand, view, group.into_slots());
        all = all && went;
    }
    groups.destroy_empty();
    all
}

/// Releases the slots, in order, by what the view says of their drives.
fn release_slots<S: Slot + Send + Drop, R: Wait>(
    rt: &R,
    fabric: &Fabric<S>,
    hand: &mut Hand<S>,
    view: &View,
    slots: List<Held<S>>,
) -> bool
    requires hand { IsHandOf (fabric_view fabric.now) hand.old }
    requires places { AreOfCluster S.place_of (fabric_view fabric.now).shape slots }
    ensures keeps { KeepsHand (fabric_view fabric.now) hand.old hand.new }
    ensures all { result ≡ true → ReleasesEach S.place_of slots (fabric_view fabric.now).shape view.now hand.old hand.new }
{
    let mut slots = slots.into_vec();
    slots.reverse();
    release_slots_back(rt, fabric, hand, view, slots)
}

/// Releases the slots, the last one first.
fn release_slots_back<S: Slot + Send + Drop, R: Wait>(
    rt: &R,
    fabric: &Fabric<S>,
    hand: &mut Hand<S>,
    view: &View,
    mut slots: Vec<Held<S>>,
) -> bool
    requires hand { IsHandOf (fabric_view fabric.now) hand.old }
    requires places { AreOfCluster S.place_of (fabric_view fabric.now).shape (reverse slots.items) }
    ensures keeps { KeepsHand (fabric_view fabric.now) hand.old hand.new }
    ensures all { result ≡ true → ReleasesEach S.place_of (reverse slots.items) (fabric_view fabric.now).shape view.now hand.old hand.new }
{
    let mut all = true;
    while let Some(held) = slots.pop() {
        let went = release_slot(rt, fabric, hand, view, held);
        all = all && went;
    }
    slots.destroy_empty();
    all
}

/// Releases a slot, and answers whether it went.
fn release_slot<S: Slot + Send + Drop, R: Wait>(
    rt: &R,
    fabric: &Fabric<S>,
    hand: &mut Hand<S>,
    view: &View,
    held: Held<S>,
) -> bool
    requires hand { IsHandOf (fabric_view fabric.now) hand.old }
    requires place { IsPlaceOf (fabric_view fabric.now).shape (place_from (S.place_of held)) }
    ensures keeps { KeepsHand (fabric_view fabric.now) hand.old hand.new }
    ensures released { result ≡ true → IsReleased S.place_of (fabric_view fabric.now).shape view.now held hand.old hand.new }
{
    match fabric.release(rt, hand, view, held) {
        Ok(()) => true,
        Err((AllocError, held)) => {
            held.spend();
            false
        }
    }
}
