//! New slots that are not used go back to their pools, and one that failed is retired.

ghost use Rattle.std.specs.Prelude.{◌≡◌, ◌<◌, ◌++◌, true, IfSome};
ghost use Rattle.std.specs.List.{AllByRecursion};
ghost use Rattle.fabric.specs.Views.{IsHandOf, fabric_view};
ghost use Rattle.slot_search.specs.Searches.{KeepsHand};
ghost use Rattle.domains.specs.Place.{IsPlaceOf};
ghost use Rattle.held_slots.specs.Slots.{drive_of, place_from};
ghost use Rattle.fabric.specs.Accounts.{Loses};
ghost use Rattle.fabric.specs.HandTurns.{AtYard};
ghost use Rattle.fabric.specs.YardTurns.{Retires};
ghost use Rattle.turn_cell.specs.Seats.{seat_view};
ghost use Rattle.placed_runs.specs.PlacedRuns.{HasFailed, HoldsLess, MayGoBack, MayGroupGoBack, RetiresOne, slots_of_groups};

use crate::run::PlacedRun;
use board::View;
use fabric::{Fabric, Hand};
use flex_io::Slot;
use held_slots::Held;
use lists::List;
use slot_search::release_all;
use std::alloc::AllocError;
use std::sync::Wait;
use striped_groups::Stripe;

/// Gives the slots of a group back, the last one first, and answers whether all went. One that is refused is lost.
pub fn give_group_back<S: Slot + Send + Drop, R: Wait>(
    rt: &R,
    fabric: &Fabric<S>,
    hand: &mut Hand<S>,
    view: &View,
    group: Stripe<S>,
) -> bool
    requires hand { IsHandOf (fabric_view fabric.now) hand.old }
    requires back { MayGoBack S.place_of (fabric_view fabric.now).shape view.now group.slots }
    ensures keeps { KeepsHand (fabric_view fabric.now) hand.old hand.new }
    ensures yard { seat_view hand.new.yard ≡ seat_view hand.old.yard }
    ensures all { result ≡ true → HoldsLess S.place_of (fabric_view fabric.now).shape group.slots hand.old hand.new }
{
    release_all(rt, fabric, hand, view, group.into_slots().into_vec())
}

/// Gives the slots of groups back, those of the last group first, and answers whether all went.
pub fn give_groups_back<S: Slot + Send + Drop, R: Wait>(
    rt: &R,
    fabric: &Fabric<S>,
    hand: &mut Hand<S>,
    view: &View,
    groups: List<Stripe<S>>,
) -> bool
    requires hand { IsHandOf (fabric_view fabric.now) hand.old }
    requires back { AllByRecursion (MayGroupGoBack S.place_of (fabric_view fabric.now).shape view.now) groups }
    ensures keeps { KeepsHand (fabric_view fabric.now) hand.old hand.new }
    ensures yard { seat_view hand.new.yard ≡ seat_view hand.old.yard }
    ensures all { result ≡ true → HoldsLess S.place_of (fabric_view fabric.now).shape (slots_of_groups groups) hand.old hand.new }
{
    let mut groups = groups.into_vec();
    let mut all = true;
    while let Some(group) = groups.pop() {
        let went = give_group_back(rt, fabric, hand, view, group);
        all = all && went;
    }
    groups.destroy_empty();
    all
}

/// Gives a run back whose inode's slot at this position, if any, could not be written: that one is retired, and the others go back in the
/// reverse order of drawing. Answers whether all went. One that is refused is lost.
pub fn give_run_back<S: Slot + Send + Drop, R: Wait>(
    rt: &R,
    fabric: &Fabric<S>,
    hand: &mut Hand<S>,
    view: &View,
    run: PlacedRun<S>,
    failed: Option<u8>,
) -> bool
    requires hand { IsHandOf (fabric_view fabric.now) hand.old }
    requires groups { AllByRecursion (MayGroupGoBack S.place_of (fabric_view fabric.now).shape view.now) run.groups }
    requires inode { MayGoBack S.place_of (fabric_view fabric.now).shape view.now run.inode.slots }
    requires failed { IfSome failed (λ position. HasFailed S.faults position run.inode.slots) }
    ensures keeps { KeepsHand (fabric_view fabric.now) hand.old hand.new }
    ensures all { result ≡ true → HoldsLess S.place_of (fabric_view fabric.now).shape (slots_of_groups run.groups ++ run.inode.slots) hand.old hand.new }
    ensures retired { result ≡ true → IfSome failed (λ position. RetiresOne S.place_of (fabric_view fabric.now).shape position run.inode.slots hand.old hand.new) }
{
    let PlacedRun { groups, inode } = run;
    let slots = inode.into_slots().into_vec();
    let inode_went = give_slots_back(rt, fabric, hand, view, slots, failed);
    let groups_went = give_groups_back(rt, fabric, hand, view, groups);
    inode_went && groups_went
}

/// Gives slots back of which the one at this position, if any, has failed, and answers whether all went.
fn give_slots_back<S: Slot + Send + Drop, R: Wait>(
    rt: &R,
    fabric: &Fabric<S>,
    hand: &mut Hand<S>,
    view: &View,
    slots: Vec<Held<S>>,
    failed: Option<u8>,
) -> bool
    requires hand { IsHandOf (fabric_view fabric.now) hand.old }
    requires back { MayGoBack S.place_of (fabric_view fabric.now).shape view.now slots.items }
    requires failed { IfSome failed (λ position. HasFailed S.faults position slots.items) }
    ensures keeps { KeepsHand (fabric_view fabric.now) hand.old hand.new }
    ensures all { result ≡ true → HoldsLess S.place_of (fabric_view fabric.now).shape slots.items hand.old hand.new }
    ensures retired { result ≡ true → IfSome failed (λ position. RetiresOne S.place_of (fabric_view fabric.now).shape position slots.items hand.old hand.new) }
{
    match failed {
        Some(position) => give_others_back(rt, fabric, hand, view, slots, position),
        None => release_all(rt, fabric, hand, view, slots),
    }
}

/// Retires the slot at the position, gives the others back, the last one first, and answers whether all went.
fn give_others_back<S: Slot + Send + Drop, R: Wait>(
    rt: &R,
    fabric: &Fabric<S>,
    hand: &mut Hand<S>,
    view: &View,
    mut slots: Vec<Held<S>>,
    position: u8,
) -> bool
    requires hand { IsHandOf (fabric_view fabric.now) hand.old }
    requires back { MayGoBack S.place_of (fabric_view fabric.now).shape view.now slots.items }
    requires failed { HasFailed S.faults position slots.items }
    ensures keeps { KeepsHand (fabric_view fabric.now) hand.old hand.new }
    ensures all { result ≡ true → HoldsLess S.place_of (fabric_view fabric.now).shape slots.items hand.old hand.new }
    ensures retired { result ≡ true → RetiresOne S.place_of (fabric_view fabric.now).shape position slots.items hand.old hand.new }
{
    let held = slots.remove(usize::from(position));
    let retired = retire(rt, fabric, hand, held);
    let went = release_all(rt, fabric, hand, view, slots);
    retired && went
}

/// Retires a slot that has failed, and answers whether it went.
fn retire<S: Slot + Send + Drop, R: Wait>(
    rt: &R,
    fabric: &Fabric<S>,
    hand: &mut Hand<S>,
    held: Held<S>,
) -> bool
    requires hand { IsHandOf (fabric_view fabric.now) hand.old }
    requires place { IsPlaceOf (fabric_view fabric.now).shape (place_from (S.place_of held)) }
    requires failed { 0 < S.faults held }
    ensures keeps { KeepsHand (fabric_view fabric.now) hand.old hand.new }
    ensures retired { result ≡ true → AtYard (fabric_view fabric.now).shape (Retires S.place_of held) hand.old hand.new }
    ensures less { result ≡ true → Loses (fabric_view fabric.now).shape (drive_of S.place_of held) hand.old hand.new }
{
    match fabric.retire(rt, hand, held) {
        Ok(()) => true,
        Err((AllocError, held)) => {
            held.spend();
            false
        }
    }
}
