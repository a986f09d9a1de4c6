//! What a hand does with the slots of a fabric.

ghost use Rattle.std.specs.Prelude.{◌≡◌, true};
ghost use Rattle.domains.specs.Shape.{is_of};
ghost use Rattle.fabric.specs.Views.{IsHandOf, fabric_view, number_of};

use board::View;
use domains::{DriveId, DriveSet, Shape};
use fabric::{Fabric, Hand, Parts};
use flex_io::{SurePiece, SureRack};
use held_slots::{Empty, spend_all};
use lists::List;
use std::sync::Wait;
use std::test::Fail;

/// Two nodes of two drives with two slots each.
fn small() -> Shape
    ensures { result ≡ record { nodes = 2; drives = 2; slots = 2; unit = 8 } }
{
    Shape::new(2, 2, 2, 8)
}

/// Draws a slot of the drive and releases it, and returns whether both were done.
fn draw_and_release<R: Wait>(
    rt: &R,
    fabric: &Fabric<SurePiece>,
    hand: &mut Hand<SurePiece>,
    view: &View,
    drive: DriveId,
) -> bool
    requires hand { IsHandOf (fabric_view fabric.now) hand.old }
    requires of { is_of (fabric_view fabric.now).shape drive ≡ true }
    ensures hand { IsHandOf (fabric_view fabric.now) hand.new }
    ensures number { number_of hand.new ≡ number_of hand.old }
{
    let Ok(held) = fabric.draw(rt, hand, drive) else {
        return false;
    };
    match fabric.release(rt, hand, view, held) {
        Ok(()) => true,
        Err((_error, held)) => {
            let _slot = held.spend();
            false
        }
    }
}

/// Takes a slot of the drive from the yard and puts it back, and returns whether both were done.
fn take_and_put<R: Wait>(
    rt: &R,
    fabric: &Fabric<SurePiece>,
    hand: &mut Hand<SurePiece>,
    drive: DriveId,
) -> bool
    requires hand { IsHandOf (fabric_view fabric.now) hand.old }
    requires of { is_of (fabric_view fabric.now).shape drive ≡ true }
    ensures hand { IsHandOf (fabric_view fabric.now) hand.new }
    ensures number { number_of hand.new ≡ number_of hand.old }
{
    let Ok(held) = fabric.yard_take(rt, hand, drive) else {
        return false;
    };
    match fabric.yard_put(rt, hand, held) {
        Ok(()) => true,
        Err((_error, held)) => {
            let _slot = held.spend();
            false
        }
    }
}

/// How many turns had passed where no slot is free. One that is drawn is spent.
fn empty_turn<R: Wait>(
    rt: &R,
    fabric: &Fabric<SurePiece>,
    hand: &mut Hand<SurePiece>,
    drive: DriveId,
) -> Option<u64>
    requires hand { IsHandOf (fabric_view fabric.now) hand.old }
    requires of { is_of (fabric_view fabric.now).shape drive ≡ true }
    ensures hand { IsHandOf (fabric_view fabric.now) hand.new }
    ensures number { number_of hand.new ≡ number_of hand.old }
{
    match fabric.draw(rt, hand, drive) {
        Ok(held) => {
            let _slot = held.spend();
            None
        }
        Err(Empty { turn }) => Some(turn),
    }
}

/// What `wear_out` found.
#[derive(Drop)]
struct Outcome {
    free: [u32; 4],
    done: [bool; 4],
    empty: Option<u64>,
    retired: Option<u32>,
}

/// Releases slots of the drive while it is up, then down, then gone, and then retires it.
fn wear_out<R: Wait>(
    rt: &R,
    fabric: &Fabric<SurePiece>,
    hand: &mut Hand<SurePiece>,
    drive: DriveId,
) -> Outcome
    requires hand { IsHandOf (fabric_view fabric.now) hand.old }
    requires of { is_of (fabric_view fabric.now).shape drive ≡ true }
    ensures hand { IsHandOf (fabric_view fabric.now) hand.new }
    ensures number { number_of hand.new ≡ number_of hand.old }
{
    let none = DriveSet::new();
    let mut only = DriveSet::new();
    only.add(drive);
    let up = View {
        epoch: 0,
        up: only,
        gone: none,
    };
    let down = View {
        epoch: 1,
        up: none,
        gone: none,
    };
    let gone = View {
        epoch: 2,
        up: none,
        gone: only,
    };
    let free_first = fabric.free(rt, hand, drive);
    let done_up = draw_and_release(rt, fabric, hand, &up, drive);
    let free_up = fabric.free(rt, hand, drive);
    let done_down = draw_and_release(rt, fabric, hand, &down, drive);
    let free_down = fabric.free(rt, hand, drive);
    let done_yard = take_and_put(rt, fabric, hand, drive);
    let done_gone = draw_and_release(rt, fabric, hand, &gone, drive);
    let free_gone = fabric.free(rt, hand, drive);
    let empty = empty_turn(rt, fabric, hand, drive);
    let retired = fabric.retire_drive(rt, hand, drive);
    Outcome {
        free: [free_first, free_up, free_down, free_gone],
        done: [done_up, done_down, done_yard, done_gone],
        empty,
        retired: retired.ok(),
    }
}

#[test]
fn a_slot_goes_where_the_view_has_its_drive(rt: HostRuntime) -> Result<(), Fail> {
    let mut rack = SureRack::new(rt.alloc());
    let opened = Fabric::open(rt.alloc(), small(), &mut rack, 1, 0);
    let (fabric, hands) = opened.expect(&rt, "there is memory for eight slots");
    let mut hands = hands.into_vec();
    let Some(mut hand) = hands.pop() else {
        unreachable!()
    };
    let outcome = wear_out(&rt, &fabric, &mut hand, DriveId::new(2, 1));
    hands.push_reserved(hand);
    let Parts {
        board: _,
        yard,
        retired,
        pools,
    } = fabric.close(List::from_vec(hands));
    assert_eq!(rt; (spend_all(yard), spend_all(retired)), (0, 2));
    assert_eq!(rt; outcome.done, [true; 4]);
    assert_eq!(rt; outcome.free, [2, 2, 1, 0]);
    assert_eq!(rt; outcome.empty, Some(8));
    assert_eq!(rt; outcome.retired, Some(1));
    let mut free = [9; 4];
    for (place, pool) in pools.into_vec().into_iter().enumerate() {
        free[place % 4] = pool.free_count();
    }
    assert_eq!(rt; free, [2, 2, 0, 2]);
    Ok(())
}
