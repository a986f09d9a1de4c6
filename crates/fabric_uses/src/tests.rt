ghost use Rattle.std.specs.Prelude.{◌≡◌, true};
ghost use Rattle.domains.specs.Shape.{is_of};
ghost use Rattle.fabric.specs.Views.{IsHandOf, fabric_view, number_of};

use crate::{draw_and_read, trade_on_threads};
use board::View;
use domains::{DriveId, DriveSet, Shape};
use fabric::{Fabric, Hand, Parts};
use flex_io::{Slot, SurePiece, SureRack};
use held_slots::spend_all;
use lists::List;
use std::sync::Wait;
use std::test::Fail;

/// Of four drives the second is down, the third gone, and the others up.
fn mixed_view() -> View {
    let mut up = DriveSet::new();
    up.add(DriveId::new(1, 1));
    up.add(DriveId::new(2, 2));
    let mut gone = DriveSet::new();
    gone.add(DriveId::new(2, 1));
    View { epoch: 0, up, gone }
}

#[test]
fn four_threads_leave_each_drive_all_its_slots(rt: HostRuntime) -> Result<(), Fail> {
    let shape = Shape::new(2, 2, 3, 8);
    let mut rack = SureRack::new(rt.alloc());
    let parts = trade_on_threads(&rt, rt.alloc(), shape, &mut rack, 4, mixed_view(), 50)?;
    let Parts {
        board: _,
        yard,
        retired,
        pools,
    } = parts;
    assert_eq!(rt;
        (spend_all(yard), spend_all(retired), pools.len()),
        (3, 3, 4)
    );
    for (pool, free) in pools.as_slice().iter().zip([3, 0, 0, 3].iter()) {
        assert_eq!(rt; pool.free_count(), *free);
    }
    Ok(())
}

/// Draws a slot of the drive, writes the bytes to it and releases it, and returns whether all was done.
fn write_one<R: Wait>(
    rt: &R,
    fabric: &Fabric<SurePiece>,
    hand: &mut Hand<SurePiece>,
    drive: DriveId,
) -> bool
    requires hand { IsHandOf (fabric_view fabric.now) hand.old }
    requires of { is_of (fabric_view fabric.now).shape drive ≡ true }
    ensures hand { IsHandOf (fabric_view fabric.now) hand.new }
    ensures number { number_of hand.new ≡ number_of hand.old }
{
    let Ok(mut held) = fabric.draw(rt, hand, drive) else {
        return false;
    };
    let written = held.slot().write(&[7, 8, 9]).is_ok();
    let mut up = DriveSet::new();
    up.add(drive);
    let view = View {
        epoch: 0,
        up,
        gone: DriveSet::new(),
    };
    match fabric.release(rt, hand, &view, held) {
        Ok(()) => written,
        Err((_error, held)) => {
            let _slot = held.spend();
            false
        }
    }
}

#[test]
fn a_hand_reads_what_a_pool_kept(rt: HostRuntime) -> Result<(), Fail> {
    let mut rack = SureRack::new(rt.alloc());
    let opened = Fabric::open(rt.alloc(), Shape::new(1, 1, 1, 8), &mut rack, 1, 0);
    let (fabric, hands) = opened.expect(&rt, "there is memory for a slot");
    let mut hands = hands.into_vec();
    let Some(mut hand) = hands.pop() else {
        unreachable!()
    };
    let drive = DriveId::new(1, 1);
    let mut bytes = [0; 3];
    let written = write_one(&rt, &fabric, &mut hand, drive);
    let held = draw_and_read(&rt, &rack, &fabric, &mut hand, drive, &mut bytes);
    assert_eq!(rt;
        (written, held.map(|held| held.spend()).is_some()),
        (true, true)
    );
    assert_eq!(rt; bytes, [7, 8, 9]);
    hands.push_reserved(hand);
    let Parts {
        board: _,
        yard,
        retired,
        pools: _,
    } = fabric.close(List::from_vec(hands));
    assert_eq!(rt; (spend_all(yard), spend_all(retired)), (0, 0));
    Ok(())
}
