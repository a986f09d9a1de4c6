//! A fabric from its beginning to its end.

use domains::Shape;
use fabric::{Fabric, OpenFault, Parts};
use flex_io::{Fail as FailedCall, MemoryRack, RackCall, RawPlace, Slot, SurePiece, SureRack};
use held_slots::spend_all;
use lists::List;
use slot_pool::Pool;
use std::alloc::Global;
use std::test::Fail;
use std::thread::{Threads, join};

/// Two nodes of two drives with two slots each.
fn small() -> Shape {
    Shape::new(2, 2, 2, 8)
}

/// How many slots wait, and how many are retired. All are spent, but for those in pools.
fn counts<S: Slot + Send + Drop>(parts: Parts<S>) -> (usize, usize) {
    let Parts {
        board: _,
        yard,
        retired,
        pools: _,
    } = parts;
    (spend_all(yard), spend_all(retired))
}

/// Why such a fabric is not opened. One that is opened is closed at once.
fn fault_of(alloc: Global, rack: &mut MemoryRack) -> Option<OpenFault> {
    match Fabric::open(alloc, small(), rack, 2, 16) {
        Ok((fabric, hands)) => {
            let _counts = counts(fabric.close(hands));
            None
        }
        Err(fault) => Some(fault),
    }
}

/// Node, drive and number of the slot on top, which is spent.
fn top(pool: &mut Pool<SurePiece>) -> Option<(u8, u8, u16)> {
    let Ok(held) = pool.take() else {
        return None;
    };
    let at = held.spend().place();
    Some((at.node, at.drive, at.slot))
}

#[test]
fn a_new_fabric_has_all_slots_free_with_slot_0_on_top(rt: HostRuntime) -> Result<(), Fail> {
    let mut rack = SureRack::new(rt.alloc());
    let opened = Fabric::open(rt.alloc(), small(), &mut rack, 2, 16);
    let (fabric, hands) = opened.expect(&rt, "there is memory for eight slots");
    assert_eq!(rt; hands.len(), 2);
    let Parts {
        board: _,
        yard,
        retired,
        pools,
    } = fabric.close(hands);
    assert_eq!(rt; (spend_all(yard), spend_all(retired)), (0, 0));
    assert_eq!(rt; pools.len(), 4);
    let drives = [(1, 1), (1, 2), (2, 1), (2, 2)];
    for (mut pool, (node, drive)) in pools.into_vec().into_iter().zip(drives) {
        assert_eq!(rt; pool.free_count(), 2);
        assert_eq!(rt; top(&mut pool), Some((node, drive, 0)));
    }
    Ok(())
}

#[test]
fn what_was_taken_comes_back_if_the_rack_fails(rt: HostRuntime) -> Result<(), Fail> {
    let last = FailedCall {
        place: RawPlace {
            node: 2,
            drive: 2,
            slot: 1,
        },
        call: RackCall::Take,
        nth: 1,
    };
    let plan = List::from_vec(vec![in rt.alloc(); last]?);
    let mut rack = MemoryRack::new(rt.alloc(), plan);
    assert_eq!(rt; fault_of(rt.alloc(), &mut rack), Some(OpenFault::Rack));
    assert_eq!(rt; rack.back().len(), 7);
    Ok(())
}

/// What two threads see of one fabric: its nodes, and the drives of each.
fn look_twice<R: Threads + Sync>(rt: &R, fabric: &Fabric<SurePiece>) -> (u8, u8) {
    join(
        rt,
        move || -> u8 { fabric.shape().nodes() },
        move || -> u8 { fabric.shape().drives() },
    )
}

#[test]
fn two_threads_share_a_fabric(rt: HostRuntime) -> Result<(), Fail> {
    let mut rack = SureRack::new(rt.alloc());
    let opened = Fabric::open(rt.alloc(), small(), &mut rack, 1, 0);
    let (fabric, hands) = opened.expect(&rt, "there is memory for eight slots");
    assert_eq!(rt; look_twice(&rt, &fabric), (2, 2));
    assert_eq!(rt; counts(fabric.close(hands)), (0, 0));
    Ok(())
}
