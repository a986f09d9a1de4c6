//! A read of an absent file, and ranges of a group with a lost unit.

ghost use Rattle.std.specs.Prelude.{◌≡◌, ◌≤◌, IfOk};
ghost use Rattle.fabric.specs.Views.{IsHandOf, fabric_view, number_of};
ghost use Rattle.pulled_groups.specs.PullAnswers.{CanDecode};

use crate::decoding::bytes_shown;
use crate::{ReadRefusal, read};
use domains::{By, DriveSet, Group, Level, Shape};
use fabric::{Desk, Fabric, Hand, Parts};
use file_core::{FileParts, FileState, Look, Pulled, PulledGroup};
use flex_io::{OpenGate, SurePiece, SureRack};
use held_slots::spend_all;
use lists::List;
use rs_codes::Have;
use std::alloc::{AllocError, Global};
use std::sync::Wait;
use std::test::Fail;
use turn_cell::TurnCell;

/// A group of two data units of one byte, 01 and 02. The first is lost; at hand are the second, and the first correction unit.
fn group_at_hand(alloc: Global) -> Result<PulledGroup, AllocError>
    ensures { IfOk result (CanDecode 1) }
{
    let mut have = Have::new(alloc, 1);
    have.push(1, &[0x02])?;
    have.push(2, &[0x07])?;
    let group = Group {
        generation: 0,
        n: 2,
        m: 2,
        places: List::new(alloc),
    };
    Ok(PulledGroup {
        group,
        start: 0,
        have,
    })
}

/// A range of the file whose one group this is.
fn bytes_of_range(alloc: Global, offset: u64, len: u32) -> Result<List<u8>, AllocError> {
    let mut groups = Vec::new(alloc);
    groups.push(group_at_hand(alloc)?)?;
    let pulled = Pulled {
        look: Look {
            present: true,
            size: 2,
            units: 4,
            groups: 1,
            level: Level::two_copies(),
            next_generation: 2,
            inode_generation: Some(1),
            barred: DriveSet::new(),
            at: 2,
        },
        groups: List::from_vec(groups),
    };
    let shown = bytes_shown(alloc, 1, offset, len, &pulled)?;
    Ok(shown.answer)
}

#[test]
fn ranges_of_a_group_with_a_lost_unit(rt: HostRuntime) -> Result<(), Fail> {
    let rows: [(u64, u32, &[u8]); 5] = [
        (0, 2, &[0x01, 0x02]),
        (1, 1, &[0x02]),
        (1, 10, &[0x02]),
        (0, 0, &[]),
        (9, 4, &[]),
    ];
    for (offset, len, bytes) in rows {
        let shown = bytes_of_range(rt.alloc(), offset, len)?;
        assert_eq!(rt; shown.as_slice(), bytes, "{offset} {len}");
    }
    Ok(())
}

/// What a read of an absent file answers whose log has this room, and how many entries there are then.
fn read_absent<R: Wait>(
    rt: &R,
    alloc: Global,
    fabric: &Fabric<SurePiece>,
    hand: &mut Hand<SurePiece>,
    room: u32,
) -> Option<(ReadRefusal, u32)>
    requires room { room ≤ 4194304 }
    requires hand { IsHandOf (fabric_view fabric.now) hand.old }
    ensures hand { IsHandOf (fabric_view fabric.now) hand.new }
    ensures number { number_of hand.new ≡ number_of hand.old }
{
    let file = FileState::new(alloc, 0, *fabric.shape(), Level::two_copies(), room);
    let (cell, mut seats) = match TurnCell::new(alloc, file, 1) {
        Ok(made) => made,
        Err((AllocError, file)) => {
            let _count = end(file);
            return None;
        }
    };
    let Some(mut seat) = seats.pop() else {
        unreachable!()
    };
    let mut desk = Desk {
        fabric,
        hand,
        gate: &OpenGate,
        by: By { actor: 1, call: 1 },
    };
    let shown = read(rt, alloc, &cell, &mut seat, &mut desk, 0, 5);
    seats.push_reserved(seat);
    let count = end(cell.close(seats));
    Some((shown.err()?, count))
}

/// How many entries a file has at its end.
fn end(file: FileState<SurePiece>) -> u32 {
    let look = file.look();
    let FileParts {
        log: _,
        groups,
        inode,
    } = file.close();
    let mut groups = groups.into_vec();
    while let Some(group) = groups.pop() {
        let _count = spend_all(group.into_slots());
    }
    groups.destroy_empty();
    if let Some(inode) = inode {
        let _count = spend_all(inode.into_slots());
    }
    look.at
}

#[test]
fn a_read_of_an_absent_file_is_refused(rt: HostRuntime) -> Result<(), Fail> {
    let shape = Shape::new(2, 1, 1, 8);
    let mut rack = SureRack::new(rt.alloc());
    let opened = Fabric::open(rt.alloc(), shape, &mut rack, 1, 0);
    let (fabric, hands) = opened.expect(&rt, "there is memory for two slots");
    let mut hands = hands.into_vec();
    let Some(mut hand) = hands.pop() else {
        unreachable!()
    };
    let absent = read_absent(&rt, rt.alloc(), &fabric, &mut hand, 4);
    let full = read_absent(&rt, rt.alloc(), &fabric, &mut hand, 3);
    hands.push_reserved(hand);
    let Parts {
        board: _,
        yard,
        retired,
        pools: _,
    } = fabric.close(List::from_vec(hands));
    assert_eq!(rt; spend_all(yard) + spend_all(retired), 0);
    assert_eq!(rt; absent, Some((ReadRefusal::Absent, 1)));
    assert_eq!(rt; full, Some((ReadRefusal::LogFull, 0)));
    Ok(())
}
