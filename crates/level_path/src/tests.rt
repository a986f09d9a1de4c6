//! A request for a level of an absent file.

ghost use Rattle.std.specs.Prelude.{◌≡◌, ◌≤◌};
ghost use Rattle.fabric.specs.Views.{IsHandOf, fabric_view, number_of};

use crate::{LevelRefusal, set_level};
use domains::{By, Level, Shape};
use fabric::{Desk, Fabric, Hand, Parts};
use file_core::{FileParts, FileState};
use flex_io::{OpenGate, SurePiece, SureRack};
use held_slots::spend_all;
use lists::List;
use std::alloc::{AllocError, Global};
use std::sync::Wait;
use std::test::Fail;
use turn_cell::TurnCell;

/// What a request for a level of an absent file answers whose log has this room, and how many entries there are then.
fn set_absent<R: Wait>(
    rt: &R,
    alloc: Global,
    fabric: &Fabric<SurePiece>,
    hand: &mut Hand<SurePiece>,
    room: u32,
) -> Option<(LevelRefusal, u32)>
    requires room { room ≤ 4194304 }
    requires hand { IsHandOf (fabric_view fabric.now) hand.old }
    ensures hand { IsHandOf (fabric_view fabric.now) hand.new }
    ensures number { number_of hand.new ≡ number_of hand.old }
{
    let file = FileState::new(alloc, 0, *fabric.shape(), Level::two_copies(), room);
    let (cell, mut seats) = match TurnCell::new(alloc, file, 1) {
        Ok(made) => made,
        Err((AllocError, file)) => {
            let _count = end(file);
            return None;
        }
    };
    let Some(mut seat) = seats.pop() else {
        unreachable!()
    };
    let mut desk = Desk {
        fabric,
        hand,
        gate: &OpenGate,
        by: By { actor: 1, call: 1 },
    };
    let set = set_level(rt, &cell, &mut seat, &mut desk, Level::two_copies());
    seats.push_reserved(seat);
    let count = end(cell.close(seats));
    Some((set.err()?, count))
}

/// How many entries a file has at its end.
fn end(file: FileState<SurePiece>) -> u32 {
    let look = file.look();
    let FileParts {
        log: _,
        groups,
        inode,
    } = file.close();
    let mut groups = groups.into_vec();
    while let Some(group) = groups.pop() {
        let _count = spend_all(group.into_slots());
    }
    groups.destroy_empty();
    if let Some(inode) = inode {
        let _count = spend_all(inode.into_slots());
    }
    look.at
}

#[test]
fn an_absent_file_gets_no_level(rt: HostRuntime) -> Result<(), Fail> {
    let shape = Shape::new(2, 1, 1, 8);
    let mut rack = SureRack::new(rt.alloc());
    let opened = Fabric::open(rt.alloc(), shape, &mut rack, 1, 0);
    let (fabric, hands) = opened.expect(&rt, "there is memory for two slots");
    let mut hands = hands.into_vec();
    let Some(mut hand) = hands.pop() else {
        unreachable!()
    };
    let absent = set_absent(&rt, rt.alloc(), &fabric, &mut hand, 4);
    let full = set_absent(&rt, rt.alloc(), &fabric, &mut hand, 3);
    hands.push_reserved(hand);
    let Parts {
        board: _,
        yard,
        retired,
        pools: _,
    } = fabric.close(List::from_vec(hands));
    assert_eq!(rt; spend_all(yard) + spend_all(retired), 0);
    assert_eq!(rt; absent, Some((LevelRefusal::Absent, 1)));
    assert_eq!(rt; full, Some((LevelRefusal::LogFull, 0)));
    Ok(())
}
