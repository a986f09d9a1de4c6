//! Slots drawn and units placed on small clusters, over racks in memory.

ghost use Rattle.std.specs.Prelude.{◌≡◌, ◌≤◌};
ghost use Rattle.fabric.specs.Views.{IsHandOf, fabric_view, number_of};

use board::View;
use domains::{By, DriveId, DriveSet, Level, Shape};
use fabric::{Desk, Fabric, Hand, Parts};
use flex_io::{
    Fail as PlannedFailure, MemoryPiece, MemoryRack, OpenGate, RackCall, RawPlace, Slot,
};
use held_slots::{Held, spend_all};
use lists::List;
use placement::{EmptyAt, NoRoom, PlaceRefusal, draw, place};
use rs_codes::Units;
use std::alloc::{AllocError, Global};
use std::sync::Wait;
use std::test::Fail;

/// All drives are up.
fn all_up(shape: Shape) -> View {
    View {
        epoch: 0,
        up: DriveSet::all(shape),
        gone: DriveSet::new(),
    }
}

/// Draws `count` slots for a new group, on any drive.
fn draw_slots<R: Wait>(
    rt: &R,
    alloc: Global,
    fabric: &Fabric<MemoryPiece>,
    hand: &mut Hand<MemoryPiece>,
    level: Level,
    spin: u32,
    count: u8,
) -> Result<List<Held<MemoryPiece>>, PlaceRefusal>
    requires { IsHandOf (fabric_view fabric.now) hand.old }
    ensures hand { IsHandOf (fabric_view fabric.now) hand.new }
    ensures number { number_of hand.new ≡ number_of hand.old }
{
    let view = all_up(*fabric.shape());
    let mut desk = Desk {
        fabric,
        hand,
        gate: &OpenGate,
        by: By { actor: 1, call: 1 },
    };
    let used = DriveSet::new();
    draw(
        rt, alloc, &mut desk, &level, &view, &view.up, &used, spin, count,
    )
}

/// Places units for a new group, on any drive.
fn place_units<R: Wait>(
    rt: &R,
    alloc: Global,
    fabric: &Fabric<MemoryPiece>,
    hand: &mut Hand<MemoryPiece>,
    level: Level,
    spin: u32,
    units: &Units,
) -> Result<List<Held<MemoryPiece>>, PlaceRefusal>
    requires hand { IsHandOf (fabric_view fabric.now) hand.old }
    requires unit { units.now.unit_length ≤ 262144 }
    ensures hand { IsHandOf (fabric_view fabric.now) hand.new }
    ensures number { number_of hand.new ≡ number_of hand.old }
{
    let view = all_up(*fabric.shape());
    let mut desk = Desk {
        fabric,
        hand,
        gate: &OpenGate,
        by: By { actor: 1, call: 1 },
    };
    let used = DriveSet::new();
    place(
        rt, alloc, &mut desk, &level, &view, &view.up, &used, spin, units,
    )
}

/// What a slot tells: its node, drive and number, and its bytes where it has eight.
type Told = Option<((u8, u8, u16), Option<[u8; 8]>)>;

fn tell(slot: Option<Held<MemoryPiece>>) -> Told {
    let mut slot = slot?.spend();
    let at = slot.place();
    let place = (at.node, at.drive, at.slot);
    if slot.len() != 8 {
        return Some((place, None));
    }
    let mut bytes = [0; 8];
    match slot.read(&mut bytes) {
        Ok(()) => Some((place, Some(bytes))),
        Err(_failed) => Some((place, None)),
    }
}

/// What the first six slots tell. All are spent.
fn tell_all(slots: List<Held<MemoryPiece>>) -> [Told; 6] {
    let mut slots = slots.into_vec();
    slots.reverse();
    let told = [
        tell(slots.pop()),
        tell(slots.pop()),
        tell(slots.pop()),
        tell(slots.pop()),
        tell(slots.pop()),
        tell(slots.pop()),
    ];
    spend_all(List::from_vec(slots));
    told
}

/// How many slots are retired once a fabric is closed.
fn retired(parts: Parts<MemoryPiece>) -> usize {
    let Parts {
        board: _,
        yard,
        retired,
        pools: _,
    } = parts;
    spend_all(yard);
    spend_all(retired)
}

#[test]
fn six_slots_come_node_by_node_and_round_by_round(rt: HostRuntime) -> Result<(), Fail> {
    let mut rack = MemoryRack::new(rt.alloc(), List::new(rt.alloc()));
    let level = Level::read("+2d:1n").expect(&rt, "the name is one of the table");
    let opened = Fabric::open(rt.alloc(), Shape::new(3, 2, 16, 8), &mut rack, 1, 0);
    let (fabric, hands) = opened.expect(&rt, "there is memory for 96 slots");
    let mut hands = hands.into_vec();
    let Some(mut hand) = hands.pop() else {
        unreachable!()
    };
    let drawn = draw_slots(&rt, rt.alloc(), &fabric, &mut hand, level, 1, 6);
    let places = tell_all(drawn.expect(&rt, "each drive has slots")).map(|told| match told {
        Some((place, _bytes)) => place,
        None => (0, 0, 0),
    });
    hands.push_reserved(hand);
    assert_eq!(rt; retired(fabric.close(List::from_vec(hands))), 0);
    assert_eq!(rt;
        places,
        [
            (2, 1, 0),
            (3, 1, 0),
            (1, 1, 0),
            (2, 2, 0),
            (3, 2, 0),
            (1, 2, 0)
        ]
    );
    Ok(())
}

/// What is told where there was no room. Slots that were drawn are spent.
fn no_room(drawn: Result<List<Held<MemoryPiece>>, PlaceRefusal>) -> Option<NoRoom> {
    match drawn {
        Ok(slots) => {
            spend_all(slots);
            None
        }
        Err(PlaceRefusal::NoRoom(told)) => Some(told),
        Err(PlaceRefusal::NoMemory) => None,
    }
}

#[test]
fn a_drive_with_no_free_slot_is_named(rt: HostRuntime) -> Result<(), Fail> {
    let mut rack = MemoryRack::new(rt.alloc(), List::new(rt.alloc()));
    let opened = Fabric::open(rt.alloc(), Shape::new(1, 1, 1, 8), &mut rack, 1, 0);
    let (fabric, hands) = opened.expect(&rt, "there is memory for one slot");
    let mut hands = hands.into_vec();
    let Some(mut hand) = hands.pop() else {
        unreachable!()
    };
    let first = draw_slots(
        &rt,
        rt.alloc(),
        &fabric,
        &mut hand,
        Level::two_copies(),
        0,
        1,
    );
    let second = draw_slots(
        &rt,
        rt.alloc(),
        &fabric,
        &mut hand,
        Level::two_copies(),
        0,
        1,
    );
    let (first, second) = (no_room(first), no_room(second));
    hands.push_reserved(hand);
    assert_eq!(rt; retired(fabric.close(List::from_vec(hands))), 0);
    assert!(rt; first.is_none());
    let told = second.expect(&rt, "the only slot is drawn");
    let empty = EmptyAt {
        drive: DriveId::new(1, 1),
        turn: 1,
    };
    assert_eq!(rt; (told.need, told.got), (1, 0));
    assert_eq!(rt; told.empty.as_slice(), [empty].as_slice());
    assert_eq!(rt; told.failed.len(), 0);
    Ok(())
}

#[test]
fn a_unit_whose_slot_fails_goes_to_another_drive(rt: HostRuntime) -> Result<(), Fail> {
    let first_write = PlannedFailure {
        place: RawPlace {
            node: 2,
            drive: 1,
            slot: 0,
        },
        call: RackCall::Write,
        nth: 1,
    };
    let mut fails = Vec::new(rt.alloc());
    fails.push(first_write)?;
    let mut rack = MemoryRack::new(rt.alloc(), List::from_vec(fails));
    let mut units = Units::new(rt.alloc(), 8);
    units.push(b"unit one")?;
    units.push(b"unit two")?;
    let opened = Fabric::open(rt.alloc(), Shape::new(3, 2, 1, 8), &mut rack, 1, 0);
    let (fabric, hands) = opened.expect(&rt, "there is memory for six slots");
    let mut hands = hands.into_vec();
    let Some(mut hand) = hands.pop() else {
        unreachable!()
    };
    let placed = place_units(
        &rt,
        rt.alloc(),
        &fabric,
        &mut hand,
        Level::two_copies(),
        1,
        &units,
    );
    let told = tell_all(placed.expect(&rt, "the other drives are sound"));
    hands.push_reserved(hand);
    assert_eq!(rt; retired(fabric.close(List::from_vec(hands))), 1);
    let one = Some(((2, 2, 0), Some(*b"unit one")));
    let two = Some(((3, 1, 0), Some(*b"unit two")));
    assert_eq!(rt; told, [one, two, None, None, None, None]);
    Ok(())
}
