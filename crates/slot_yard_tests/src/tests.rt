mod slots;

ghost use Rattle.std.specs.Prelude.{◌≡◌, ◌≤◌, true};
ghost use Rattle.domains.specs.Shape.{is_of};

use self::slots::{place_of, places_left, pool_of, put_next, retire_drive, retire_next, small};
use domains::DriveId;
use flex_io::SurePiece;
use held_slots::Empty;
use slot_pool::Pool;
use slot_yard::Yard;
use std::test::Fail;

/// Puts slots of two drives into the yard by turns, two of each and the second drive's first. Returns which are there.
fn put_by_turns(
    yard: &mut Yard<SurePiece>,
    first: &mut Pool<SurePiece>,
    second: &mut Pool<SurePiece>,
) -> [bool; 4]
    requires of { is_of yard.old.shape first.old.drive ≡ true }
    requires slots { first.old.slots ≤ yard.old.shape.slots }
    requires second_of { is_of yard.old.shape second.old.drive ≡ true }
    requires second_slots { second.old.slots ≤ yard.old.shape.slots }
{
    [
        put_next(yard, second),
        put_next(yard, first),
        put_next(yard, second),
        put_next(yard, first),
    ]
}

#[test]
fn the_slot_of_a_drive_that_waits_longest_is_taken(rt: HostRuntime) -> Result<(), Fail> {
    let (first, second) = (DriveId::new(1, 1), DriveId::new(2, 2));
    let mut pool = pool_of(rt.alloc(), first, 3)?;
    let mut other = pool_of(rt.alloc(), second, 3)?;
    let mut yard = Yard::new(rt.alloc(), small())?;
    let put = put_by_turns(&mut yard, &mut pool, &mut other);
    let counts = (yard.count(first), yard.count(second));
    let oldest = yard.take(first).map(place_of);
    let none = yard.take(DriveId::new(7, 16)).map(place_of);
    let (waiting, retired) = places_left(rt.alloc(), yard)?;
    assert_eq!(rt; put, [true; 4]);
    assert_eq!(rt; counts, (2, 2));
    assert_eq!(rt; oldest, Ok((1, 1, 0)));
    assert_eq!(rt; none, Err(Empty { turn: 0 }));
    assert_eq!(rt;
        waiting.as_slice(),
        [(1, 1, 1), (2, 2, 0), (2, 2, 1)].as_slice()
    );
    assert_eq!(rt; retired.len(), 0);
    Ok(())
}

/// Puts slots of two drives into the yard, and retires one of the second drive between them. Returns which are there.
fn put_and_retire(
    yard: &mut Yard<SurePiece>,
    first: &mut Pool<SurePiece>,
    second: &mut Pool<SurePiece>,
) -> [bool; 5]
    requires of { is_of yard.old.shape first.old.drive ≡ true }
    requires slots { first.old.slots ≤ yard.old.shape.slots }
    requires second_of { is_of yard.old.shape second.old.drive ≡ true }
    requires second_slots { second.old.slots ≤ yard.old.shape.slots }
    ensures shape { yard.new.shape ≡ yard.old.shape }
    ensures drive { first.new.drive ≡ first.old.drive }
    ensures kept { first.new.slots ≡ first.old.slots }
{
    [
        put_next(yard, second),
        put_next(yard, first),
        retire_next(yard, second),
        put_next(yard, first),
        put_next(yard, second),
    ]
}

#[test]
fn a_retired_drive_leaves_no_slot_behind(rt: HostRuntime) -> Result<(), Fail> {
    let gone = DriveId::new(1, 1);
    let mut pool = pool_of(rt.alloc(), gone, 5)?;
    let mut other = pool_of(rt.alloc(), DriveId::new(2, 2), 3)?;
    let mut yard = Yard::new(rt.alloc(), small())?;
    let out = pool.take().map(place_of);
    let moved = put_and_retire(&mut yard, &mut pool, &mut other);
    let retired = retire_drive(&mut yard, &mut pool);
    let again = retire_drive(&mut yard, &mut pool);
    let left = (pool.free_count(), yard.count(gone));
    let (waiting, all_retired) = places_left(rt.alloc(), yard)?;
    assert_eq!(rt; out, Ok((1, 1, 0)));
    assert_eq!(rt; moved, [true; 5]);
    assert_eq!(rt; [retired, again], [Some(4), Some(0)]);
    assert_eq!(rt; left, (0, 0));
    assert_eq!(rt; waiting.as_slice(), [(2, 2, 0), (2, 2, 2)].as_slice());
    assert_eq!(rt;
        all_retired.as_slice(),
        [(2, 2, 1), (1, 1, 3), (1, 1, 4), (1, 1, 1), (1, 1, 2)].as_slice()
    );
    Ok(())
}
