ghost use Rattle.std.specs.Prelude.{◌≡◌};
ghost use Rattle.held_slots.specs.Slots.{place_from, IsOn};

mod race;
mod slots;
mod turns;

use self::race::race;
use self::slots::pool_of;
use flex_io::{Slot, SurePiece};
use held_slots::{Held, spend_all};
use slot_pool::Pool;
use std::alloc::AllocError;
use std::test::Fail;

// Whether the pool had room for the slot. A slot that it refuses is spent.
fn give(pool: &mut Pool<SurePiece>, held: Held<SurePiece>) -> bool
    requires { IsOn pool.old.drive pool.old.slots (place_from held.place) }
    ensures { (pool.new.drive ≡ pool.old.drive) × (pool.new.slots ≡ pool.old.slots) }
{
    match pool.give(held) {
        Ok(()) => true,
        Err((_error, held)) => {
            let _slot = held.spend();
            false
        }
    }
}

#[test]
fn a_slot_that_comes_back_is_taken_next(rt: HostRuntime) -> Result<(), Fail> {
    let mut pool = pool_of(rt.alloc(), 3)?;
    let zero = pool.take().expect(&rt, "slot 0 is free");
    let mut one = pool.take().expect(&rt, "slot 1 is free");
    let written = one.slot().write(b"unit");
    assert_eq!(rt;
        (written, one.slot().len(), one.place().slot()),
        (Ok(()), 4, 1)
    );
    assert_eq!(rt; (give(&mut pool, one), give(&mut pool, zero)), (true, true));
    assert_eq!(rt; (pool.drive().node(), pool.free_count()), (2, 3));
    let free = pool.close().into_vec();
    let numbers = [0, 1, 2].map(|at| free.get(at).map(|slot| (slot.place().slot, slot.len())));
    assert_eq!(rt; numbers, [Some((2, 0)), Some((1, 4)), Some((0, 0))]);
    Ok(())
}

#[test]
fn all_free_slots_are_taken(rt: HostRuntime) -> Result<(), Fail> {
    let mut pool = pool_of(rt.alloc(), 3)?;
    let zero = pool.take().expect(&rt, "slot 0 is free");
    let all = pool.take_all(rt.alloc());
    let back = give(&mut pool, zero);
    let Ok(all) = all else {
        return Err(Fail::from(AllocError));
    };
    assert_eq!(rt; (spend_all(all), back, pool.free_count()), (2, true, 1));
    Ok(())
}

#[test]
fn two_threads_leave_all_slots_free(rt: HostRuntime) -> Result<(), Fail> {
    let pool = race(&rt, rt.alloc(), 2, 100)?;
    assert_eq!(rt; pool.free_count(), 2);
    let mut numbers = Vec::new(rt.alloc());
    for slot in pool.close().into_vec() {
        numbers.push(slot.place().slot)?;
    }
    numbers.sort()?;
    assert_eq!(rt; numbers.as_slice(), [0, 1].as_slice());
    Ok(())
}
