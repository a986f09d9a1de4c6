ghost use Rattle.std.specs.Prelude.{◌≤◌};

mod generic;
mod numbers;
mod others;
mod race;
mod tallies;

use self::generic::{send, share};
use self::others::look;
use self::race::{open, race};
use self::tallies::{Taken, take};
use std::alloc::{AllocError, Global};
use std::test::Fail;
use turn_cell::SeatTallies;

#[test]
fn two_threads_write_a_thousand_numbers_each(rt: HostRuntime) -> Result<(), Fail> {
    let numbers = race(&rt, rt.alloc(), 1_000)?;
    assert_eq!(rt; numbers.turns, 2_000);
    assert_eq!(rt; numbers.notes.len(), 2_000);
    for seat in 0..2u8 {
        let mut next = 1;
        for note in &numbers.notes {
            if note.seat == seat {
                assert_eq!(rt; note.entry, next, "of seat {seat}");
                next = next.wrapping_add(1);
            }
        }
        assert_eq!(rt; next, 1_001, "of seat {seat}");
    }
    Ok(())
}

#[test]
fn a_cell_is_shared_and_its_seats_are_sent(rt: HostRuntime) -> Result<(), Fail> {
    let (cell, mut seats) = open(rt.alloc(), 2)?;
    let Some(one) = seats.pop() else {
        unreachable!()
    };
    let Some(zero) = seats.pop() else {
        unreachable!()
    };
    share(&cell);
    let (mut zero, mut one) = send(&rt, zero, one);
    look(&rt, &cell, &mut zero);
    assert_eq!(rt; cell.turns_done(&mut one), 1);
    Ok(())
}

#[test]
fn one_seat_counts_turns_while_another_has_one(rt: HostRuntime) -> Result<(), Fail> {
    let (cell, mut seats) = open(rt.alloc(), 2)?;
    let Some(mut one) = seats.pop() else {
        unreachable!()
    };
    let Some(mut zero) = seats.pop() else {
        unreachable!()
    };
    cell.enter(&rt, &mut zero).leave();
    cell.enter(&rt, &mut one).leave();
    cell.enter(&rt, &mut zero).leave();
    let turn = cell.enter(&rt, &mut zero);
    let during = cell.turns_done(&mut one);
    turn.leave();
    let after = cell.turns_done(&mut one);
    assert_eq!(rt; [during, after], [3, 4]);
    Ok(())
}

// How many seats a new cell has, and how many turns have passed once it is closed.
fn seats_and_turns(alloc: Global, count: u8) -> Result<(usize, u64), AllocError>
    requires { (1 ≤ count) × (count ≤ 32) }
{
    let (cell, seats) = open(alloc, count)?;
    let made = seats.len();
    Ok((made, cell.close(seats).turns))
}

#[test]
fn a_cell_gives_the_seats_that_were_asked_for(rt: HostRuntime) -> Result<(), Fail> {
    assert_eq!(rt; seats_and_turns(rt.alloc(), 1)?, (1, 0));
    assert_eq!(rt; seats_and_turns(rt.alloc(), 2)?, (2, 0));
    assert_eq!(rt; seats_and_turns(rt.alloc(), 32)?, (32, 0));
    Ok(())
}

#[test]
fn a_tally_is_counted_for_its_seat_alone(rt: HostRuntime) -> Result<(), Fail> {
    let mut tallies = SeatTallies::from_vec(vec![in rt.alloc(); Taken { slots: 0 }; 32]?);
    take(&mut tallies, 31, 5);
    take(&mut tallies, 31, 6);
    assert_eq!(rt; [tallies.of(31).slots, tallies.of(0).slots], [11, 0]);
    Ok(())
}
