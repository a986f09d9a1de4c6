//! Takes turns at one cell from 1, 2, 4 and 8 threads. With the argument `time` it takes a million and prints how long a turn took.
#![tactic(auto)]

mod count;

ghost use Rattle.std.specs.Prelude.{◌≡◌, ◌≤◌};
ghost use Rattle.turn_cell.specs.{IsIdleOf, cell_view, seat_view};

use anyhow::{Result, ensure};
use count::Count;
use std::alloc::{AllocError, Global};
use std::env;
use std::sync::Wait;
use std::thread::Threads;
use std::time::Instant;
use thread_map::map_each;
use turn_cell::{Seat, TurnCell};

/// Takes this many turns, each of which adds one.
fn take_turns<R: Wait>(
    rt: &R,
    cell: &TurnCell<Count>,
    mut seat: Seat<Count>,
    turns: u64,
) -> Seat<Count>
    requires { IsIdleOf (cell_view cell.now) (seat_view seat) }
    ensures idle { IsIdleOf (cell_view cell.now) (seat_view result) }
    ensures number { (seat_view result).number ≡ (seat_view seat).number }
{
    for _turn in 0..turns {
        let mut turn = cell.enter(rt, &mut seat);
        let count = turn.state();
        count.sum = count.sum.wrapping_add(1);
        turn.leave();
    }
    seat
}

/// Takes turns from this many threads, as many from each, and returns their sum.
fn race<R: Threads + Wait + Sync>(
    rt: &R,
    alloc: Global,
    threads: u8,
    turns: u64,
) -> Result<u64, AllocError>
    requires { (1 ≤ threads) × (threads ≤ 32) }
{
    let (cell, seats) = match TurnCell::new(alloc, Count::ZERO, threads) {
        Ok(made) => made,
        Err((error, _count)) => return Err(error),
    };
    let shared = &cell;
    let seats = map_each(
        rt,
        &move |seat: Seat<Count>| -> Seat<Count>
            requires { IsIdleOf (cell_view shared.now) (seat_view seat) }
            ensures idle { IsIdleOf (cell_view shared.entry.now) (seat_view result) }
            ensures number { (seat_view result).number ≡ (seat_view seat).number }
        { take_turns(rt, shared, seat, turns) },
        seats,
    );
    Ok(cell.close(seats).sum)
}

fn main(rt: HostRuntime) -> Result<()> {
    let timed = env::args(&rt)?.count() > 1;
    let turns: u64 = if timed { 1_000_000 } else { 1_000 };
    for threads in [1u8, 2, 4, 8] {
        let start = Instant::now(&rt)?;
        let sum = race(&rt, rt.alloc(), threads, turns / u64::from(threads))?;
        let nanos = start.elapsed(&rt)?.as_nanos();
        ensure!(sum == turns, "{sum} turns in place of {turns}");
        if timed {
            let each = nanos / u128::from(turns);
            println!(rt; "{threads} threads: {each} nanoseconds a turn")?;
        }
    }
    println!(rt; "turned")?;
    Ok(())
}
