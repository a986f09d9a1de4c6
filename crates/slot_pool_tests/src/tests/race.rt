//! Two threads that take and give the slots of one drive.

ghost use Rattle.std.specs.Prelude.{◌≡◌, ℕ, ◌≤◌, [], length, vec_capacity, OnOk, IfOk};
ghost use Rattle.slot_pool.specs.Tallies.{IsEven, no_tally, tally_at};
ghost use Rattle.turn_cell.specs.Seats.{AreNewSeats, IsIdleOf, cell_view, seat_view};

use super::slots::pool_of;
use super::turns::{draw, put_back};
use flex_io::{Fault, Slot, SurePiece};
use slot_pool::Pool;
use std::alloc::{AllocError, Global};
use std::sync::Wait;
use std::thread::{Threads, join};
use turn_cell::{Seat, TurnCell};

/// Takes a slot and gives it back, or finds none. At an `Err` the slot is gone.
fn trade<S: Slot + Send + Drop, R: Wait>(
    rt: &R,
    cell: &TurnCell<Pool<S>>,
    seat: &mut Seat<Pool<S>>,
) -> Result<(), AllocError>
    requires idle { IsIdleOf (cell_view cell.now) (seat_view seat.old) }
    requires even { IsEven (tally_at (seat_view seat.old).last.tallies (seat_view seat.old).number) }
    ensures idle { IsIdleOf (cell_view cell.now) (seat_view seat.new) }
    ensures same { (seat_view seat.new).number ≡ (seat_view seat.old).number }
    ensures even { OnOk result (IsEven (tally_at (seat_view seat.new).last.tallies (seat_view seat.new).number)) }
{
    let Ok(held) = draw(rt, cell, seat) else {
        return Ok(());
    };
    match put_back(rt, cell, seat, held) {
        Ok(()) => Ok(()),
        Err((error, held)) => {
            let _slot = held.spend();
            Err(error)
        }
    }
}

/// Trades `count` times.
fn trade_all<S: Slot + Send + Drop, R: Wait>(
    rt: &R,
    cell: &TurnCell<Pool<S>>,
    mut seat: Seat<Pool<S>>,
    count: u32,
) -> (Result<(), AllocError>, Seat<Pool<S>>)
    requires idle { IsIdleOf (cell_view cell.now) (seat_view seat) }
    requires even { IsEven (tally_at (seat_view seat).last.tallies (seat_view seat).number) }
    ensures idle { IsIdleOf (cell_view cell.now) (seat_view result.1) }
    ensures same { (seat_view result.1).number ≡ (seat_view seat).number }
    ensures even { OnOk result.0 (IsEven (tally_at (seat_view result.1).last.tallies (seat_view seat).number)) }
{
    for _done in 0..count {
        match trade(rt, cell, &mut seat) {
            Ok(()) => {}
            Err(error) => return (Err(error), seat),
        }
    }
    (Ok(()), seat)
}

/// A cell with a pool of `slots` slots, and two seats.
fn open(
    alloc: Global,
    slots: u16,
) -> Result<(TurnCell<Pool<SurePiece>>, Vec<Seat<Pool<SurePiece>>>), Fault>
    requires { slots ≤ 4096 }
    ensures { IfOk result (λ made. ((cell_view made.0).seats ≡ 2) × ((state : _) × ((k : ℕ) → tally_at state.tallies k ≡ no_tally) × AreNewSeats (cell_view made.0) state made.1.items)) }
{
    let pool = pool_of(alloc, slots)?;
    match TurnCell::new(alloc, pool, 2) {
        Ok(made) => Ok(made),
        Err(_refused) => Err(Fault::NoMemory),
    }
}

/// The pool of a cell whose two seats gave as many slots as they took: all slots are free.
fn close_even<S: Slot + Send + Drop>(
    cell: TurnCell<Pool<S>>,
    mut room: Vec<Seat<Pool<S>>>,
    zero: Seat<Pool<S>>,
    one: Seat<Pool<S>>,
) -> Pool<S>
    requires room { (room.items ≡ []) × (2 ≤ vec_capacity room) }
    requires count { (cell_view cell).seats ≡ 2 }
    requires idle { IsIdleOf (cell_view cell) (seat_view zero) × IsIdleOf (cell_view cell) (seat_view one) }
    requires numbers { ((seat_view zero).number ≡ 0) × ((seat_view one).number ≡ 1) }
    requires zero { IsEven (tally_at (seat_view zero).last.tallies 0) }
    requires one { IsEven (tally_at (seat_view one).last.tallies 1) }
    ensures { length result.free ≡ result.slots }
{
    room.push_reserved(zero);
    room.push_reserved(one);
    let pool = cell.close(room);
    let _free = pool.free_count();
    pool
}

/// Two threads trade `count` times each. At the end all slots are free.
pub fn race<R: Threads + Wait + Sync>(
    rt: &R,
    alloc: Global,
    slots: u16,
    count: u32,
) -> Result<Pool<SurePiece>, Fault>
    requires { slots ≤ 4096 }
    ensures { IfOk result (λ pool. length pool.free ≡ pool.slots) }
{
    let (cell, mut seats) = open(alloc, slots)?;
    let Some(one) = seats.pop() else {
        unreachable!()
    };
    let Some(zero) = seats.pop() else {
        unreachable!()
    };
    let shared = &cell;
    let ((Ok(()), zero), (Ok(()), one)) = join(
        rt,
        move || -> (Result<(), AllocError>, Seat<Pool<SurePiece>>)
            requires idle { IsIdleOf (cell_view shared.now) (seat_view zero) }
            requires even { IsEven (tally_at (seat_view zero).last.tallies (seat_view zero).number) }
            ensures idle { IsIdleOf (cell_view shared.entry.now) (seat_view result.1) }
            ensures same { (seat_view result.1).number ≡ (seat_view zero).number }
            ensures even { OnOk result.0 (IsEven (tally_at (seat_view result.1).last.tallies (seat_view zero).number)) }
        { trade_all(rt, shared, zero, count) },
        move || -> (Result<(), AllocError>, Seat<Pool<SurePiece>>)
            requires idle { IsIdleOf (cell_view shared.now) (seat_view one) }
            requires even { IsEven (tally_at (seat_view one).last.tallies (seat_view one).number) }
            ensures idle { IsIdleOf (cell_view shared.entry.now) (seat_view result.1) }
            ensures same { (seat_view result.1).number ≡ (seat_view one).number }
            ensures even { OnOk result.0 (IsEven (tally_at (seat_view result.1).last.tallies (seat_view one).number)) }
        { trade_all(rt, shared, one, count) },
    ) else {
        return Err(Fault::NoMemory);
    };
    Ok(close_even(cell, seats, zero, one))
}
