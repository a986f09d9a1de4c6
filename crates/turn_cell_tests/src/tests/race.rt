//! Two threads that write numbers, and what each has written at the end.

ghost use Rattle.std.specs.Prelude.{◌≡◌, ℕ, ◌+◌, ◌%◌, ◌^◌, ◌<◌, ◌≤◌, [], ◌∷◌, ◌++◌, OnOk, IfOk, slice_index};
ghost use Rattle.std.specs.List.{All, range_with_len};
ghost use Rattle.turn_cell_tests.specs.declared.tests.numbers.Numbers.{Numbers};
ghost use Rattle.turn_cell.specs.Notes.{AreBelow, entries_by};
ghost use Rattle.turn_cell.specs.Seats.{AreNewSeats, IsIdleOf, cell_view, seat_view};

use super::numbers::Numbers;
use std::alloc::{AllocError, Global};
use std::sync::Wait;
use std::thread::{Threads, join};
use turn_cell::{Seat, TurnCell};

/// Writes a number in one turn.
fn write<R: Wait>(
    rt: &R,
    cell: &TurnCell<Numbers>,
    seat: &mut Seat<Numbers>,
    number: u32,
) -> Result<(), AllocError>
    requires { IsIdleOf (cell_view cell.now) (seat_view seat.old) }
    ensures idle { IsIdleOf (cell_view cell.now) (seat_view seat.new) }
    ensures same { (seat_view seat.new).number ≡ (seat_view seat.old).number }
    ensures ok { OnOk result (entries_by (seat_view seat.old).number (seat_view seat.new).last.notes.items ≡ entries_by (seat_view seat.old).number (seat_view seat.old).last.notes.items ++ number ∷ []) }
    ensures tally { OnOk result (slice_index (seat_view seat.new).last.written (seat_view seat.old).number ≡ (slice_index (seat_view seat.old).last.written (seat_view seat.old).number + 1) % 2 ^ 64) }
{
    let mut turn = cell.enter(rt, seat);
    let done = turn.state().write(number);
    turn.leave();
    done
}

/// Writes the numbers from 1 to `count`, each in a turn of its own.
fn write_all<R: Wait>(
    rt: &R,
    cell: &TurnCell<Numbers>,
    mut seat: Seat<Numbers>,
    count: u32,
) -> (Result<(), AllocError>, Seat<Numbers>)
    requires idle { IsIdleOf (cell_view cell.now) (seat_view seat) }
    requires fresh { (entries_by (seat_view seat).number (seat_view seat).last.notes.items ≡ []) × (slice_index (seat_view seat).last.written (seat_view seat).number ≡ 0) }
    ensures idle { IsIdleOf (cell_view cell.now) (seat_view result.1) }
    ensures same { (seat_view result.1).number ≡ (seat_view seat).number }
    ensures ok { OnOk result.0 (entries_by (seat_view seat).number (seat_view result.1).last.notes.items ≡ range_with_len 1 count) }
    ensures tally { OnOk result.0 (slice_index (seat_view result.1).last.written (seat_view seat).number ≡ count) }
{
    for done in 0..count {
        match write(rt, cell, &mut seat, done + 1) {
            Ok(()) => {}
            Err(error) => return (Err(error), seat),
        }
    }
    (Ok(()), seat)
}

/// A cell of no numbers, with `seats` seats.
pub fn open(alloc: Global, seats: u8) -> Result<(TurnCell<Numbers>, Vec<Seat<Numbers>>), AllocError>
    requires { (1 ≤ seats) × (seats ≤ 32) }
    ensures { IfOk result (λ made. ((cell_view made.0).seats ≡ seats) × ((state : Numbers) × (state.notes.items ≡ []) × ((k : ℕ) → slice_index state.written k ≡ 0) × AreNewSeats (cell_view made.0) state made.1.items)) }
{
    match TurnCell::new(alloc, Numbers::new(alloc), seats) {
        Ok(made) => Ok(made),
        Err((error, _state)) => Err(error),
    }
}

/// Two threads write the numbers from 1 to `count` each.
fn race_apart<R: Threads + Wait + Sync>(
    rt: &R,
    alloc: Global,
    count: u32,
) -> Result<Numbers, AllocError>
    ensures order { IfOk result (λ s. (k : ℕ) → k < 2 → entries_by k s.notes.items ≡ range_with_len 1 count) }
    ensures tally { IfOk result (λ s. (k : ℕ) → k < 2 → slice_index s.written k ≡ count) }
    ensures below { IfOk result (λ s. AreBelow 2 s.notes.items) }
{
    let (cell, mut seats) = open(alloc, 2)?;
    let Some(one) = seats.pop() else {
        unreachable!()
    };
    let Some(zero) = seats.pop() else {
        unreachable!()
    };
    let shared = &cell;
    let ((first, zero), (second, one)) = join(
        rt,
        move || -> (Result<(), AllocError>, Seat<Numbers>)
            requires idle { IsIdleOf (cell_view shared.now) (seat_view zero) }
            requires fresh { (entries_by (seat_view zero).number (seat_view zero).last.notes.items ≡ []) × (slice_index (seat_view zero).last.written (seat_view zero).number ≡ 0) }
            ensures idle { IsIdleOf (cell_view shared.entry.now) (seat_view result.1) }
            ensures same { (seat_view result.1).number ≡ (seat_view zero).number }
            ensures ok { OnOk result.0 (entries_by (seat_view zero).number (seat_view result.1).last.notes.items ≡ range_with_len 1 count) }
            ensures tally { OnOk result.0 (slice_index (seat_view result.1).last.written (seat_view zero).number ≡ count) }
        { write_all(rt, shared, zero, count) },
        move || -> (Result<(), AllocError>, Seat<Numbers>)
            requires idle { IsIdleOf (cell_view shared.now) (seat_view one) }
            requires fresh { (entries_by (seat_view one).number (seat_view one).last.notes.items ≡ []) × (slice_index (seat_view one).last.written (seat_view one).number ≡ 0) }
            ensures idle { IsIdleOf (cell_view shared.entry.now) (seat_view result.1) }
            ensures same { (seat_view result.1).number ≡ (seat_view one).number }
            ensures ok { OnOk result.0 (entries_by (seat_view one).number (seat_view result.1).last.notes.items ≡ range_with_len 1 count) }
            ensures tally { OnOk result.0 (slice_index (seat_view result.1).last.written (seat_view one).number ≡ count) }
        { write_all(rt, shared, one, count) },
    );
    seats.push_reserved(zero);
    seats.push_reserved(one);
    let numbers = cell.close(seats);
    first?;
    second?;
    Ok(numbers)
}

/// Two threads write the numbers from 1 to `count` each, and no others are written: what holds of each seat's own notes holds of all.
pub fn race<R: Threads + Wait + Sync>(
    rt: &R,
    alloc: Global,
    count: u32,
) -> Result<Numbers, AllocError>
    ensures order { IfOk result (λ s. (k : ℕ) → k < 2 → entries_by k s.notes.items ≡ range_with_len 1 count) }
    ensures tally { IfOk result (λ s. (k : ℕ) → k < 2 → slice_index s.written k ≡ count) }
    ensures small { IfOk result (λ s. All (λ note. note.entry ≤ count) s.notes.items) }
{
    let numbers = race_apart(rt, alloc, count)?;
    Ok(numbers)
}
