//! What a thread sees of the board that it shares with others.

ghost use Rattle.std.specs.Prelude.{◌≡◌, ◌<◌, ◌≤◌, length, IfErr, IfOk, OnErr};
ghost use Rattle.turn_cell.specs.Seats.{IsIdleOf, cell_view, seat_view};
ghost use Rattle.board.specs.Views.{FollowsBoard, Sees, WaitedFor};

use crate::board::Board;
use crate::board_view::View;
use std::sync::Wait;
use std::thread;
use turn_cell::{Seat, TurnCell};

/// What the board shows in a turn of the seat, at the first that finds `at_least` entries. It waits for these, and begins a
/// further turn only once another seat's turn has passed.
pub fn view<R: Wait>(cell: &TurnCell<Board>, rt: &R, seat: &mut Seat<Board>, at_least: u32) -> View
    requires { IsIdleOf (cell_view cell.now) (seat_view seat.old) }
    ensures idle { IsIdleOf (cell_view cell.now) (seat_view seat.new) }
    ensures number { (seat_view seat.new).number ≡ (seat_view seat.old).number }
    ensures at_least { at_least ≤ result.epoch }
    ensures sees { Sees (cell_view cell.now).seats (seat_view seat.old).number (seat_view seat.old).last (seat_view seat.new).last result }
    ensures waited { WaitedFor at_least (cell_view cell.now).seats (seat_view seat.old).number (seat_view seat.old).last (seat_view seat.new).last result }
{
    for _ in rt.forever() {
        match look(cell, rt, seat, at_least) {
            Ok(view) => return view,
            Err(turn) => wait_past(cell, rt, seat, turn),
        }
    }
    unreachable!()
}

/// What the board shows in one turn of the seat, or that turn's number if the log has fewer than `at_least` entries.
fn look<R: Wait>(
    cell: &TurnCell<Board>,
    rt: &R,
    seat: &mut Seat<Board>,
    at_least: u32,
) -> Result<View, u64>
    requires { IsIdleOf (cell_view cell.now) (seat_view seat.old) }
    ensures idle { IsIdleOf (cell_view cell.now) (seat_view seat.new) }
    ensures number { (seat_view seat.new).number ≡ (seat_view seat.old).number }
    ensures follows { FollowsBoard (seat_view seat.old).number (seat_view seat.old).last (seat_view seat.new).last }
    ensures lone { (cell_view cell.now).seats ≡ 1 → (seat_view seat.new).last.notes ≡ (seat_view seat.old).last.notes }
    ensures enough { IfOk result (λ view. at_least ≤ view.epoch) }
    ensures sees { IfOk result (λ view. Sees (cell_view cell.now).seats (seat_view seat.old).number (seat_view seat.old).last (seat_view seat.new).last view) }
    ensures few { OnErr result (length (seat_view seat.new).last.notes < at_least) }
{
    let mut turn = cell.enter(rt, seat);
    let board = turn.state();
    let (view, number) = (board.present(), board.turns);
    turn.leave();
    if view.epoch < at_least {
        return Err(number);
    }
    Ok(view)
}

/// Waits until a turn has passed after the one of this number.
fn wait_past<R: Wait>(cell: &TurnCell<Board>, rt: &R, seat: &mut Seat<Board>, turn: u64)
    requires { IsIdleOf (cell_view cell.now) (seat_view seat.old) }
    ensures idle { IsIdleOf (cell_view cell.now) (seat_view seat.new) }
    ensures number { (seat_view seat.new).number ≡ (seat_view seat.old).number }
    ensures last { (seat_view seat.new).last ≡ (seat_view seat.old).last }
{
    for _ in rt.forever() {
        if cell.turns_done(seat) > turn.saturating_add(1) {
            return;
        }
        thread::yield_now();
    }
}
