//! Two threads at one board: one gives orders, and the other watches.

ghost use Rattle.std.specs.Prelude.{◌≡◌, ◌≤◌, true, IfOk};
ghost use Rattle.board_history.specs.Board.{IsLegalBoardLog};
ghost use Rattle.turn_cell.specs.Seats.{AreNewSeats, IsIdleOf, cell_view, seat_view};
ghost use Rattle.board.specs.History.{History, log_of};
ghost use Rattle.board.specs.Views.{IsViewOf};
ghost use Rattle.board.specs.Examples.{small_shape};

use super::{drive, order, small};
use board::{Board, BoardEntry, Effect, Grow, Order, View, view};
use lists::List;
use std::alloc::Global;
use std::sync::Wait;
use std::thread::{Threads, join};
use turn_cell::{Seat, TurnCell};

/// Carries out an order, in one turn.
fn give<R: Wait>(
    rt: &R,
    cell: &TurnCell<Board>,
    seat: &mut Seat<Board>,
    given: Order,
    call: u32,
) -> Result<Effect, Grow>
    requires idle { IsIdleOf (cell_view cell.now) (seat_view seat.old) }
    requires shape { (seat_view seat.old).last.shape ≡ small_shape }
    ensures idle { IsIdleOf (cell_view cell.now) (seat_view seat.new) }
    ensures number { (seat_view seat.new).number ≡ (seat_view seat.old).number }
    ensures shape { (seat_view seat.new).last.shape ≡ small_shape }
{
    let mut turn = cell.enter(rt, seat);
    let effect = order(turn.state(), small(), given, call);
    turn.leave();
    effect
}

/// Carries out four orders.
fn give_all<R: Wait>(
    rt: &R,
    cell: &TurnCell<Board>,
    mut seat: Seat<Board>,
) -> (Result<(), Grow>, Seat<Board>)
    requires idle { IsIdleOf (cell_view cell.now) (seat_view seat) }
    requires shape { (seat_view seat).last.shape ≡ small_shape }
    ensures idle { IsIdleOf (cell_view cell.now) (seat_view result.1) }
    ensures number { (seat_view result.1).number ≡ (seat_view seat).number }
{
    let orders = [
        Order::Fail(drive(1, 1)),
        Order::Fail(drive(1, 2)),
        Order::Down(drive(2, 1)),
        Order::Up(drive(2, 2)),
    ];
    let mut call: u32 = 0;
    for given in orders {
        call = call.wrapping_add(1);
        if let Err(fault) = give(rt, cell, &mut seat, given, call) {
            return (Err(fault), seat);
        }
    }
    (Ok(()), seat)
}

/// What the board shows at the second entry and at the fourth.
fn watch<R: Wait>(
    rt: &R,
    cell: &TurnCell<Board>,
    mut seat: Seat<Board>,
) -> (View, View, Seat<Board>)
    requires idle { IsIdleOf (cell_view cell.now) (seat_view seat) }
    ensures idle { IsIdleOf (cell_view cell.now) (seat_view result.2) }
    ensures number { (seat_view result.2).number ≡ (seat_view seat).number }
    ensures shape { (seat_view result.2).last.shape ≡ (seat_view seat).last.shape }
    ensures early { 2 ≤ result.0.epoch }
    ensures late { IsViewOf (seat_view result.2).last.shape (log_of (seat_view result.2).last) result.1 }
{
    let early = view(cell, rt, &mut seat, 2);
    let late = view(cell, rt, &mut seat, 4);
    (early, late, seat)
}

/// A thread gives orders while another watches: the log that the board leaves, and what was seen.
pub fn race<R: Threads + Wait + Sync>(
    rt: &R,
    alloc: Global,
) -> Result<(List<BoardEntry>, View, View), Grow>
    ensures view { IfOk result (λ out. IsViewOf small_shape out.0 out.2) }
    ensures legal { IfOk result (λ out. IsLegalBoardLog small_shape out.0) }
{
    let (cell, mut seats) = open(alloc)?;
    let Some(one) = seats.pop() else {
        unreachable!()
    };
    let Some(zero) = seats.pop() else {
        unreachable!()
    };
    let shared = &cell;
    let ((done, zero), (early, late, one)) = join(
        rt,
        move || -> (Result<(), Grow>, Seat<Board>)
            requires idle { IsIdleOf (cell_view shared.now) (seat_view zero) }
            requires shape { (seat_view zero).last.shape ≡ small_shape }
            ensures idle { IsIdleOf (cell_view shared.entry.now) (seat_view result.1) }
            ensures number { (seat_view result.1).number ≡ (seat_view zero).number }
        { give_all(rt, shared, zero) },
        move || -> (View, View, Seat<Board>)
            requires idle { IsIdleOf (cell_view shared.now) (seat_view one) }
            ensures idle { IsIdleOf (cell_view shared.entry.now) (seat_view result.2) }
            ensures number { (seat_view result.2).number ≡ (seat_view one).number }
            ensures shape { (seat_view result.2).last.shape ≡ (seat_view one).last.shape }
            ensures late { IsViewOf (seat_view result.2).last.shape (log_of (seat_view result.2).last) result.1 }
        { watch(rt, shared, one) },
    );
    seats.push_reserved(zero);
    seats.push_reserved(one);
    let board = cell.close(seats);
    done?;
    Ok((board.close(), early, late))
}

/// A cell of a board with room for four entries, and two seats.
fn open(alloc: Global) -> Result<(TurnCell<Board>, Vec<Seat<Board>>), Grow>
    ensures { IfOk result (λ made. ((cell_view made.0).seats ≡ 2) × ((state : History) × (state.shape ≡ small_shape) × AreNewSeats (cell_view made.0) state made.1.items)) }
{
    let mut board = Board::new(alloc, small(), 4).map_err(|_| Grow::NoMemory)?;
    board.reserve(4)?;
    match TurnCell::new(alloc, board, 2) {
        Ok(made) => Ok(made),
        Err((_error, _board)) => Err(Grow::NoMemory),
    }
}
