//! One turn of a hand at the board, which gives an order.

ghost use Rattle.std.specs.Prelude.{◌≡◌, ◌≤◌};
ghost use Rattle.board_history.specs.Board.{IsBoardStep, IsWithin};
ghost use Rattle.board.specs.History.{log_of, with_entry};
ghost use Rattle.fabric.specs.Accounts.{Stays};
ghost use Rattle.fabric.specs.Views.{IsHandOf, fabric_view, number_of};
ghost use Rattle.file_turns.specs.Paths.{KeepsDesk};
ghost use Rattle.drive_orders.specs.Orders.{AtBoard, BoardTurn, OrderTells};
ghost use Rattle.turn_cell.specs.Seats.{IsIdleOf, cell_view, seat_view};

use board::{Board, Grow};
use board_history::{Effect, Order};
use domains::By;
use fabric::Desk;
use flex_io::{Gate, Slot};
use std::sync::Wait;
use turn_cell::{Seat, TurnCell};

/// Gives an order to the board, in one turn of the hand's seat there.
pub fn give_order<S: Slot + Send + Drop, G: Gate, R: Wait>(
    rt: &R,
    desk: &mut Desk<'_, S, G>,
    order: Order,
) -> Result<Effect, Grow>
    requires hand { IsHandOf (fabric_view desk.old.fabric.now) desk.old.hand.now }
    requires within { IsWithin (fabric_view desk.old.fabric.now).shape order }
    ensures hand { IsHandOf (fabric_view desk.old.fabric.now) desk.new.hand.now }
    ensures number { number_of desk.new.hand.now ≡ number_of desk.old.hand.now }
    ensures same { KeepsDesk desk.old desk.new }
    ensures turn { AtBoard (BoardTurn (OrderTells result desk.old.by order)) desk.old.hand.now desk.new.hand.now }
    ensures held { Stays (fabric_view desk.old.fabric.now).shape desk.old.hand.now desk.new.hand.now }
{
    order_at(
        rt,
        desk.fabric.board(),
        &mut desk.hand.board,
        desk.by,
        order,
    )
}

/// Gives an order in one turn of a seat.
fn order_at<R: Wait>(
    rt: &R,
    cell: &TurnCell<Board>,
    seat: &mut Seat<Board>,
    by: By,
    order: Order,
) -> Result<Effect, Grow>
    requires seat { IsIdleOf (cell_view cell.now) (seat_view seat.old) }
    requires within { IsWithin (seat_view seat.old).last.shape order }
    ensures seat { IsIdleOf (cell_view cell.now) (seat_view seat.new) }
    ensures number { (seat_view seat.new).number ≡ (seat_view seat.old).number }
    ensures shape { (seat_view seat.new).last.shape ≡ (seat_view seat.old).last.shape }
    ensures turn { BoardTurn (OrderTells result by order) (seat_view seat.old) (seat_view seat.new) }
{
    let mut turn = cell.enter(rt, seat);
    let given = order_in(turn.state(), by, order);
    turn.leave();
    given
}

/// Gives an order in the turn of a seat.
fn order_in(board: &mut Board, by: By, order: Order) -> Result<Effect, Grow>
    requires { IsWithin board.old.shape order }
    ensures { OrderTells result by order board.old board.new }
{
    board.reserve(1)?;
    Ok(carry_out(board, by, order))
}

/// Gives an order to a board that has room for its entry.
fn carry_out(board: &mut Board, by: By, order: Order) -> Effect
    requires spare { 1 ≤ board.old.spare }
    requires within { IsWithin board.old.shape order }
    ensures entry { board.new ≡ with_entry board.old (record { by = by; order = order; effect = result }) }
    ensures legal { IsBoardStep board.old.shape (log_of board.old) (record { by = by; order = order; effect = result }) }
{
    match order {
        Order::Fail(drive) => board.fail(by, drive),
        Order::FailNode(node) => board.fail_node(by, node),
        Order::Down(drive) => board.down(by, drive),
        Order::Up(drive) => board.up(by, drive),
    }
}
