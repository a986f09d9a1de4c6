//! Whether an entry says what its order does to the drives.

ghost use Rattle.std.specs.Prelude.{◌≡◌, ◌↔◌, ◌≤◌, ◌+◌, ◌++◌, [], ◌∷◌, true, IsTrue};
ghost use Rattle.board_history.specs.Board.{IsBoardStep, IsWithin};
ghost use Rattle.board.specs.History.{log_of, with_entry};
ghost use Rattle.board_judge.specs.Orders.{HasEntry};

use board::{Board, BoardEntry, Effect, Order};
use domains::{By, Shape};

/// Whether the entry is legal after those of the board. If it is, the board has it then.
pub(crate) fn takes(board: &mut Board, shape: Shape, entry: &BoardEntry) -> bool
    requires shape { board.old.shape ≡ shape }
    requires spare { 1 ≤ board.old.spare }
    ensures step { IsTrue result ↔ IsBoardStep shape (log_of board.old) entry.now }
    ensures taken { result ≡ true → HasEntry board.old entry.now board.new }
{
    if !is_within(shape, entry.order) {
        return false;
    }
    give(board, entry.by, entry.order) == entry.effect
}

/// Whether the order is given to a drive or a node of the cluster.
fn is_within(shape: Shape, order: Order) -> bool
    ensures { IsTrue result ↔ IsWithin shape order }
{
    match order {
        Order::Fail(drive) => shape.has(drive),
        Order::FailNode(node) => node.number() <= shape.nodes(),
        Order::Down(drive) => shape.has(drive),
        Order::Up(drive) => shape.has(drive),
    }
}

/// Gives the board the order.
fn give(board: &mut Board, by: By, order: Order) -> Effect
    requires within { IsWithin board.old.shape order }
    requires spare { 1 ≤ board.old.spare }
    ensures entry { board.new ≡ with_entry board.old (record { by = by; order = order; effect = result }) }
    ensures legal { IsBoardStep board.old.shape (log_of board.old) (record { by = by; order = order; effect = result }) }
{
    match order {
        Order::Fail(drive) => board.fail(by, drive),
        Order::FailNode(node) => board.fail_node(by, node),
        Order::Down(drive) => board.down(by, drive),
        Order::Up(drive) => board.up(by, drive),
    }
}
