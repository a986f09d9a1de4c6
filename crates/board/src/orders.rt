//! The orders to the board. Each needs room for one entry (`Board::reserve`), and allocates nothing.

ghost use Rattle.std.specs.Prelude.{◌≡◌, ◌≤◌, true};
ghost use Rattle.domains.specs.Shape.{is_of};
ghost use Rattle.board_history.specs.Board.{IsBoardStep, IsWithin};
ghost use Rattle.board.specs.History.{log_of, with_entry};

use crate::board::Board;
use crate::entry_stamp::EntryStamp;
use board_history::{BoardEntry, Effect, Order};
use domains::{By, DriveId, NodeId};

impl Board {
    /// The drive is gone for good.
    pub fn fail(&mut self, by: By, drive: DriveId) -> Effect
        requires spare { 1 ≤ self.old.spare }
        requires within { is_of self.old.shape drive ≡ true }
        ensures entry { self.new ≡ with_entry self.old (record { by = by; order = Order.Fail drive; effect = result }) }
        ensures legal { IsBoardStep self.old.shape (log_of self.old) (record { by = by; order = Order.Fail drive; effect = result }) }
    {
        self.give(by, Order::Fail(drive))
    }

    /// All drives of the node are gone for good.
    pub fn fail_node(&mut self, by: By, node: NodeId) -> Effect
        requires spare { 1 ≤ self.old.spare }
        requires some { 1 ≤ node }
        requires within { node ≤ self.old.shape.nodes }
        ensures entry { self.new ≡ with_entry self.old (record { by = by; order = Order.FailNode node; effect = result }) }
        ensures legal { IsBoardStep self.old.shape (log_of self.old) (record { by = by; order = Order.FailNode node; effect = result }) }
    {
        self.give(by, Order::FailNode(node))
    }

    /// The drive goes down, if it is up.
    pub fn down(&mut self, by: By, drive: DriveId) -> Effect
        requires spare { 1 ≤ self.old.spare }
        requires within { is_of self.old.shape drive ≡ true }
        ensures entry { self.new ≡ with_entry self.old (record { by = by; order = Order.Down drive; effect = result }) }
        ensures legal { IsBoardStep self.old.shape (log_of self.old) (record { by = by; order = Order.Down drive; effect = result }) }
    {
        self.give(by, Order::Down(drive))
    }

    /// The drive comes up, if it is down.
    pub fn up(&mut self, by: By, drive: DriveId) -> Effect
        requires spare { 1 ≤ self.old.spare }
        requires within { is_of self.old.shape drive ≡ true }
        ensures entry { self.new ≡ with_entry self.old (record { by = by; order = Order.Up drive; effect = result }) }
        ensures legal { IsBoardStep self.old.shape (log_of self.old) (record { by = by; order = Order.Up drive; effect = result }) }
    {
        self.give(by, Order::Up(drive))
    }

    /// Carries out an order, and appends it to the log.
    fn give(&mut self, by: By, order: Order) -> Effect
        requires spare { 1 ≤ self.old.spare }
        requires within { IsWithin self.old.shape order }
        ensures entry { self.new ≡ with_entry self.old (record { by = by; order = order; effect = result }) }
        ensures legal { IsBoardStep self.old.shape (log_of self.old) (record { by = by; order = order; effect = result }) }
    {
        let effect = self.states.give(self.shape, &order);
        self.stamps.push_reserved(EntryStamp {
            turn: self.turns,
            seat: self.seat,
        });
        self.entries.push_reserved(BoardEntry { by, order, effect });
        effect
    }
}
