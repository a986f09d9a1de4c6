//! An order to a drive or a node, and what it did.

use domains::{By, DriveId, NodeId};

/// The state of a drive. A drive that is gone never comes back; one that is down keeps what it holds.
#[derive(Clone, Copy, Debug, PartialEq, Eq)]
pub enum State {
    Up,
    Down,
    Gone,
}

/// An order to the board.
#[derive(Clone, Copy, Debug, PartialEq, Eq)]
pub enum Order {
    Fail(DriveId),
    FailNode(NodeId),
    Down(DriveId),
    Up(DriveId),
}

/// What an order did: some state changed, or none did and `is` is the state that stays.
#[derive(Clone, Copy, Debug, PartialEq, Eq)]
pub enum Effect {
    Changed,
    NoChange { is: State },
}

/// One entry of the board's log.
#[derive(Clone, Copy, Debug, PartialEq, Eq)]
pub struct BoardEntry {
    pub by: By,
    pub order: Order,
    pub effect: Effect,
}
