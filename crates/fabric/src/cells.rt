//! The cells of a fabric.

use board::Board;
use domains::Shape;
use flex_io::Slot;
use slot_pool::Pool;
use slot_yard::Yard;
use turn_cell::TurnCell;

/// The cells of a cluster's board, of its yard, and of the pools of the drives that are open so far.
pub(crate) struct Cells<S: Slot + Send + Drop> {
    pub(crate) shape: Shape,
    pub(crate) board: TurnCell<Board>,
    pub(crate) yard: TurnCell<Yard<S>>,
    /// Node by node, and within a node drive by drive.
    pub(crate) pools: Vec<TurnCell<Pool<S>>>,
}
