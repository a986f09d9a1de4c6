//! The parts of a fabric.

ghost use Rattle.std.specs.Prelude.{◌≡◌, ◌<◌, ◌*◌, true, Some, slice_get};
ghost use Rattle.domains.specs.Shape.{is_of};
ghost use Rattle.domains.specs.Drive.{IsDrive};
ghost use Rattle.fabric.specs.Cells.{place_in};
ghost use Rattle.fabric.specs.Views.{fabric_view};
ghost use Rattle.turn_cell.specs.Seats.{cell_view};

use crate::fabric::Fabric;
use board::Board;
use domains::{DriveId, Shape};
use flex_io::Slot;
use slot_pool::Pool;
use turn_cell::TurnCell;

impl<S: Slot + Send + Drop> Fabric<S> {
    /// The shape of the cluster.
    pub fn shape(&self) -> &Shape
        ensures { result.now ≡ (fabric_view self.now).shape }
    {
        &self.cells.shape
    }

    /// The cell of the board.
    pub fn board(&self) -> &TurnCell<Board>
        ensures { cell_view result.now ≡ (fabric_view self.now).board }
    {
        &self.cells.board
    }

    /// The place of a drive's pool.
    pub(crate) fn place_of(&self, drive: DriveId) -> usize
        requires { is_of (fabric_view self.now).shape drive ≡ true }
        ensures value { result ≡ place_in (fabric_view self.now).shape drive }
        ensures within { result < (fabric_view self.now).shape.nodes * (fabric_view self.now).shape.drives }
    {
        let nodes_before = usize::from(drive.node() - 1);
        nodes_before * usize::from(self.cells.shape.drives()) + usize::from(drive.drive() - 1)
    }

    /// The cell of a drive's pool.
    pub(crate) fn pool(&self, place: usize) -> &TurnCell<Pool<S>>
        requires { place < (fabric_view self.now).shape.nodes * (fabric_view self.now).shape.drives }
        ensures { slice_get (fabric_view self.now).pools place ≡ Some (cell_view result.now) }
    {
        &self.cells.pools[place]
    }
}
