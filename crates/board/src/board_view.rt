//! What a board shows of its drives.

ghost use Rattle.std.specs.Prelude.{◌≡◌, length};
ghost use Rattle.board.specs.History.{log_of};
ghost use Rattle.board.specs.Views.{IsViewOf};

use crate::board::Board;
use domains::DriveSet;

/// The drives that are up, and those that are gone, after the first `epoch` entries of the board's log.
#[derive(Clone, Copy, Debug, PartialEq, Eq)]
pub struct View {
    pub epoch: u32,
    pub up: DriveSet,
    pub gone: DriveSet,
}

impl Board {
    /// What the board shows now.
    pub(crate) fn present(&self) -> View
        ensures epoch { result.epoch ≡ length self.now.notes }
        ensures view { IsViewOf self.now.shape (log_of self.now) result }
    {
        View {
            epoch: self.entries.len() as u32,
            up: self.states.up,
            gone: self.states.gone,
        }
    }
}
