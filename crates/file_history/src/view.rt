//! What a file knows of the drives.

use domains::DriveSet;

/// The drives that are up, and those that are gone, after the first `epoch` entries of the board's log. A file keeps one for
/// each epoch at which it noted an entry.
#[derive(Clone, Copy, Debug, PartialEq, Eq, Drop)]
pub struct EpochView {
    pub epoch: u32,
    pub up: DriveSet,
    pub gone: DriveSet,
}
