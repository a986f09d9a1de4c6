//! A drive that has no free slot.

use domains::DriveId;

/// A drive whose pool had no free slot, and the number of turns that had passed there.
#[derive(Clone, Copy, Debug, PartialEq, Eq)]
pub struct EmptyAt {
    pub drive: DriveId,
    pub turn: u64,
}
