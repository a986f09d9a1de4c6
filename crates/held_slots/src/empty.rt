//! Why no slot was taken.

use thiserror::Error;

/// No slot of the drive was there at this turn of the cell.
#[derive(Clone, Copy, Debug, PartialEq, Eq, Error)]
#[error("no slot is free")]
pub struct Empty {
    pub turn: u64,
}
