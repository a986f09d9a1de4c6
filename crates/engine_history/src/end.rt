//! How an item ended.

use domains::{DriveId, Lost};
use lists::List;

/// How an item ended: with all of its work done, with a group that lost too much, or short of what it needs.
#[derive(Debug, Drop)]
pub enum End {
    Whole,
    Lost(Lost),
    Short(Short),
}

/// What an item was short of.
#[derive(Debug, Drop)]
pub enum Short {
    /// The usable drives have room for `have` units, below the `need` that the level asks for.
    TooFew {
        have: u16,
        need: u8,
    },
    /// `got` of `need` slots were free; these drives were found empty, in this order.
    NoRoom {
        need: u8,
        got: u8,
        drives: List<DriveId>,
    },
    /// The file would have this number of groups.
    TooLong {
        count: u64,
    },
}
