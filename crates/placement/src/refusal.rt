//! Why a group was not placed.

use domains::Place;
use lists::List;
use slot_search::EmptyAt;
use thiserror::Error;

/// Too few drives gave a slot: `got` of the `need` slots that the group wants.
#[derive(Debug, Drop, Error)]
#[error("{got} of {need} slots were found")]
pub struct NoRoom {
    pub need: u8,
    pub got: u8,
    /// The drives that had no free slot, in the order in which they were tried.
    pub empty: List<EmptyAt>,
    /// The slots that failed, and are retired, in the order of their failures.
    pub failed: List<Place>,
}

/// Why a group has no slots.
#[derive(Debug, Drop, Error)]
pub enum PlaceRefusal {
    #[error("too few drives have a free slot")]
    NoRoom(NoRoom),
    #[error("out of memory")]
    NoMemory,
}
