//! Why a change comes too late.

use domains::DriveId;
use thiserror::Error;

/// Why a change was not made. The first six name the first entry after the change's copy that stands against it, counted from 1.
#[derive(Clone, Copy, Debug, PartialEq, Eq, Error)]
pub enum Stale {
    /// The entry replaced a group that the change replaces.
    #[error("entry {entry} replaced generation {generation}")]
    Replaced {
        generation: u32,
        entry: u32,
    },
    /// The entry says that a unit is dead which the change keeps.
    #[error("entry {entry} marked unit {position} of generation {generation} dead")]
    Dead {
        generation: u32,
        position: u8,
        entry: u32,
    },
    /// The entry barred a drive on which the change has a new unit.
    #[error("entry {entry} barred a drive")]
    Barred {
        drive: DriveId,
        entry: u32,
    },
    /// The entry requested another level.
    #[error("entry {entry} changed the level")]
    Level {
        entry: u32,
    },
    /// The entry created or deleted the file.
    #[error("entry {entry} created or deleted the file")]
    Presence {
        entry: u32,
    },
    /// The change adds data units, and the entry changed their number, or placed the group that is last now.
    #[error("entry {entry} changed the end of the file")]
    Units {
        entry: u32,
    },
    /// The inode's slot at this position failed.
    #[error("the slot of the inode's unit {position} failed")]
    InodeSlot {
        position: u8,
    },
    #[error("out of memory")]
    NoMemory,
}
