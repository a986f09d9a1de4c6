//! Why a write is refused.

use domains::{Lost, TooFew};
use placement::NoRoom;
use thiserror::Error;

/// Why a range was not written. Of several causes the first is told, in this order, but `LogFull` before all others.
#[derive(Debug, Drop, Error)]
pub enum WriteRefusal {
    #[error("the file is absent")]
    Absent,
    #[error("too few drives are usable")]
    TooFew(TooFew),
    #[error("the map would have {count} groups")]
    TooLong { count: u64 },
    #[error("a group has too few live units")]
    Lost(Lost),
    #[error("too few drives have a free slot")]
    NoRoom(NoRoom),
    #[error("the log is full")]
    LogFull,
    #[error("out of memory")]
    NoMemory,
}
