//! How a call that runs an item came out.

use domains::Lost;
use engine_history::Short;
use thiserror::Error;

/// How a run of an item came out, and how many steps it made.
#[derive(Debug, Drop)]
pub struct Ran {
    pub end: ItemEnd,
    pub steps: u32,
}

/// An end of the item, or the position at which it goes on.
#[derive(Debug, Drop)]
pub enum ItemEnd {
    Whole,
    Lost(Lost),
    Short(Short),
    Yielded { next: u16 },
}

/// Why an item could not be run on.
#[derive(Clone, Copy, Debug, PartialEq, Eq, Error)]
pub enum JobFault {
    #[error("a log is full")]
    LogFull,
    #[error("out of memory")]
    NoMemory,
}
