//! Why bytes are no checkpoint.

use thiserror::Error;

/// The fields of a checkpoint (docs/FORMATS.md, "Checkpoint"), the end within one, and bytes left over.
#[derive(Clone, Copy, Debug, PartialEq, Eq)]
pub enum CheckpointRule {
    Mark,
    Format,
    Started,
    Jobs,
    Job,
    Kind,
    Priority,
    Order,
    Paused,
    Phase,
    Bars,
    Node,
    Drive,
    Earlier,
    Items,
    ItemState,
    Next,
    Ends,
    Left,
}

/// The first field that breaks its rule, and the offset of its first byte. For `Ends` it is the number of all bytes, for
/// `Left` the offset of the bytes left over.
#[derive(Clone, Copy, Debug, PartialEq, Eq, Error)]
#[error("the bytes are no checkpoint")]
pub struct BadCheckpoint {
    pub at: u32,
    pub what: CheckpointRule,
}

/// Why no checkpoint was read.
#[derive(Clone, Copy, Debug, PartialEq, Eq, Error)]
pub enum CheckpointFault {
    #[error("the bytes are no checkpoint")]
    Bad(BadCheckpoint),
    #[error("out of memory")]
    NoMemory,
}
