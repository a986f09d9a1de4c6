//! Why bytes are no inode.

use thiserror::Error;

/// The fields of an inode (docs/FORMATS.md, "Inode"), the end within one, a sum of the data units that is not that of the
/// size, and bytes left over.
#[derive(Clone, Copy, Debug, PartialEq, Eq)]
pub enum InodeRule {
    Mark,
    Format,
    LevelField,
    UnitField,
    Size,
    Groups,
    Generation,
    N,
    M,
    Node,
    Drive,
    Slot,
    Sum,
    Ends,
    Left,
}

/// The first field that breaks its rule, and the offset of its first byte. For `Ends` it is the number of all bytes, for
/// `Sum` the offset behind the last group, for `Left` the offset of the bytes left over.
#[derive(Clone, Copy, Debug, PartialEq, Eq, Error)]
#[error("the bytes are no inode")]
pub struct BadInode {
    pub at: u32,
    pub what: InodeRule,
}

/// Why no inode was read.
#[derive(Clone, Copy, Debug, PartialEq, Eq, Error)]
pub enum InodeFault {
    #[error("the bytes are no inode")]
    Bad(BadInode),
    #[error("out of memory")]
    NoMemory,
}
