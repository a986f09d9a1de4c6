//! What is asked of a file, and why nothing is pulled.

use domains::Lost;
use thiserror::Error;

/// What is asked of a file: the bytes of a range; to write a range, where new groups have at most `n` data units; one group.
/// Offsets and lengths are in bytes.
#[derive(Clone, Copy, Debug, PartialEq, Eq)]
pub enum Part {
    Range { offset: u64, len: u64 },
    Write { offset: u64, len: u64, n: u8 },
    One { generation: u32 },
}

/// Why nothing was pulled.
#[derive(Clone, Copy, Debug, PartialEq, Eq, Error)]
pub enum PullRefusal {
    #[error("the file is absent")]
    Absent,
    #[error("no group has generation {generation}")]
    Unknown { generation: u32 },
    #[error("a group has too few live units")]
    Lost(Lost),
    #[error("out of memory")]
    NoMemory,
}
