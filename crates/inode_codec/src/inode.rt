//! What an inode says of its file.

use domains::{Group, Level};
use lists::List;

/// An inode: the level requested when it was placed, the bytes of a stripe unit, the size of the file in bytes, and its groups in map order.
#[derive(Debug, Drop)]
pub struct Inode {
    pub level: Level,
    pub unit: u32,
    pub size: u64,
    pub groups: List<Group>,
}
