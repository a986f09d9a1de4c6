//! What is known of a file when its next entry is judged.

use domains::{DriveSet, Group, Level, Shape};
use entry_causes::Sight;

/// What a file's log says so far, and the drives at the entry's epoch: the cluster, the drives that may hold new units, whether the
/// file is there, its requested level and next generation, what is seen of its units, its inode's group, if it has one, and the groups of
/// its map.
#[derive(Clone, Copy)]
pub struct FileFacts<'a> {
    pub shape: Shape,
    pub usable: &'a DriveSet,
    pub present: bool,
    pub requested: Level,
    pub next: u64,
    pub sight: Sight<'a>,
    pub root: &'a [Group],
    pub groups: &'a [Group],
}
