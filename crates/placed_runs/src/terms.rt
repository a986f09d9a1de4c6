//! What the groups of a run have in common.

use board::View;
use domains::{DriveSet, Level};

/// What the groups of a run have in common: their level, the view and the drives that may hold their units, which have `unit` bytes.
#[derive(Clone, Copy)]
pub struct RunTerms {
    pub level: Level,
    pub view: View,
    pub usable: DriveSet,
    pub unit: u32,
}
