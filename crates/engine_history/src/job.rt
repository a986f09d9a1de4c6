//! A job as the log leaves it.

use checkpoints::ItemSaved;
use domains::DriveSet;
use job_rules::{JobId, JobKind};
use lists::List;

/// A job that was started: its place among the starts, from 0; whether a user paused or cancelled it, and whether it
/// finished; its phase, from 0; whether an item of an earlier phase ended other than whole; and the items of its phase.
#[derive(Debug, Drop)]
pub struct JobState {
    pub job: JobId,
    pub kind: JobKind,
    pub priority: u8,
    pub order: u32,
    pub bars: DriveSet,
    pub paused: bool,
    pub cancelled: bool,
    pub finished: bool,
    pub phase: u8,
    pub earlier: bool,
    pub items: List<ItemSaved>,
}
