//! What a checkpoint says of an engine.

use domains::DriveSet;
use job_rules::{JobId, JobKind};
use lists::List;

/// The state of an engine: how many jobs were started so far, and those that are not at their end, by ascending number.
#[derive(Debug, Drop)]
pub struct Checkpoint {
    pub started: u16,
    pub jobs: List<JobSaved>,
}

/// A job: its place among the starts, whether it is paused, its phase from 0, the drives that it bars, whether an item of an
/// earlier phase ended other than whole, and the items of its phase.
#[derive(Debug, Drop)]
pub struct JobSaved {
    pub job: JobId,
    pub kind: JobKind,
    pub priority: u8,
    pub order: u16,
    pub paused: bool,
    pub phase: u8,
    pub bars: DriveSet,
    pub earlier: bool,
    pub items: List<ItemSaved>,
}

/// An item: to do or out, with the position at which it goes on, or how it ended.
#[derive(Clone, Copy, Debug, PartialEq, Eq)]
pub enum ItemSaved {
    ToDo { next: u16 },
    Out { next: u16 },
    Whole,
    Lost,
    Short,
}
