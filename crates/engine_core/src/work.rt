//! What workers take on: some items of a job, and one of them.

use domains::DriveSet;
use job_rules::{JobId, JobKind};

/// 1 to 8 items of a job's phase that follow one another, from the first on.
#[derive(Clone, Copy, Debug)]
pub struct Task {
    pub job: JobId,
    pub phase: u8,
    pub first: u16,
    pub count: u8,
}

/// An item of a job's phase, the drives that the job bars, and the position at which the item goes on.
#[derive(Clone, Copy, Debug)]
pub struct Work {
    pub job: JobId,
    pub kind: JobKind,
    pub phase: u8,
    pub item: u16,
    pub bars: DriveSet,
    pub from_group: u16,
}
