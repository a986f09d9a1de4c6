//! What an actor does.

use domains::DriveId;
use job_rules::{JobId, JobKind};
use lists::List;
use operation_text::{DriveOrder, FileAction, JobOrder};

/// An operation of an actor. Files are numbered from 0 in scenario order, nodes from 1, jobs from 1 in the order of
/// their starts.
#[derive(Debug, Drop)]
pub enum Op {
    OnFile {
        file: u16,
        action: FileAction,
    },
    OnDrive {
        order: DriveOrder,
        drive: DriveId,
    },
    FailNode {
        node: u8,
    },
    Start {
        kind: JobKind,
        job: JobId,
        priority: u8,
    },
    OnJob {
        order: JobOrder,
        job: JobId,
    },
    Work {
        steps: u32,
    },
    Drain,
    RestartEngine,
}

/// The operations of one actor, in their order.
pub type Script = List<Op>;
