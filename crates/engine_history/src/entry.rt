//! The entries of the engine's log (docs/FORMATS.md, "Engine lines").

use crate::end::End;
use domains::{By, DriveSet};
use job_rules::{JobId, JobKind};

/// An entry: who made it, and what it says.
#[derive(Debug, Drop)]
pub struct EngineEntry {
    pub by: By,
    pub event: EngineEvent,
}

/// What an entry says.
#[derive(Debug, Drop)]
pub enum EngineEvent {
    /// A job begins: its kind and priority, the epoch of the board, and the drives that it bars.
    Start {
        job: JobId,
        kind: JobKind,
        priority: u8,
        epoch: u32,
        bars: DriveSet,
    },
    /// A job is refused, since as many were started as an engine takes.
    JobsFull {
        job: JobId,
    },
    /// A user's order to a job, and what it did.
    Order {
        job: JobId,
        order: JobOrder,
        effect: OrderEffect,
    },
    /// Items of the job's phase are given out, from the first on.
    HandOut {
        job: JobId,
        phase: u8,
        first: u16,
        count: u8,
    },
    /// An item that is out has come to a position.
    Progress {
        job: JobId,
        item: u16,
        next: u16,
    },
    /// An item is to be done again from a position on.
    GiveBack {
        job: JobId,
        item: u16,
        next: u16,
    },
    /// An item has ended.
    Done {
        job: JobId,
        item: u16,
        end: End,
    },
    /// All items of the job's phase have ended.
    PhaseEnd {
        job: JobId,
        phase: u8,
    },
    /// All phases of the job have ended.
    Finish {
        job: JobId,
        result: Finished,
    },
    /// The engine went on from a checkpoint.
    Restart,
    /// `work` was asked for `asked` steps, and did `steps`.
    Work {
        asked: u32,
        steps: u32,
    },
    /// `drain` did this number of steps.
    Drain {
        steps: u32,
    },
}

/// What a user orders a job to do.
#[derive(Clone, Copy, Debug, PartialEq, Eq)]
pub enum JobOrder {
    Pause,
    Resume,
    Cancel,
}

/// What an order did: it changed the job, the job was so before, or it is not started or at its end.
#[derive(Clone, Copy, Debug, PartialEq, Eq)]
pub enum OrderEffect {
    Changed,
    Same,
    NotActive,
}

/// How a job finished: with every item whole, or not.
#[derive(Clone, Copy, Debug, PartialEq, Eq)]
pub enum Finished {
    Done,
    Partial,
}
