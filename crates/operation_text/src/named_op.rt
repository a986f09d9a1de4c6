//! An operation as a text spells it.

use crate::digits::Digits;
use crate::job_name::JobName;
use domains::Level;
use job_rules::JobKind;
use scenario::{Name, Text};

/// The bytes that a write brings: a text, or a pattern of `len` bytes.
#[derive(Debug, Drop)]
pub enum Payload {
    Text { text: Text },
    Fill { start: u8, len: u32 },
}

/// What is done to a file.
#[derive(Debug, Drop)]
pub enum FileAction {
    Create,
    Delete,
    Write { offset: u64, payload: Payload },
    Read { offset: u64, len: u32 },
    SetLevel { level: Level },
}

/// An order to the board about one drive.
#[derive(Clone, Copy, Debug, PartialEq, Eq)]
pub enum DriveOrder {
    Fail,
    Down,
    Up,
}

/// An order of a user about a job that was started.
#[derive(Clone, Copy, Debug, PartialEq, Eq)]
pub enum JobOrder {
    Pause,
    Resume,
    Cancel,
}

/// An operation as a text spells it (docs/FORMATS.md, "Scenario").
#[derive(Debug, Drop)]
pub enum NamedOp {
    OnFile {
        file: Name,
        action: FileAction,
    },
    OnDrive {
        order: DriveOrder,
        node: Digits,
        drive: Digits,
    },
    FailNode {
        node: Digits,
    },
    Start {
        kind: JobKind,
        job: JobName,
        priority: Option<u8>,
    },
    OnJob {
        order: JobOrder,
        job: JobName,
    },
    Work {
        steps: u32,
    },
    Drain,
    RestartEngine,
}
