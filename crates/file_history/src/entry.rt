//! The entries of a file's log.

use domains::{By, DriveId, DriveSet, Group, Level, Lost, TooFew};
use job_rules::JobId;
use lists::List;

/// What a write or a repair does to the layout: the generations that it takes away, the groups that it puts in their
/// place, and the new inode.
#[derive(Debug, Drop)]
pub struct Change {
    pub old: List<u32>,
    pub new: List<Group>,
    pub inode: Group,
}

/// What was done to the file, or refused. Offsets, lengths and sizes are in bytes.
#[derive(Debug, Drop)]
pub enum FileEvent {
    Created {
        inode: Group,
    },
    Deleted,
    Written {
        offset: u64,
        len: u32,
        size: u64,
        change: Change,
    },
    Shown {
        offset: u64,
        len: u32,
        bytes: List<u8>,
    },
    LevelSet {
        level: Level,
    },
    Placed {
        job: JobId,
        change: Change,
    },
    Dead {
        generation: u32,
        position: u8,
    },
    Barred {
        job: JobId,
        drives: DriveSet,
    },
    Cleared {
        job: JobId,
        drives: DriveSet,
    },
    Marked {
        job: JobId,
        count: u32,
    },
    Refused(Refused),
}

/// Why an operation was refused.
#[derive(Debug, Drop)]
pub enum Refused {
    CreateExists,
    CreateTooFew(TooFew),
    CreateNoRoom {
        need: u8,
        got: u8,
        drives: List<DriveId>,
    },
    DeleteAbsent,
    WriteAbsent {
        offset: u64,
        len: u32,
    },
    WriteTooFew {
        offset: u64,
        len: u32,
        fault: TooFew,
    },
    WriteTooLong {
        offset: u64,
        len: u32,
        count: u64,
    },
    WriteLost {
        offset: u64,
        len: u32,
        lost: Lost,
    },
    WriteNoRoom {
        offset: u64,
        len: u32,
        need: u8,
        got: u8,
        drives: List<DriveId>,
    },
    ReadAbsent {
        offset: u64,
        len: u32,
    },
    ReadLost {
        offset: u64,
        len: u32,
        lost: Lost,
    },
    LevelAbsent {
        level: Level,
    },
}

/// One entry of a file's log: who made it, how many entries the board had, and what was done.
#[derive(Debug, Drop)]
pub struct FileEntry {
    pub by: By,
    pub epoch: u32,
    pub event: FileEvent,
}

/// The log of a file, from its first entry.
pub type FileLog = List<FileEntry>;

/// An entry as a file notes it: with the bytes that its operation writes, none if it is no write. What the drives were at
/// its epoch is kept once an epoch, as an [`EpochView`](crate::EpochView).
#[derive(Debug, Drop)]
pub struct NotedEntry {
    pub entry: FileEntry,
    pub payload: List<u8>,
}
