//! What the table of a scenario holds, before any rule but the one of its keys.

use crate::word::Word;
use lists::List;

/// The row of a file: its name and its level, as the table has them.
#[derive(Debug, Drop)]
pub struct FileRow {
    pub name: Word,
    pub level: Word,
}

/// The values of a table of a scenario (docs/FORMATS.md, "Scenario"): numbers of any size, and texts that may mean nothing.
#[derive(Debug, Drop)]
pub struct Draft {
    pub unit: i64,
    pub nodes: i64,
    pub drives: i64,
    pub slots: i64,
    pub workers: i64,
    pub files: List<FileRow>,
    pub actors: List<List<Word>>,
}
