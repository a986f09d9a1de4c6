//! A whole scenario.

use crate::name::Name;
use crate::op::Script;
use domains::{Level, Shape};
use lists::List;

/// A file that a scenario declares: its name, and the level that it is created at.
#[derive(Debug, Drop)]
pub struct FileDecl {
    pub name: Name,
    pub level: Level,
}

/// A scenario: the cluster, how many workers serve its jobs, its files, and the operations of each actor.
#[derive(Debug, Drop)]
pub struct Scenario {
    pub shape: Shape,
    pub workers: u8,
    pub files: List<FileDecl>,
    pub actors: List<Script>,
}
