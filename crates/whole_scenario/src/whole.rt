//! A whole scenario.

use crate::op::Script;
use domains::Shape;
use lists::List;
use operation_text::JobName;
use scenario::FileDecl;

/// A scenario: the cluster, how many workers serve its jobs, its files, the names of its jobs in the order of their
/// starts (by actor and then by operation), and the operations of each actor.
#[derive(Debug, Drop)]
pub struct Scenario {
    pub shape: Shape,
    pub workers: u8,
    pub files: List<FileDecl>,
    pub jobs: List<JobName>,
    pub actors: List<Script>,
}
