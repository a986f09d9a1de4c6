//! A job.

/// A job by its number: the place of its start in the scenario, from 1, by actor and then by operation.
#[derive(Clone, Copy, Debug, PartialEq, Eq, PartialOrd, Ord)]
pub struct JobId {
    pub number: u16,
}
