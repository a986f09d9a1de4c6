//! The log of the Job Engine: its entries, the jobs that they leave, and which entries are legal after a log.
#![tactic(auto)]

mod end;
mod entry;
mod job;
pub mod laws;

pub use end::{End, Short};
pub use entry::{EngineEntry, EngineEvent, Finished, JobOrder, OrderEffect};
pub use job::JobState;
