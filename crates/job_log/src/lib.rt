//! The engine's log beside the jobs that it leaves, changed entry by entry.
#![tactic(auto)]

mod bars;
mod entry_stamp;
mod item_change;
mod job;
mod job_log;

pub use job::Job;
pub use job_log::{Grow, JobLog, place_of};
