//! The rules of the Job Engine: the kinds of jobs, their order, which of them run together, and why another waits.
#![tactic(auto)]

mod choice;
mod job;
mod kept;
mod kind;
pub mod laws;
mod phase;
mod rank;
mod waits;

pub use choice::chosen;
pub use job::JobId;
pub use kept::Kept;
pub use kind::{JobKind, Sets};
pub use phase::{Items, Phase};
pub use rank::{JobView, rank_before, shares};
pub use waits::{Waits, why};
