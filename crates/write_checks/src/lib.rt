//! Whether a write, as an entry of a file's log, is refused with its cause.
#![tactic(auto)]

mod facts;
mod plan;
mod refusals;

pub use facts::MapFacts;
pub use plan::Plan;
