//! The slots of a cluster that wait for drives that are down, and those that are retired, with what each seat did with them, as the state of a turn cell.
#![tactic(auto)]

mod chronicle;
mod counts;
mod queue;
mod queues;
mod rank;
mod tallies;
mod tally;
mod yard;

pub use counts::{Counts, Move};
pub use yard::{Yard, YardParts};
