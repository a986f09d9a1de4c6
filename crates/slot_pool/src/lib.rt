//! The free slots of a drive as a stack, with what each seat took and gave, as the state of a turn cell.
#![tactic(auto)]

mod chronicle;
mod pool;
mod tallies;
mod tally;

pub use chronicle::DriveSlots;
pub use pool::Pool;
pub use tally::Tally;
