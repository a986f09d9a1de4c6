//! The play of a scenario of striped files on one thread, by one hand, over slots from a rack.
#![tactic(auto)]

mod cells;
mod logs;
mod operations;
mod play;

pub use logs::{PlayFault, RunLogs};
pub use play::play_serial;
