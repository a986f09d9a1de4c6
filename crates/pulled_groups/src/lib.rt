//! Groups of a file, read from their slots.
#![tactic(auto)]

mod pull_groups;
mod reading;

pub use pull_groups::{PulledGroup, pull_all};
