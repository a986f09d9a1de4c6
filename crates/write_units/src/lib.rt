//! The units of the groups that a write brings, from the old bytes at hand and the payload.
#![tactic(auto)]

mod built_units;
pub mod laws;
mod old_data;
mod run_bytes;

pub use built_units::group_units;
pub use old_data::{OldGroup, old_group, old_groups};
pub use run_bytes::bytes_around;
