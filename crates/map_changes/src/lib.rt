//! What a change of a file's map does: the run of groups that makes way, the inode that spells the new map, and its places.
#![tactic(auto)]

pub mod laws;
mod run;

pub use run::replace_run;
