//! The new groups of a change and its inode on new slots, drawn and written in their order; and their way back, if the change is not made.
#![tactic(auto)]

mod group;
mod inode;
mod returned;
mod run;
mod terms;

pub use returned::{give_group_back, give_groups_back, give_run_back};
pub use run::{PlacedRun, place_run};
pub use terms::RunTerms;
