//! The paths that create and remove a striped file, each in one turn of the file's cell.
#![tactic(auto)]

mod creation;
mod inode_units;
mod release;
mod removal;

pub use creation::{CreateRefusal, create};
pub use removal::{RemoveRefusal, remove};
