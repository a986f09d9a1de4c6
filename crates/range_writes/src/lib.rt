//! The steps of a write to a striped file, within one turn of the file's cell: the pull, the new groups on their slots, the change of the
//! map.
#![tactic(auto)]

mod placed_change;
mod placed_write;
mod pulled_write;

pub use placed_change::switch_placed;
pub use placed_write::place_write;
pub use pulled_write::pull_for_write;
