//! Whether the groups that an entry of a file's log places are as they must be: numbered, at their level, of the right widths, and at
//! new places.
#![tactic(auto)]

mod groups;
mod places;

pub use groups::{are_at_level, are_chunks, are_numbered, are_of};
pub use places::{add_new_places, all_places};
