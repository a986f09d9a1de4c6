//! What a change of a file's map brings, and what it makes of the map: the new groups on their slots, the new inode's text, the groups
//! that make way.
#![tactic(auto)]

mod change;
mod exchanged;
mod fresh_groups;
mod held_places;
mod inode_slots;
mod map_text;
mod prepared;
mod repaired_units;

pub use change::{Fresh, FreshUnit, MapChange, Why, end_of, group_room, push_kept, slot_room};
pub use exchanged::{Exchanged, Room, put_groups};
pub use fresh_groups::{push_copies, push_fresh_places};
pub use held_places::{inode_unmarked, last_generation, none_marked};
pub use inode_slots::write_each;
pub use map_text::InodeHead;
pub use prepared::{Prepared, make_ready};
