//! Why an operation on a file is refused: too few drives, no room, or a group that has too few live units.
#![tactic(auto)]

mod live;
mod needs;
mod room;

pub use live::Sight;
pub use needs::Asked;
pub use room::{has_no_room, has_room, has_too_few};
