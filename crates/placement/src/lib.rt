//! Where the units of a protection group go: slots drawn in the order of placement, and written.
#![tactic(auto)]

mod draw_call;
mod partial_group;
mod place_call;
mod refusal;
mod unit_writes;

pub use draw_call::draw;
pub use place_call::place;
pub use refusal::{NoRoom, PlaceRefusal};
pub use slot_search::EmptyAt;
