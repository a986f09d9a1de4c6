//! Slots that go back to the rack that gave them, in a stated order, whatever fails on the way.
#![tactic(auto)]

mod fabric_end;
pub mod laws;
mod slots;

pub use fabric_end::close_fabric;
pub use slots::{put_held, put_pools, put_slots};
