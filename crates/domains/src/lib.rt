//! The failure domains of a cluster: nodes, drives and slots, the protection levels over them, and how wide a group can be.
#![tactic(auto)]

mod by;
mod drive;
mod drive_set;
mod group;
pub mod laws;
mod level;
mod node;
mod place;
mod room;
mod shape;

pub use by::By;
pub use drive::DriveId;
pub use drive_set::DriveSet;
pub use group::{Group, Lost};
pub use level::{Level, NotALevel};
pub use node::NodeId;
pub use place::Place;
pub use room::{TooFew, width};
pub use shape::Shape;
