//! When a change of a file's map comes too late: entries behind its copy that stand against it, and places that are taken.
#![tactic(auto)]

mod basis;
mod place_marks;
mod stale;

pub use basis::{Basis, KeptUnit, is_among};
pub use place_marks::PlaceMarks;
pub use stale::Stale;
