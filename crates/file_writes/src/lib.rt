//! The write of a range of a striped file, in one turn of the file's cell.
#![tactic(auto)]

mod noted_refusals;
mod refusal;
mod trying;

pub use noted_refusals::{note_lost, note_no_plan, note_no_room};
pub use refusal::WriteRefusal;
pub use trying::{WriteStop, try_write};
