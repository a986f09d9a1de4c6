//! What a checkpoint of the Job Engine says, and the bytes that spell it.
#![tactic(auto)]

mod checkpoint;
mod drives;
mod fault;
mod reading;
mod writing;

pub use checkpoint::{Checkpoint, ItemSaved, JobSaved};
pub use fault::{BadCheckpoint, CheckpointFault, CheckpointRule};
pub use reading::read;
pub use writing::write;
