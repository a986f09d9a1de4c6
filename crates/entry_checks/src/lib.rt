//! Whether an entry of a file's log is legal after the entries before it: creations, reads, and the refusals of both.
#![tactic(auto)]

mod creation;
mod facts;
mod reads;
mod writes;

pub use facts::FileFacts;
