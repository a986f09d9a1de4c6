//! The history of a file: the entries of its log, what they say of its bytes, its layout and its units, which entry is legal,
//! and what is stored.
#![tactic(auto)]

mod entry;
pub mod laws;
mod view;

pub use entry::{Change, FileEntry, FileEvent, FileLog, NotedEntry, Refused};
pub use view::EpochView;
