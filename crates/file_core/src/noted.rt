//! What a file notes of a call.

use file_history::{EpochView, NotedEntry};

/// An entry with the bytes that it writes, and the view that its call brought.
#[derive(Debug, Drop)]
pub struct Noted {
    pub view: EpochView,
    pub told: NotedEntry,
}
