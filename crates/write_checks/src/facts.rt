//! What is known of a file when a write to it is judged.

use entry_checks::FileFacts;

/// What is known of a file, and how many data units each group of its map has.
#[derive(Clone, Copy)]
pub struct MapFacts<'a> {
    pub file: FileFacts<'a>,
    pub widths: &'a [u8],
}
