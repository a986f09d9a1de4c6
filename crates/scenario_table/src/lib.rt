//! The table that the text of a scenario is in TOML: its numbers, the rows of its files, and the texts of its operations.
#![tactic(auto)]

mod draft;
mod laws;
mod members;
mod outline;
mod reading;
mod rows;
mod word;

pub use draft::{Draft, FileRow};
pub use laws::canonical_reads_back;
pub use reading::{TableFault, read_table};
pub use word::Word;
