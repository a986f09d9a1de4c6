//! The files of a cluster, each at a cell of its own with one seat: how they are opened, and how they end.
#![tactic(auto)]

mod all_files;
mod file_end;
pub mod laws;
mod open_file;

pub use all_files::{close_files, open_files};
pub use open_file::OpenFile;
