//! The report of a run: its logs, what makes them legal, and the one text that prints them.
#![tactic(auto)]

mod board_lines;
mod file_lines;
mod logs;
mod printed;
mod words;

pub use board_lines::write_board_entry;
pub use file_lines::write_file_entry;
pub use logs::Logs;
pub use printed::{print, write_board, write_files};
