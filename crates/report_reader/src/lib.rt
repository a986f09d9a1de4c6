//! Reads the lines of a report, and says what a report's text tells of its logs.
#![tactic(auto)]

mod board_line;
mod comma_lists;
mod count_line;
mod events;
mod file_line;
mod groups;
pub mod laws;
mod refusals;
mod words;

pub use board_line::read_board_entry;
pub use count_line::read_count;
pub use file_line::read_file_entry;
pub use words::after;
