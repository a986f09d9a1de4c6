//! The path that requests another level of a striped file, in one turn of the file's cell.
#![tactic(auto)]

mod level_setting;

pub use level_setting::{LevelRefusal, set_level};

#[cfg(test)]
mod tests;
