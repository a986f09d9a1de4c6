//! Reads a whole report of a scenario, and names the first line that is wrong.
#![tactic(auto)]

mod blocks;
mod entries;
mod files;
mod stop;
mod whole_report;

pub use files::read_blocks;
pub use stop::Stop;
pub use whole_report::{ReportFault, line_at, read_logs};

#[cfg(test)]
mod tests;
