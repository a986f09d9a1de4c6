//! Reports of scenarios of the whole language: printed, and read back with their scenarios.
#![tactic(auto)]

mod laws;
mod logs;
mod printed;
mod reading;
mod scenario_lines;

pub use laws::two_logs_have_two_texts;
pub use logs::Logs;
pub use printed::print;
pub use reading::read;
