//! Scenarios of the whole language: a cluster, its files and jobs, and what each actor does in turn.
#![tactic(auto)]

mod canonical;
mod op;
mod op_line;
mod payload;
mod whole;

pub use canonical::{print, write_scenario};
pub use op::{Op, Script};
pub use op_line::write_op;
pub use payload::payload_bytes;
pub use whole::Scenario;

#[cfg(test)]
mod tests;
