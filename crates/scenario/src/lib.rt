//! Scenarios: a cluster, its files, and what each actor does in turn.
#![tactic(auto)]

mod canonical;
mod name;
mod op;
mod scenario;
mod text;

pub use canonical::{print, write_op, write_scenario};
pub use name::Name;
pub use op::{Op, Script};
pub use scenario::{FileDecl, Scenario};
pub use text::Text;

#[cfg(test)]
mod tests;
