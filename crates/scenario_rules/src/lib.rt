//! The rules of scenarios in their order, and the first that a text breaks.
#![tactic(auto)]

mod actors;
mod checks;
mod files;
mod numbers;
mod placing;
mod reading;
mod rule;

pub use reading::{NamedScenario, read_named};
pub use rule::{BadScenario, Rule, ScenarioFault};
