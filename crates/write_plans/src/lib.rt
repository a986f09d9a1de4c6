//! What a write comes to before any slot is drawn: which groups of the file it replaces, and by how many data units each.
#![tactic(auto)]

mod map_heads;
mod plan;

pub use plan::{PlanRefusal, WritePlan, plan_write};
