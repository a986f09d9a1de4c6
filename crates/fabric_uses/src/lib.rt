//! Callers that show what the fabric's contracts give: threads that draw and release the slots of a cluster, after which each
//! drive has all its slots; and a slot from a cell whose content is read.
#![tactic(auto)]

mod reads;
mod trade;
mod traders;
mod whole;

pub use reads::draw_and_read;
pub use traders::{Trader, trade_apart};
pub use whole::trade_on_threads;

#[cfg(test)]
mod tests;
