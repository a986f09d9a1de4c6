//! The history of a cluster's drives: the orders given to the board, and the states that they leave.
#![tactic(auto)]

mod entry;

pub use entry::{BoardEntry, Effect, Order, State};
