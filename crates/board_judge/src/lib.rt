//! Which entry of a board's log is the first that is not legal.
#![tactic(auto)]

mod judge;
mod operations;
mod steps;
#[cfg(test)]
mod tests;

pub use judge::first_illegal_order;
pub use operations::operation_at;
