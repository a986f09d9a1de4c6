//! Slots that are out of their drive's pool: what holds one, where it is, and how many of some are on a drive.
#![tactic(auto)]

mod borrow;
mod empty;
mod held;

pub use empty::Empty;
pub use held::{Held, spend_all};

#[cfg(test)]
mod tests;
