//! The order in which the operations of several scripts are done on one thread.
#![tactic(auto)]

pub mod laws;
mod order;

pub use order::serial_order;

#[cfg(test)]
mod tests;
