//! Weighted sums of byte strings over the field, 32 bytes at a time in vector lanes.
#![tactic(auto)]

mod dots;
mod half_tables;
mod lanes;
mod multiples;
mod rows;
#[cfg(test)]
mod tests;
mod weighted;

pub use dots::{dot, dot_any};
pub use multiples::mul_add;
pub use weighted::weighted_sums;
