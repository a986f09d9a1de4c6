//! Numbers within their limits, taken off the front of some bytes, and what is broken where one is not.
#![tactic(auto)]

mod fault;
mod fields;

pub use fault::{Broken, ReadFault};
pub use fields::{broken, byte_at, u16_at, u32_at, u64_at};
