//! Maps the values of a vector, each on a thread of its own.
#![tactic(auto)]

mod each;

pub use each::map_each;

#[cfg(test)]
mod tests;
