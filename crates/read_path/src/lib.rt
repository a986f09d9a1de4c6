//! The path that reads a striped file, in one turn of the file's cell.
#![tactic(auto)]

mod byte_range;
mod decoding;
mod pulled_range;
mod reading;

pub use reading::{ReadRefusal, read};

#[cfg(test)]
mod tests;
