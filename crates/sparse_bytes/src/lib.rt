//! The bytes of a file as pages, of which those in a hole take no memory.
#![tactic(auto)]

mod page;
mod sparse_bytes;
#[cfg(test)]
mod tests;

pub use sparse_bytes::SparseBytes;
