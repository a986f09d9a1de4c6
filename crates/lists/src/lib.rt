//! One list type for all public types: contracts see the elements in order, and nothing of the buffer.
#![tactic(auto)]

mod list;

pub use list::List;
