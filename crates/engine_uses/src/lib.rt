//! A caller of the engine on threads: what a seat has begun, no note of another seat progresses, ends or gives back.
#![tactic(auto)]

mod own_items;

pub use own_items::{begin, end, look};

#[cfg(test)]
mod tests;
