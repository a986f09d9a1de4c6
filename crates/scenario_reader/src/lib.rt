//! Reads a scenario of the whole language, its files and jobs by their numbers.
#![tactic(auto)]

mod jobs;
mod laws;
mod numbers;
mod op;
mod reading;
mod scripts;

pub use laws::{canonical_text_is_plain, canonical_text_spells, text_spells_one};
pub use reading::read;
