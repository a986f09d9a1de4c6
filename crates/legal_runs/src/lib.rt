//! Which logs are a legal run of a scenario, and which part of other logs is broken first.
#![tactic(auto)]

mod verdict;

pub use verdict::Verdict;
