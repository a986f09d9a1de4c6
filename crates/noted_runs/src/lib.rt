//! What files note in a run of a scenario, and that it is legal.
#![tactic(auto)]

pub mod laws;
