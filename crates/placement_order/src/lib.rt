//! The order in which the drives of a cluster give slots to a protection group, and the laws of that order.
#![tactic(auto)]

pub mod laws;
