//! Logs that one thread makes: each operation has its entry when its turn comes in the serial order.
#![tactic(auto)]

pub mod laws;
