//! An order to the board by an actor's hand: a drive that fails, goes down or comes up, or a node that fails.
#![tactic(auto)]

mod order;

pub use order::give_order;
