//! A node of a cluster.

ghost use Rattle.std.specs.Prelude.{◌≡◌, ◌≤◌};

use std::marker::Model;

/// A node by its number, from 1 to 32. Contracts see the number.
#[derive(Clone, Copy, Debug, PartialEq, Eq, PartialOrd, Ord)]
pub struct NodeId {
    number: u8,
}

impl Model for NodeId {
    ghost use Rattle.std.specs.Prelude.{ℕ, ◌≤◌};

    ghost Value = { ℕ };

    ghost view = { λ n. n.number };

    ghost invariant = { λ n. (1 ≤ n.number) × (n.number ≤ 32) };

    ghost inverse = { λ n. record { number = n } };
}

impl NodeId {
    /// The most nodes of a cluster.
    pub const MAX: u8 = 32;

    pub fn new(number: u8) -> NodeId
        requires some { 1 ≤ number }
        requires within { number ≤ 32 }
        ensures { result ≡ number }
    {
        NodeId { number }
    }

    pub fn number(self) -> u8
        ensures value { result ≡ self }
        ensures some { 1 ≤ result }
        ensures within { result ≤ 32 }
    {
        self.number
    }
}
