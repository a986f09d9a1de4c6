//! A drive of a cluster.

ghost use Rattle.std.specs.Prelude.{◌≡◌, ◌≤◌};
ghost use Rattle.domains.specs.Drive.{IsDrive};

use std::marker::Model;

/// A drive by its node, from 1 to 32, and its number within the node, from 1 to 16.
#[derive(Clone, Copy, Debug, PartialEq, Eq, PartialOrd, Ord)]
pub struct DriveId {
    node: u8,
    drive: u8,
}

impl Model for DriveId {
    ghost use Rattle.domains.specs.Drive.{Drive, IsDrive};

    ghost Value = { Drive };

    ghost view = { λ d. record { node = d.node; drive = d.drive } };

    ghost invariant = { λ d. IsDrive (record { node = d.node; drive = d.drive }) };

    ghost inverse = { λ d. record { node = d.node; drive = d.drive } };
}

impl DriveId {
    /// The most drives of a node.
    pub const MAX_IN_NODE: u8 = 16;

    pub fn new(node: u8, drive: u8) -> DriveId
        requires { IsDrive (record { node = node; drive = drive }) }
        ensures { result ≡ record { node = node; drive = drive } }
    {
        DriveId { node, drive }
    }

    /// The number of its node, from 1.
    pub fn node(self) -> u8
        ensures value { result ≡ self.node }
        ensures within { IsDrive self }
    {
        self.node
    }

    /// Its number within the node, from 1.
    pub fn drive(self) -> u8
        ensures value { result ≡ self.drive }
        ensures within { IsDrive self }
    {
        self.drive
    }
}
