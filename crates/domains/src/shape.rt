//! The shape of a cluster.

ghost use Rattle.std.specs.Prelude.{◌≡◌, ◌≤◌};
ghost use Rattle.domains.specs.Shape.{Shape, IsShape, is_of};

use crate::drive::DriveId;
use std::marker::Model;

/// How many nodes a cluster has, drives each node, slots each drive, and bytes a stripe unit.
#[derive(Clone, Copy, Debug, PartialEq, Eq)]
pub struct Shape {
    nodes: u8,
    drives: u8,
    slots: u16,
    unit: u32,
}

impl Model for Shape {
    ghost use Rattle.domains.specs.Shape.{Shape, IsShape};

    ghost Value = { Shape };

    ghost view = { λ s. record { nodes = s.nodes; drives = s.drives; slots = s.slots; unit = s.unit } };

    ghost invariant = { λ s. IsShape (record { nodes = s.nodes; drives = s.drives; slots = s.slots; unit = s.unit }) };

    ghost inverse = { λ c. record { nodes = c.nodes; drives = c.drives; slots = c.slots; unit = c.unit } };
}

impl Shape {
    /// The shape of these numbers, which are within the limits of docs/FORMATS.md, "Limits".
    pub fn new(nodes: u8, drives: u8, slots: u16, unit: u32) -> Shape
        requires { IsShape (record { nodes = nodes; drives = drives; slots = slots; unit = unit }) }
        ensures { result ≡ record { nodes = nodes; drives = drives; slots = slots; unit = unit } }
    {
        Shape {
            nodes,
            drives,
            slots,
            unit,
        }
    }

    /// How many nodes there are: 1 to 32.
    pub fn nodes(self) -> u8
        ensures value { result ≡ self.nodes }
        ensures within { IsShape self }
    {
        self.nodes
    }

    /// How many drives each node has: 1 to 16, and at most 200 in all.
    pub fn drives(self) -> u8
        ensures value { result ≡ self.drives }
        ensures within { IsShape self }
    {
        self.drives
    }

    /// How many slots each drive has: 1 to 4,096.
    pub fn slots(self) -> u16
        ensures value { result ≡ self.slots }
        ensures within { IsShape self }
    {
        self.slots
    }

    /// How many bytes a stripe unit has: 8 to 131,072.
    pub fn unit(self) -> u32
        ensures value { result ≡ self.unit }
        ensures within { IsShape self }
    {
        self.unit
    }

    /// Whether the drive is one of the cluster.
    pub fn has(self, drive: DriveId) -> bool
        ensures { result ≡ is_of self drive }
    {
        drive.node() <= self.nodes && drive.drive() <= self.drives
    }
}
