//! A set of drives.

ghost use Rattle.std.specs.Prelude.{◌≡◌, ℕ, false, not, ◌&&◌, ◌||◌, ◌-◌, ◌^◌, ◌≤◌};
ghost use Rattle.domains.specs.Drive.{Drive, IsDrive, same_drive};
ghost use Rattle.domains.specs.Shape.{is_of};
ghost use Rattle.domains.specs.DriveSet.{has};

use crate::drive::DriveId;
use crate::shape::Shape;

/// A set of drives, a few machine words. Contracts see whether it `has` a drive.
#[derive(Clone, Copy, Debug, PartialEq, Eq)]
pub struct DriveSet {
    nodes: [u16; 32],
}

impl DriveSet {
    /// The empty set.
    pub fn new() -> DriveSet
        ensures { (d : Drive) → has result d ≡ false }
    {
        DriveSet { nodes: [0; 32] }
    }

    /// The set of all drives of a cluster.
    pub fn all(shape: Shape) -> DriveSet
        ensures { (d : Drive) → IsDrive d → has result d ≡ is_of shape d }
    {
        let mut nodes = [0; 32];
        for node in 0..usize::from(shape.nodes()) {
            nodes[node] = first_drives(shape.drives());
        }
        DriveSet { nodes }
    }

    pub fn has(&self, drive: DriveId) -> bool
        ensures value { result ≡ has self.now drive }
        ensures within { IsDrive drive }
    {
        self.nodes[usize::from(drive.node() - 1)] >> (drive.drive() - 1) & 1 == 1
    }

    /// Adds a drive. One that is there already stays.
    pub fn add(&mut self, drive: DriveId)
        ensures { (d : Drive) → IsDrive d → has self.new d ≡ (same_drive d drive || has self.old d) }
    {
        self.nodes[usize::from(drive.node() - 1)] |= 1 << (drive.drive() - 1);
    }

    /// Removes a drive, if it is there.
    pub fn remove(&mut self, drive: DriveId)
        ensures { (d : Drive) → IsDrive d → has self.new d ≡ (not (same_drive d drive) && has self.old d) }
    {
        self.nodes[usize::from(drive.node() - 1)] &= !(1 << (drive.drive() - 1));
    }
}

/// The word of a node whose first `count` drives are in the set.
fn first_drives(count: u8) -> u16
    requires { count ≤ 16 }
    ensures { result ≡ 2 ^ count - 1 }
{
    ((1u32 << count) - 1) as u16
}
