//! What a search for slots is given.

ghost use Rattle.std.specs.Prelude.{◌≡◌, false, ◌+◌, ◌/◌, ◌%◌, ◌<◌, ◌≤◌};
ghost use Rattle.domains.specs.Drive.{Drive, IsDrive};
ghost use Rattle.domains.specs.DriveSet.{has};
ghost use Rattle.domains.specs.Room.{drives_on};
ghost use Rattle.slot_search.specs.HandSeats.{draw_request};
ghost use Rattle.slot_search.specs.Searches.{request_of};

use board::View;
use domains::{DriveId, DriveSet, Level, Shape};

/// A group's level, the cluster, the drives that are allowed and those that are up, those that the group uses already,
/// its spin, and how many slots it wants. No slot is drawn on the barred drives.
#[derive(Clone, Copy)]
pub struct Request {
    pub level: Level,
    pub shape: Shape,
    pub allowed: DriveSet,
    pub up: DriveSet,
    pub used: DriveSet,
    pub barred: DriveSet,
    pub spin: u32,
    pub count: u8,
}

impl Request {
    /// The request of a call, with no drive barred.
    pub fn new(
        level: &Level,
        shape: &Shape,
        view: &View,
        allowed: &DriveSet,
        used: &DriveSet,
        spin: u32,
        count: u8,
    ) -> Request
        ensures asks { request_of result ≡ draw_request level.now shape.now view.now allowed.now used.now spin }
        ensures shape { result.shape ≡ shape.now }
        ensures up { result.up ≡ view.now.up }
        ensures count { result.count ≡ count }
        ensures barred { (d : Drive) → has result.barred d ≡ false }
    {
        Request {
            level: *level,
            shape: *shape,
            allowed: *allowed,
            up: view.up,
            used: *used,
            barred: DriveSet::new(),
            spin,
            count,
        }
    }

    /// The node that is visited after `step` others of a round.
    pub(crate) fn node(&self, step: u8) -> u8
        ensures value { result ≡ 1 + (self.now.spin + step) % self.now.shape.nodes }
        ensures some { 1 ≤ result }
        ensures within { result ≤ self.now.shape.nodes }
    {
        1 + ((u64::from(self.spin) + u64::from(step)) % u64::from(self.shape.nodes())) as u8
    }

    /// The drive of a node that is tried after `step` others.
    pub(crate) fn drive(&self, node: u8, step: u8) -> DriveId
        requires some { 1 ≤ node }
        requires within { node ≤ self.now.shape.nodes }
        ensures { result ≡ record { node = node; drive = 1 + (self.now.spin / self.now.shape.nodes + step) % self.now.shape.drives } }
    {
        let turns = u64::from(self.spin / u32::from(self.shape.nodes()));
        DriveId::new(
            node,
            1 + ((turns + u64::from(step)) % u64::from(self.shape.drives())) as u8,
        )
    }
}

/// How many drives of the node are in the set.
pub(crate) fn drives_on(shape: Shape, node: u8, drives: &DriveSet) -> u8
    requires some { 1 ≤ node }
    requires within { node ≤ shape.nodes }
    ensures { result ≡ drives_on shape.drives node (has drives.now) }
{
    let mut count = 0;
    for drive in 0..shape.drives() {
        if drives.has(DriveId::new(node, drive + 1)) {
            count += 1;
        }
    }
    count
}
