//! How many drives a job bars.

ghost use Rattle.std.specs.Prelude.{◌≡◌, ◌≤◌, ◌+◌, ◌*◌, length};
ghost use Rattle.std.specs.List.{filter};
ghost use Rattle.domains.specs.DriveSet.{has};
ghost use Rattle.checkpoints.specs.Saved.{drives_of, drives_on};

use domains::{DriveId, DriveSet, NodeId};

/// How many drives the set has.
pub(crate) fn count_of(set: &DriveSet) -> u16
    ensures { result ≡ length (drives_of set.now) }
{
    let mut count: u16 = 0;
    for node in 0..NodeId::MAX {
        count += count_on(set, node + 1);
    }
    count
}

/// How many drives of the node the set has: at most 16.
fn count_on(set: &DriveSet, node: u8) -> u16
    requires some { 1 ≤ node }
    requires within { node ≤ 32 }
    ensures value { result ≡ length (filter (has set.now) (drives_on node 16)) }
    ensures few { result ≤ 16 }
{
    let mut count: u16 = 0;
    for number in 0..DriveId::MAX_IN_NODE {
        if set.has(DriveId::new(node, number + 1)) {
            count += 1;
        }
    }
    count
}
