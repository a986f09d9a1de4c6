//! The rank of a drive, by which queues and counts are kept.

ghost use Rattle.std.specs.Prelude.{◌≡◌, ◌*◌};
ghost use Rattle.domains.specs.Drive.{IsDrive};
ghost use Rattle.slot_yard.specs.Tallies.{rank_of};

use domains::DriveId;

/// How many drives come before this one: node by node, with room for 16 drives each.
pub(crate) fn rank(drive: DriveId) -> usize
    ensures value { result ≡ rank_of drive }
    ensures within { IsDrive drive }
{
    let before = usize::from(drive.node() - 1) * usize::from(DriveId::MAX_IN_NODE);
    before + usize::from(drive.drive() - 1)
}

/// How many ranks the drives of the nodes have.
pub(crate) fn ranks(nodes: u8) -> usize
    ensures { result ≡ nodes * 16 }
{
    usize::from(nodes) * usize::from(DriveId::MAX_IN_NODE)
}
