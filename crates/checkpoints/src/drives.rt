//! The drives of a set as a list.

ghost use Rattle.std.specs.Prelude.{◌≡◌, ◌≤◌, ◌++◌, IfOk, OnOk};
ghost use Rattle.std.specs.List.{filter, list_any};
ghost use Rattle.domains.specs.Drive.{Drive, IsDrive, same_drive};
ghost use Rattle.domains.specs.DriveSet.{has};
ghost use Rattle.checkpoints.specs.Saved.{drives_of, drives_on};

use domains::{DriveId, DriveSet, NodeId};
use std::alloc::{AllocError, Global};

/// The drives of a set, ascending.
pub(crate) fn drives_of(alloc: Global, set: &DriveSet) -> Result<Vec<DriveId>, AllocError>
    ensures { IfOk result (λ drives. drives.items ≡ drives_of set.now) }
{
    let mut drives = Vec::new(alloc);
    for node in 0..NodeId::MAX {
        append_node(&mut drives, set, node + 1)?;
    }
    Ok(drives)
}

/// Appends the drives of a node that are in the set.
fn append_node(drives: &mut Vec<DriveId>, set: &DriveSet, node: u8) -> Result<(), AllocError>
    requires some { 1 ≤ node }
    requires within { node ≤ 32 }
    ensures { OnOk result (drives.new.items ≡ drives.old.items ++ filter (has set.now) (drives_on node 16)) }
{
    for number in 0..DriveId::MAX_IN_NODE {
        let drive = DriveId::new(node, number + 1);
        if set.has(drive) {
            drives.push(drive)?;
        }
    }
    Ok(())
}

/// The set of these drives.
pub(crate) fn set_of(drives: &[DriveId]) -> DriveSet
    ensures { (d : Drive) → IsDrive d → has result d ≡ list_any (same_drive d) drives.now }
{
    let mut set = DriveSet::new();
    for drive in drives {
        set.add(*drive);
    }
    set
}
