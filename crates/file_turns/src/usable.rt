//! The drives that may hold new units of a file.

ghost use Rattle.std.specs.Prelude.{◌≡◌, not, ◌&&◌};
ghost use Rattle.domains.specs.Drive.{Drive, IsDrive, same_drive};
ghost use Rattle.domains.specs.DriveSet.{has};

use domains::{DriveId, DriveSet};

/// How many drives a set can have: 16 on each of 32 nodes.
const DRIVES: u16 = 512;

/// The drives that are up and that the file does not bar.
pub fn usable_drives(up: &DriveSet, barred: &DriveSet) -> DriveSet
    ensures { (d : Drive) → IsDrive d → has result d ≡ (has up.now d && not (has barred.now d)) }
{
    let mut usable = *up;
    for rank in 0..DRIVES {
        let drive = DriveId::new((rank / 16) as u8 + 1, (rank % 16) as u8 + 1);
        remove_if_in(&mut usable, barred, drive);
    }
    usable
}

/// Removes a drive, if it is one of these.
#[tactic(auto, using(crate::proofs::UsableDrives::removed_in, crate::proofs::UsableDrives::stays_out))]
fn remove_if_in(set: &mut DriveSet, drives: &DriveSet, drive: DriveId)
    ensures { (d : Drive) → IsDrive d → has set.new d ≡ (has set.old d && not (has drives.now d && same_drive d drive)) }
{
    if drives.has(drive) {
        set.remove(drive);
    }
}
