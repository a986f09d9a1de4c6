//! The units of a new inode.

ghost use Rattle.std.specs.Prelude.{◌≡◌, ◌+◌, ◌<◌, ◌≤◌, length, replicate, IfOk};
ghost use Rattle.inode_codec.specs.Inode.{inode_bytes};
ghost use Rattle.file_core.specs.Creation.{empty_inode};

use file_core::FileState;
use flex_io::Slot;
use rs_codes::Units;
use std::alloc::{AllocError, Global};

/// The units of the inode of a new file, of a mirrored group: each is the inode's bytes.
pub(crate) fn inode_units<S: Slot + Send + Drop>(
    alloc: Global,
    file: &FileState<S>,
    count: u8,
) -> Result<Units, AllocError>
    requires few { count < 255 }
    ensures units { IfOk result (λ made. made.units ≡ replicate count (inode_bytes (empty_inode file.now.level file.now.shape.unit))) }
    ensures length { IfOk result (λ made. made.unit_length ≤ 262144) }
{
    let text = file.new_inode(alloc)?;
    copies(alloc, &text, count)
}

/// `count` units of these bytes.
#[tactic(auto, using(crate::proofs::InodeCopies::copies_more))]
fn copies(alloc: Global, bytes: &[u8], count: u8) -> Result<Units, AllocError>
    requires bytes { length bytes.now ≤ 262144 }
    requires few { count < 255 }
    ensures units { IfOk result (λ made. made.units ≡ replicate count bytes.now) }
    ensures length { IfOk result (λ made. made.unit_length ≡ length bytes.now) }
{
    let mut units = Units::new(alloc, bytes.len() as u32);
    for _copy in 0..count {
        units.push(bytes)?;
    }
    Ok(units)
}
