//! The generations and the widths of the groups of a file's map.

ghost use Rattle.std.specs.Prelude.{◌≡◌, ◌≤◌, length, IfOk};
ghost use Rattle.file_history.specs.WriteRule.{generations_of};
ghost use Rattle.file_core.specs.FileView.{layout_of};
ghost use Rattle.write_rule.specs.Runs.{widths_of};

use file_core::FileState;
use flex_io::Slot;
use std::alloc::{AllocError, Global};

/// Of the groups of a map, in order, the generations and the numbers of data units.
#[derive(Drop)]
pub(crate) struct MapHeads {
    pub(crate) generations: Vec<u32>,
    pub(crate) widths: Vec<u8>,
}

/// The generations and the widths of the groups of the file, which has this many.
pub(crate) fn map_heads<S: Slot + Send + Drop>(
    alloc: Global,
    file: &FileState<S>,
    groups: u16,
) -> Result<MapHeads, AllocError>
    requires groups { groups ≡ length (layout_of file.now).groups }
    ensures generations { IfOk result (λ heads. heads.generations.items ≡ generations_of (layout_of file.now).groups) }
    ensures widths { IfOk result (λ heads. heads.widths.items ≡ widths_of (layout_of file.now).groups) }
{
    let mut heads = MapHeads {
        generations: Vec::with_capacity(alloc, usize::from(groups))?,
        widths: Vec::with_capacity(alloc, usize::from(groups))?,
    };
    for position in 0..groups {
        let Some(group) = file.group_at(position) else {
            unreachable!()
        };
        heads.generations.push(group.generation)?;
        heads.widths.push(group.n)?;
    }
    Ok(heads)
}
