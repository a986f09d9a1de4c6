//! What is pulled of a file for a write.

ghost use Rattle.std.specs.Prelude.{◌≡◌, ◌+◌, ◌<◌, ◌≤◌, ◌^◌, length, IfOk};
ghost use Rattle.file_core.specs.FileView.{IsFile, layout_of};
ghost use Rattle.file_core.specs.Looks.{IsLook};
ghost use Rattle.range_writes.specs.PulledWrites.{WritePullTells};

use board::View;
use file_core::{FileState, Part, PullRefusal, Pulled};
use flex_io::{Slot, Steady};
use std::alloc::Global;

/// Pulls what a write of `len` bytes from `offset` on needs, whose new groups have at most `width` data units.
pub fn pull_for_write<S: Slot + Steady + Send + Drop>(
    alloc: Global,
    file: &mut FileState<S>,
    view: &View,
    offset: u64,
    len: u64,
    width: u8,
) -> Result<Pulled, PullRefusal>
    requires file { IsFile S.place_of S.content S.len_of file.old }
    requires some { 1 ≤ len }
    requires within { offset + len < 2 ^ 32 }
    ensures tells { WritePullTells S.place_of S.content S.len_of result view.now offset len width file.old file.new }
    ensures look { IfOk result (λ p. IsLook (layout_of file.old) (length file.old.notes) p.look) }
    ensures file { IsFile S.place_of S.content S.len_of file.new }
{
    let part = Part::Write {
        offset,
        len,
        n: width,
    };
    file.pull(alloc, part, view)
}
