//! What is pulled of a file for a range.

ghost use Rattle.std.specs.Prelude.{◌≤◌};
ghost use Rattle.file_core.specs.FileView.{IsFile};
ghost use Rattle.read_path.specs.PulledRanges.{PullTells};

use board::View;
use file_core::{FileState, Part, PullRefusal, Pulled};
use flex_io::{Slot, Steady};
use std::alloc::Global;

/// Pulls what a read of `len` bytes from `offset` on needs.
pub(crate) fn pull_range<S: Slot + Steady + Send + Drop>(
    alloc: Global,
    file: &mut FileState<S>,
    view: &View,
    offset: u64,
    len: u32,
) -> Result<Pulled, PullRefusal>
    ensures tells { PullTells S.place_of S.content S.len_of S.reads result view.now offset len file.old file.new }
    ensures file { IsFile S.place_of S.content S.len_of file.new }
{
    let part = Part::Range {
        offset,
        len: u64::from(len),
    };
    file.pull(alloc, part, view)
}
