//! Which units of a plain file are live.

ghost use Rattle.std.specs.Prelude.{◌≡◌};
ghost use Rattle.plain_file.specs.Mirrors.{IsMirror};
ghost use Rattle.plain_file.specs.LiveMirrors.{live_pair, lost_mirror};
ghost use Rattle.plain_file.specs.FileParts.{MirrorsOf, layout_of};
ghost use Rattle.file_history.specs.Layout.{group_list};
ghost use Rattle.file_history.specs.Live.{short_in};
ghost use Rattle.plain_file.specs.LastMoment.{last_moment};

use crate::file_slots::FileSlots;
use crate::pair::Pair;
use crate::stock::Stock;
use domains::Lost;
use flex_io::Slot;

/// Whether a unit of the mirror is live: its drive is up.
pub(crate) fn has_live<S: Slot + Drop>(pair: &Pair<S>, stock: &Stock<S>) -> bool
    requires { IsMirror S.place_of stock.now.shape pair.now }
    ensures { result ≡ live_pair S.place_of stock.now.shape stock.now.board pair.now }
{
    stock.is_live(&pair.first) || stock.is_live(&pair.second)
}

/// The inode's group, where it lost too much.
pub(crate) fn lost_inode<S: Slot + Drop>(standing: &FileSlots<S>, stock: &Stock<S>) -> Option<Lost>
    requires { MirrorsOf S.place_of stock.now.shape standing.now }
    ensures { result ≡ short_in (group_list (layout_of S.place_of standing.now).inode)
        (last_moment stock.now.shape stock.now.board) (layout_of S.place_of standing.now) }
{
    match standing {
        FileSlots::Absent => None,
        FileSlots::Empty { inode } => lost_group(0, inode, stock),
        FileSlots::Written {
            size: _,
            units: _,
            inode,
        } => lost_group(2, inode, stock),
    }
}

/// The group of this generation, where both units of the mirror are lost.
pub(crate) fn lost_group<S: Slot + Drop>(
    generation: u32,
    pair: &Pair<S>,
    stock: &Stock<S>,
) -> Option<Lost>
    requires { IsMirror S.place_of stock.now.shape pair.now }
    ensures { result ≡ lost_mirror generation (live_pair S.place_of stock.now.shape stock.now.board pair.now) }
{
    if has_live(pair, stock) {
        return None;
    }
    Some(Lost {
        generation,
        have: 0,
        need: 1,
    })
}
