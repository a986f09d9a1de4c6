//! Room in the log for the entries of a path.

ghost use Rattle.std.specs.Prelude.{◌≡◌, ◌+◌, ◌≤◌, ◌<◌, ◌↔◌, length, OnOk};
ghost use Rattle.std.specs.Result.{IsErrOf};
ghost use Rattle.file_core.specs.FileView.{IsFile};
ghost use Rattle.file_turns.specs.PathRoom.{entries_of_path, with_room};

use board::Grow;
use file_core::FileState;
use flex_io::Slot;

/// How many entries a path may append beside those of units that fail.
const ENTRIES: u32 = 4;

/// Makes room for the entries of a path: four, and one for each unit that the file holds, which may fail.
pub fn reserve_for_path<S: Slot + Send + Drop>(file: &mut FileState<S>) -> Result<(), Grow>
    ensures ok { OnOk result (4 ≤ file.new.spare) }
    ensures log_full { IsErrOf result Grow.LogFull ↔ (file.old.room < length file.old.notes + entries_of_path file.old) }
    ensures same { file.new ≡ with_room file.new.spare file.old }
    ensures file { IsFile S.place_of S.content S.len_of file.new }
{
    let units = file.look().units;
    file.reserve(units.saturating_add(ENTRIES))
}
