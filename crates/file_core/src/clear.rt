//! The turn that notes that a file is clear.

ghost use Rattle.std.specs.Prelude.{◌≡◌, ◌≤◌, ◌↔◌, [], true, IfErr, IfSome, IsOk, None, OnOk, OnErr};
ghost use Rattle.domains.specs.Drive.{Drive, IsDrive};
ghost use Rattle.domains.specs.DriveSet.{has};
ghost use Rattle.file_history.specs.Refusals.{is_barred};
ghost use Rattle.file_history.specs.Step.{Clears};
ghost use Rattle.file_heads.specs.ClearFiles.{IsFirstUnclear};
ghost use Rattle.file_core.specs.Notes.{noted};
ghost use Rattle.file_core.specs.FileView.{IsFile, IsLater, layout_of, with_note};

use crate::state::FileState;
use board::View;
use domains::{By, DriveSet};
use file_heads::first_unclear;
use file_history::FileEvent;
use flex_io::Slot;
use job_rules::JobId;
use thiserror::Error;

/// The first group, by its position in the map, that is not at the requested level, has a dead unit or stands on a drive that is
/// to be cleared. The inode has the position behind the last group.
#[derive(Clone, Copy, Debug, PartialEq, Eq, Error)]
#[error("the group at position {position} is not clear")]
pub struct NotClear {
    pub position: u16,
}

impl<S: Slot + Send + Drop> FileState<S> {
    /// Notes for a job that the file is clear of these drives, which are barred: each group and the inode are at the requested
    /// level, and none of their units is dead or stands on one of the drives. An absent file is clear. It needs room for one entry
    /// (`FileState::reserve`), and allocates nothing.
    pub fn clear(
        &mut self,
        by: By,
        view: &View,
        job: JobId,
        drives: &DriveSet,
    ) -> Result<(), NotClear>
        requires spare { 1 ≤ self.old.spare }
        requires later { IsLater view.now self.old }
        requires barred { (d : Drive) → IsDrive d → has drives.now d ≡ true → is_barred (layout_of self.old) d ≡ true }
        ensures noted { OnOk result (self.new ≡ with_note self.old (noted by view.now (FileEvent.Cleared job drives.now) [])) }
        ensures kept { OnErr result (self.new ≡ self.old) }
        ensures accepts { IsOk result ↔ Clears (layout_of self.old) drives.now }
        ensures not_clear { IfErr result (λ refused. IsFirstUnclear (layout_of self.old) drives.now refused.position) }
        ensures file { IsFile S.place_of S.content S.len_of self.new }
    {
        if let Some(position) = self.first_unclear(drives) {
            return Err(NotClear { position });
        }
        self.note(
            by,
            view,
            FileEvent::Cleared {
                job,
                drives: *drives,
            },
        );
        Ok(())
    }

    /// The position of the first group that is not clear.
    fn first_unclear(&self, drives: &DriveSet) -> Option<u16>
        requires barred { (d : Drive) → IsDrive d → has drives.now d ≡ true → is_barred (layout_of self.now) d ≡ true }
        ensures clear { (result ≡ None) ↔ Clears (layout_of self.now) drives.now }
        ensures first { IfSome result (λ position. IsFirstUnclear (layout_of self.now) drives.now position) }
        ensures file { IsFile S.place_of S.content S.len_of self.now }
    {
        first_unclear(&self.groups, &self.inode, &self.head, drives, 0)
    }
}
