//! Calls that note what was done or refused, and move no slot. Each needs room for one entry (`FileState::reserve`), and
//! allocates nothing.

ghost use Rattle.std.specs.Prelude.{◌≡◌, ◌≤◌, ◌+◌, [], true, IsOk, OnOk, OnErr, ◌↔◌, length};
ghost use Rattle.file_history.specs.Bytes.{slice_of};
ghost use Rattle.file_history.specs.Layout.{all_groups, places_of};
ghost use Rattle.file_history.specs.Live.{IsReadable, range};
ghost use Rattle.file_history.specs.Refusals.{IsLegalRefusal};
ghost use Rattle.file_history.specs.Step.{Bars, IsEvent, ShowsBytes};
ghost use Rattle.file_core.specs.Notes.{noted};
ghost use Rattle.striped_groups.specs.StoredGroups.{AllTell};
ghost use Rattle.file_core.specs.FileView.{IsFile, IsLater, bytes_of, layout_of, log_of, now_of, with_note};
ghost use Rattle.file_heads.specs.Heads.{is_quiet};

use crate::state::FileState;
use board::View;
use domains::{By, DriveSet, Level};
use file_history::{FileEvent, Refused};
use flex_io::Slot;
use job_rules::JobId;
use lists::List;
use thiserror::Error;

/// The file is absent: its last accepted create or delete is none, or a delete.
#[derive(Clone, Copy, Debug, PartialEq, Eq, Error)]
#[error("the file is absent")]
pub struct Absent;

impl<S: Slot + Send + Drop> FileState<S> {
    /// Notes a refusal, whose cause holds at the view (docs/DEFINITIONS.md, "Steps of a file").
    pub fn note_refused(&mut self, by: By, view: &View, what: Refused)
        requires spare { 1 ≤ self.old.spare }
        requires later { IsLater view.now self.old }
        requires refusal { IsLegalRefusal (now_of self.old view.now) (layout_of self.old) what }
        ensures noted { self.new ≡ with_note self.old (noted by view.now (FileEvent.Refused what) []) }
        ensures file { IsFile S.place_of S.content S.len_of self.new }
    {
        self.note(by, view, FileEvent::Refused(what));
    }

    /// Notes a read of a range that is readable at the view, and the bytes that it shows. They are the file's, if the slots tell.
    pub fn note_read(&mut self, by: By, view: &View, offset: u64, len: u32, bytes: List<u8>)
        requires spare { 1 ≤ self.old.spare }
        requires later { IsLater view.now self.old }
        requires present { (layout_of self.old).present ≡ true }
        requires readable { IsReadable (now_of self.old view.now) (layout_of self.old) (range offset len) }
        requires shown { AllTell S.content → bytes ≡ slice_of (bytes_of self.old) offset len }
        ensures noted { self.new ≡ with_note self.old (noted by view.now (FileEvent.Shown offset len bytes) []) }
        ensures file { IsFile S.place_of S.content S.len_of self.new }
    {
        self.note(by, view, FileEvent::Shown { offset, len, bytes });
    }

    /// Requests another level.
    pub fn set_level(&mut self, by: By, view: &View, level: Level) -> Result<(), Absent>
        requires spare { 1 ≤ self.old.spare }
        requires later { IsLater view.now self.old }
        ensures noted { OnOk result (self.new ≡ with_note self.old (noted by view.now (FileEvent.LevelSet level) [])) }
        ensures kept { OnErr result (self.new ≡ self.old) }
        ensures accepts { IsOk result ↔ ((layout_of self.old).present ≡ true) }
        ensures file { IsFile S.place_of S.content S.len_of self.new }
    {
        if !self.is_present() {
            return Err(Absent);
        }
        self.note(by, view, FileEvent::LevelSet { level });
        Ok(())
    }

    /// Bars drives, which are gone in the view and of which one is not barred yet, for a job. No new unit goes to a barred drive.
    pub fn bar(&mut self, by: By, view: &View, job: JobId, drives: &DriveSet)
        requires spare { 1 ≤ self.old.spare }
        requires later { IsLater view.now self.old }
        requires bars { Bars (now_of self.old view.now) (layout_of self.old) drives.now }
        ensures noted { self.new ≡ with_note self.old (noted by view.now (FileEvent.Barred job drives.now) []) }
        ensures file { IsFile S.place_of S.content S.len_of self.new }
    {
        self.note(
            by,
            view,
            FileEvent::Barred {
                job,
                drives: *drives,
            },
        );
    }

    /// Notes for a job how many units the file holds, its inode's among them.
    pub fn marked(&mut self, by: By, view: &View, job: JobId) -> u32
        requires spare { 1 ≤ self.old.spare }
        requires later { IsLater view.now self.old }
        ensures count { result ≡ length (places_of (all_groups (layout_of self.old))) }
        ensures noted { self.new ≡ with_note self.old (noted by view.now (FileEvent.Marked job result) []) }
        ensures file { IsFile S.place_of S.content S.len_of self.new }
    {
        let count = self.units();
        self.note(by, view, FileEvent::Marked { job, count });
        count
    }

    /// How many units the file holds.
    fn units(&self) -> u32
        ensures { result ≡ length (places_of (all_groups (layout_of self.now))) }
    {
        self.head.units
    }

    /// Whether the file is there.
    pub(crate) fn is_present(&self) -> bool
        ensures value { result ≡ (layout_of self.now).present }
        ensures file { IsFile S.place_of S.content S.len_of self.now }
    {
        self.inode.is_some()
    }

    /// Notes an event that moves no unit.
    pub(crate) fn note(&mut self, by: By, view: &View, event: FileEvent)
        requires spare { 1 ≤ self.old.spare }
        requires later { IsLater view.now self.old }
        requires quiet { is_quiet event ≡ true }
        requires legal { IsEvent (now_of self.old view.now) (log_of self.old) (layout_of self.old) [] event }
        requires shown { AllTell S.content → ShowsBytes (log_of self.old) event }
        ensures noted { self.new ≡ with_note self.old (noted by view.now event []) }
        ensures file { IsFile S.place_of S.content S.len_of self.new }
    {
        self.head.hear(&event);
        let payload = self.log.no_bytes();
        self.log
            .push(self.turns, self.seat, by, view, event, payload);
    }
}
