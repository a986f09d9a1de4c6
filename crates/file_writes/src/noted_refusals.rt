//! Refusals of a write, which are noted in the file's log.

ghost use Rattle.std.specs.Prelude.{◌≡◌, ◌≤◌, ◌++◌, Err, OnOk};
ghost use Rattle.file_core.specs.FileView.{IsFile, IsLater, layout_of, now_of};
ghost use Rattle.file_history.specs.Refusals.{IsLegalRefusal};
ghost use Rattle.file_writes.specs.WriteRefusals.{NotesNoPlan, NotesNoRoom, NotesWhy, no_plan};
ghost use Rattle.slot_search.specs.HandSeats.{drives_at};
ghost use Rattle.write_plans.specs.Plans.{PlanTells};

use crate::refusal::WriteRefusal;
use board::View;
use domains::{By, DriveId, Lost};
use file_core::FileState;
use file_history::Refused;
use flex_io::Slot;
use lists::List;
use placement::{EmptyAt, NoRoom};
use std::alloc::{AllocError, Global};
use write_plans::PlanRefusal;

/// Notes why a write of `len` bytes at `offset` has no plan, unless memory ran out.
pub fn note_no_plan<S: Slot + Send + Drop>(
    file: &mut FileState<S>,
    by: By,
    view: &View,
    offset: u64,
    len: u32,
    refusal: PlanRefusal,
) -> WriteRefusal
    requires spare { 1 ≤ file.old.spare }
    requires later { IsLater view.now file.old }
    requires file { IsFile S.place_of S.content S.len_of file.old }
    requires cause { PlanTells (no_plan refusal) (now_of file.old view.now) (layout_of file.old) offset len }
    ensures file { IsFile S.place_of S.content S.len_of file.new }
    ensures notes { NotesNoPlan refusal result by view.now offset len file.old file.new }
{
    match refusal {
        PlanRefusal::Absent => {
            file.note_refused(by, view, Refused::WriteAbsent { offset, len });
            WriteRefusal::Absent
        }
        PlanRefusal::TooFew(fault) => {
            file.note_refused(by, view, Refused::WriteTooFew { offset, len, fault });
            WriteRefusal::TooFew(fault)
        }
        PlanRefusal::TooLong { count } => {
            file.note_refused(by, view, Refused::WriteTooLong { offset, len, count });
            WriteRefusal::TooLong { count }
        }
        PlanRefusal::NoMemory => WriteRefusal::NoMemory,
    }
}

/// Notes that a group which the write needs has too few live units.
pub fn note_lost<S: Slot + Send + Drop>(
    file: &mut FileState<S>,
    by: By,
    view: &View,
    offset: u64,
    len: u32,
    lost: Lost,
) -> WriteRefusal
    requires spare { 1 ≤ file.old.spare }
    requires later { IsLater view.now file.old }
    requires file { IsFile S.place_of S.content S.len_of file.old }
    requires cause { IsLegalRefusal (now_of file.old view.now) (layout_of file.old) (Refused.WriteLost offset len lost) }
    ensures file { IsFile S.place_of S.content S.len_of file.new }
    ensures answer { result ≡ WriteRefusal.Lost lost }
    ensures notes { NotesWhy by view.now (Refused.WriteLost offset len lost) file.old file.new }
{
    file.note_refused(by, view, Refused::WriteLost { offset, len, lost });
    WriteRefusal::Lost(lost)
}

/// Notes that a group of the write, or its inode, found no room, unless memory runs out.
pub fn note_no_room<S: Slot + Send + Drop>(
    alloc: Global,
    file: &mut FileState<S>,
    by: By,
    view: &View,
    offset: u64,
    len: u32,
    told: NoRoom,
) -> WriteRefusal
    requires spare { 1 ≤ file.old.spare }
    requires later { IsLater view.now file.old }
    requires file { IsFile S.place_of S.content S.len_of file.old }
    requires cause { IsLegalRefusal (now_of file.old view.now) (layout_of file.old)
        (Refused.WriteNoRoom offset len told.need told.got (drives_at told.empty)) }
    ensures file { IsFile S.place_of S.content S.len_of file.new }
    ensures notes { NotesNoRoom result by view.now offset len told file.old file.new }
{
    let mut drives = Vec::new(alloc);
    if push_drives(told.empty.as_slice(), &mut drives).is_err() {
        return WriteRefusal::NoMemory;
    }
    let what = Refused::WriteNoRoom {
        offset,
        len,
        need: told.need,
        got: told.got,
        drives: List::from_vec(drives),
    };
    file.note_refused(by, view, what);
    WriteRefusal::NoRoom(told)
}

/// Puts the drives that were found empty behind others.
fn push_drives(found: &[EmptyAt], drives: &mut Vec<DriveId>) -> Result<(), AllocError>
    ensures { OnOk result (drives.new.items ≡ drives.old.items ++ drives_at found.now) }
{
    let [first, rest @ ..] = found else {
        return Ok(());
    };
    drives.push(first.drive)?;
    push_drives(rest, drives)
}
