//! The turn that deletes a file, and its end.

ghost use Rattle.std.specs.Prelude.{◌≡◌, ◌≤◌, ◌↔◌, [], None, Some, true, map, IfOk, IsOk, OnOk, OnErr};
ghost use Rattle.file_core.specs.Notes.{noted};
ghost use Rattle.file_core.specs.FileView.{IsFile, IsLater, layout_of, with_note};

use crate::notes::Absent;
use crate::state::FileState;
use board::View;
use domains::By;
use file_history::{FileEvent, FileLog};
use flex_io::Slot;
use lists::List;
use std::mem;
use striped_groups::Stripe;

/// What a deleted file gives back: the groups in map order, and the inode, each with its slots by position.
pub struct DeletedSlots<S> {
    pub groups: List<Stripe<S>>,
    pub inode: Stripe<S>,
}

/// What is left of a file at its end: its log, the groups in map order, and the inode if it is there.
pub struct FileParts<S> {
    pub log: FileLog,
    pub groups: List<Stripe<S>>,
    pub inode: Option<Stripe<S>>,
}

impl<S: Slot + Send + Drop> FileState<S> {
    /// Deletes the file, and hands its slots back. It needs room for one entry (`FileState::reserve`), and allocates nothing.
    pub fn delete(&mut self, by: By, view: &View) -> Result<DeletedSlots<S>, Absent>
        requires spare { 1 ≤ self.old.spare }
        requires later { IsLater view.now self.old }
        ensures slots { IfOk result (λ back. (back.groups ≡ self.old.groups) × (Some back.inode ≡ self.old.inode)) }
        ensures noted { OnOk result (self.new ≡ record (with_note self.old (noted by view.now FileEvent.Deleted [])) { groups = []; inode = None }) }
        ensures kept { OnErr result (self.new ≡ self.old) }
        ensures accepts { IsOk result ↔ ((layout_of self.old).present ≡ true) }
        ensures file { IsFile S.place_of S.content S.len_of self.new }
    {
        let Some(inode) = self.inode.take() else {
            return Err(Absent);
        };
        self.head.delete(self.level);
        let none = Vec::new(*self.groups.allocator());
        let groups = mem::replace(&mut self.groups, none);
        self.left
            .take_away(&groups, &inode, self.log.len() as u32 + 1);
        let payload = self.log.no_bytes();
        self.log.push(self.turns, self.seat, by, view, FileEvent::Deleted, payload);
        Ok(DeletedSlots {
            groups: List::from_vec(groups),
            inode,
        })
    }

    /// The log, and the slots that the file holds.
    pub fn close(self) -> FileParts<S>
        ensures log { result.log ≡ map (λ n. n.entry.told.entry) self.notes }
        ensures groups { result.groups ≡ self.groups }
        ensures inode { result.inode ≡ self.inode }
        ensures file { IsFile S.place_of S.content S.len_of self }
    {
        let FileState {
            file: _,
            shape: _,
            level: _,
            room: _,
            turns: _,
            seat: _,
            log,
            head: _,
            left: _,
            groups,
            inode,
        } = self;
        FileParts {
            log: log.into_log(),
            groups: List::from_vec(groups),
            inode,
        }
    }
}
