//! The notes of a file as they are kept: entries, stamps beside them, and each view once.

ghost use Rattle.std.specs.Prelude.{◌≡◌, ◌<◌, ◌≤◌, ◌-◌, ◌^◌, [], length, map, max, OnOk, OnErr, vec_len, vec_capacity};
ghost use Rattle.file_core.specs.NoteLog.{pushed, IsKept};
ghost use Rattle.file_core.specs.Notes.{last_epoch_of, kept_view, noted};

use board::View;
use domains::By;
use file_history::{EpochView, FileEntry, FileEvent, FileLog};
use lists::List;
use std::alloc::{AllocError, Global};
use std::marker::Model;

/// When an entry was made, by which seat, the index of its view, and the bytes that it writes.
#[derive(Drop)]
pub(crate) struct EntryStamp {
    pub(crate) turn: u64,
    pub(crate) seat: u8,
    pub(crate) view: u32,
    pub(crate) payload: List<u8>,
}

/// Notes. A view that several notes in a row have is kept once. Contracts see a `NoteList`.
#[derive(Drop)]
pub(crate) struct NoteLog {
    entries: Vec<FileEntry>,
    stamps: Vec<EntryStamp>,
    views: Vec<EpochView>,
    spare: u32,
    latest: u32,
}

impl Model for NoteLog {
    ghost use Rattle.std.specs.Prelude.{◌≡◌, ◌≤◌, ◌+◌, vec_len, vec_capacity};
    ghost use Rattle.file_core.specs.Notes.{last_epoch_of};
    ghost use Rattle.file_core.specs.NoteLog.{KeepsNotes, NoteList, stamped};

    ghost Value = { NoteList };

    ghost view = { λ l. record { notes = stamped l.stamps.items l.entries.items l.views.items; spare = l.spare } };

    ghost invariant = { λ l. KeepsNotes l.entries.items l.stamps.items l.views.items
        × (vec_len l.entries + l.spare ≤ vec_capacity l.entries)
        × (vec_len l.stamps + l.spare ≤ vec_capacity l.stamps)
        × (vec_len l.views + l.spare ≤ vec_capacity l.views)
        × (l.latest ≡ last_epoch_of (stamped l.stamps.items l.entries.items l.views.items)) };
}

impl NoteLog {
    /// No notes. It allocates nothing.
    pub(crate) fn new(alloc: Global) -> NoteLog
        ensures { result ≡ record { notes = []; spare = 0 } }
    {
        NoteLog {
            entries: Vec::new(alloc),
            stamps: Vec::new(alloc),
            views: Vec::new(alloc),
            spare: 0,
            latest: 0,
        }
    }

    /// How many notes there are.
    pub(crate) fn len(&self) -> usize
        ensures { result ≡ length self.now.notes }
    {
        self.entries.len()
    }

    /// The epoch of the last note, 0 if there is none.
    pub(crate) fn last_epoch(&self) -> u32
        ensures { result ≡ last_epoch_of self.now.notes }
    {
        self.latest
    }

    /// Makes room for `more` more notes.
    pub(crate) fn reserve(&mut self, more: u32) -> Result<(), AllocError>
        ensures ok { OnOk result (self.new ≡ record { notes = self.old.notes; spare = max self.old.spare more }) }
        ensures kept { OnErr result (self.new ≡ self.old) }
    {
        if more <= self.spare {
            return Ok(());
        }
        let count = more as usize;
        self.entries.reserve(count)?;
        self.stamps.reserve(count)?;
        self.views.reserve(count)?;
        self.spare = more;
        Ok(())
    }

    /// Appends a note of this turn and seat.
    pub(crate) fn push(
        &mut self,
        turn: u64,
        seat: u8,
        by: By,
        view: &View,
        event: FileEvent,
        payload: List<u8>,
    )
        requires spare { 1 ≤ self.old.spare }
        requires few { length self.old.notes < 2 ^ 32 - 1 }
        ensures { self.new ≡ pushed self.old (record { turn = turn; seat = seat; entry = noted by view.now event payload }) }
    {
        let index = keep_view(
            &mut self.views,
            EpochView {
                epoch: view.epoch,
                up: view.up,
                gone: view.gone,
            },
        );
        self.latest = view.epoch;
        self.spare -= 1;
        self.stamps.push_reserved(EntryStamp {
            turn,
            seat,
            view: index,
            payload,
        });
        self.entries.push_reserved(FileEntry {
            by,
            epoch: view.epoch,
            event,
        });
    }

    /// No bytes, as the payload of an entry that writes none. It allocates nothing.
    pub(crate) fn no_bytes(&self) -> List<u8>
        ensures { result ≡ [] }
    {
        List::new(*self.entries.allocator())
    }

    /// The entries so far.
    pub(crate) fn entries(&self) -> &[FileEntry]
        ensures { result.now ≡ map (λ n. n.entry.told.entry) self.now.notes }
    {
        &self.entries
    }

    /// The entries.
    pub(crate) fn into_log(self) -> FileLog
        ensures { result ≡ map (λ n. n.entry.told.entry) self.notes }
    {
        let NoteLog { entries, .. } = self;
        List::from_vec(entries)
    }
}

/// Keeps a view, unless the last one that is kept is the same, and answers its index.
fn keep_view(views: &mut Vec<EpochView>, view: EpochView) -> u32
    requires room { vec_len views.old < vec_capacity views.old }
    requires few { vec_len views.old < 2 ^ 32 - 1 }
    ensures kept { IsKept view views.old.items views.new.items result }
    ensures capacity { vec_capacity views.new ≡ vec_capacity views.old }
{
    if let Some(last) = views.last() {
        if *last == view {
            return (views.len() - 1) as u32;
        }
    }
    let index = views.len() as u32;
    views.push_reserved(view);
    index
}
