//! A file with its notes and the slots that it holds.

ghost use Rattle.std.specs.Prelude.{◌≡◌, ◌+◌, ◌<◌, ◌≤◌, ◌↔◌, [], None, length, OnOk};
ghost use Rattle.std.specs.Result.{IsErrOf};
ghost use Rattle.file_core.specs.FileView.{IsFile};

use crate::note_log::NoteLog;
use board::Grow;
use domains::{Level, Shape};
use file_heads::{Head, LeftGenerations};
use flex_io::Slot;
use std::alloc::Global;
use std::marker::Model;
use striped_groups::Stripe;

/// A file. Contracts see a `FileView`.
pub struct FileState<S: Slot + Send + Drop> {
    pub(crate) file: u16,
    pub(crate) shape: Shape,
    pub(crate) level: Level,
    pub(crate) room: u32,
    pub(crate) turns: u64,
    pub(crate) seat: u8,
    pub(crate) log: NoteLog,
    pub(crate) head: Head,
    pub(crate) left: LeftGenerations,
    pub(crate) groups: Vec<Stripe<S>>,
    pub(crate) inode: Option<Stripe<S>>,
}

impl<S: Slot + Send + Drop> Model for FileState<S> {
    ghost use Rattle.std.specs.Prelude.{◌≡◌, ◌≤◌, ◌+◌, length, map};
    ghost use Rattle.file_history.specs.Layout.{layout_after};
    ghost use Rattle.file_core.specs.Notes.{told_of};
    ghost use Rattle.striped_groups.specs.StoredGroups.{AllTell, list_of, stored_group};
    ghost use Rattle.file_heads.specs.Heads.{IsHead};
    ghost use Rattle.file_core.specs.FileInvariant.{KeepsFile, KeepsLeft};
    ghost use Rattle.file_core.specs.FileView.{FileView};

    ghost Value = { FileView S };

    ghost view = { λ f. record {
      file = f.file;
      shape = f.shape;
      level = f.level;
      room = f.room;
      turns = f.turns;
      seat = f.seat;
      notes = f.log.notes;
      groups = f.groups.items;
      inode = f.inode;
      spare = f.log.spare;
    } };

    ghost invariant = { λ f. KeepsFile (AllTell S.content) f.shape f.level f.room f.log.notes
        (map (stored_group S.place_of S.content S.len_of) f.groups.items) (map (stored_group S.place_of S.content S.len_of) (list_of f.inode))
        × IsHead f.head (layout_after f.level (told_of f.log.notes))
        × (length f.log.notes + f.log.spare ≤ f.room)
        × KeepsLeft f.left.items f.level (told_of f.log.notes) };
}

impl<S: Slot + Send + Drop> FileState<S> {
    /// A file that is absent, declared at this level, whose log has at most `room` entries. It allocates nothing.
    pub fn new(alloc: Global, file: u16, shape: Shape, level: Level, room: u32) -> FileState<S>
        requires { room ≤ 4194304 }
        ensures value { result ≡ record { file = file; shape = shape; level = level; room = room; turns = 0; seat = 0; notes = []; groups = []; inode = None; spare = 0 } }
        ensures file { IsFile S.place_of S.content S.len_of result }
    {
        let _unit = shape.unit();
        let _width = level.w();
        FileState {
            file,
            shape,
            level,
            room,
            turns: 0,
            seat: 0,
            log: NoteLog::new(alloc),
            head: Head::new(alloc, level),
            left: LeftGenerations::new(alloc),
            groups: Vec::new(alloc),
            inode: None,
        }
    }

    /// Makes room for `entries` more entries.
    pub fn reserve(&mut self, entries: u32) -> Result<(), Grow>
        ensures ok { OnOk result (entries ≤ self.new.spare) }
        ensures log_full { IsErrOf result Grow.LogFull ↔ (self.old.room < length self.old.notes + entries) }
        ensures same { self.new ≡ record self.old { spare = self.new.spare } }
        ensures more { self.old.spare ≤ self.new.spare }
        ensures file { IsFile S.place_of S.content S.len_of self.new }
    {
        if self.room as usize - self.log.len() < entries as usize {
            return Err(Grow::LogFull);
        }
        if self.log.reserve(entries).is_err() {
            return Err(Grow::NoMemory);
        }
        Ok(())
    }
}
