//! A file at its cell, with the one seat there.

ghost use Rattle.std.specs.Prelude.{◌≡◌, ◌≤◌, [], None, map, IfOk};
ghost use Rattle.file_core.specs.FileView.{IsFile};
ghost use Rattle.file_cells.specs.OpenFiles.{IsOpen, entries_of, new_file, state_of};

use domains::{Level, Shape};
use file_core::{FileParts, FileState};
use flex_io::Slot;
use std::alloc::{AllocError, Global};
use turn_cell::{Seat, TurnCell};

/// A file's cell, and the one seat there.
pub struct OpenFile<S: Slot + Send + Drop> {
    pub cell: TurnCell<FileState<S>>,
    pub seat: Seat<FileState<S>>,
    /// Where the seat goes when the cell is closed.
    pub(crate) seats: Vec<Seat<FileState<S>>>,
}

impl<S: Slot + Send + Drop> OpenFile<S> {
    /// An absent file of this number, declared at this level, whose log has at most `room` entries.
    pub fn new(
        alloc: Global,
        file: u16,
        shape: Shape,
        level: Level,
        room: u32,
    ) -> Result<OpenFile<S>, AllocError>
        requires { room ≤ 4194304 }
        ensures open { IfOk result IsOpen }
        ensures new { IfOk result (λ made. state_of made ≡ new_file file shape level room) }
        ensures file { IfOk result (λ made. IsFile S.place_of S.content S.len_of (state_of made)) }
    {
        let state = FileState::new(alloc, file, shape, level, room);
        match TurnCell::new(alloc, state, 1) {
            Ok((cell, mut seats)) => {
                let Some(seat) = seats.pop() else {
                    unreachable!()
                };
                Ok(OpenFile { cell, seat, seats })
            }
            Err((error, state)) => {
                end_empty(state.close());
                Err(error)
            }
        }
    }

    /// What is left of the file. It waits for nobody, and takes no memory.
    pub fn close(self) -> FileParts<S>
        requires open { IsOpen self }
        ensures log { result.log ≡ entries_of (state_of self) }
        ensures groups { result.groups ≡ (state_of self).groups }
        ensures inode { result.inode ≡ (state_of self).inode }
    {
        let OpenFile {
            cell,
            seat,
            mut seats,
        } = self;
        seats.push_reserved(seat);
        cell.close(seats).close()
    }

    /// Ends a file that holds no slot.
    pub(crate) fn end_absent(self)
        requires open { IsOpen self }
        requires groups { (state_of self).groups ≡ [] }
        requires inode { (state_of self).inode ≡ None }
    {
        end_empty(self.close());
    }
}

/// Ends what is left of a file that holds no slot.
fn end_empty<S: Slot + Send + Drop>(parts: FileParts<S>)
    requires groups { parts.groups ≡ [] }
    requires inode { parts.inode ≡ None }
{
    let FileParts {
        log: _,
        groups,
        inode,
    } = parts;
    groups.into_vec().destroy_empty();
    let None = inode else { unreachable!() };
}
