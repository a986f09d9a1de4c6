//! The files of a scenario, in its order.

ghost use Rattle.std.specs.Prelude.{◌≡◌, ◌≤◌, [], length, reverse, vec_capacity, IfOk};
ghost use Rattle.std.specs.List.{AllByRecursion};
ghost use Rattle.file_cells.specs.FileEnds.{EndsFiles};
ghost use Rattle.file_cells.specs.OpenFiles.{AreNew, HoldsNone, IsOpen};
ghost use Rattle.returned_slots.specs.RackStates.{rack_state};

use crate::file_end::put_file;
use crate::open_file::OpenFile;
use domains::Shape;
use file_core::FileParts;
use file_history::FileLog;
use flex_io::{Fault, Rack, Slot};
use lists::List;
use scenario::FileDecl;
use std::alloc::{AllocError, Global};

/// The files, absent, numbered from 0 in their order, each with a log of at most `room` entries.
pub fn open_files<S: Slot + Send + Drop>(
    alloc: Global,
    shape: Shape,
    files: &[FileDecl],
    room: u32,
) -> Result<List<OpenFile<S>>, AllocError>
    requires few { length files.now ≤ 65535 }
    requires room { room ≤ 4194304 }
    ensures { IfOk result (AreNew S.place_of S.content S.len_of shape room files.now 0) }
{
    let mut opened = Vec::with_capacity(alloc, files.len())?;
    let mut number = 0;
    for file in files {
        match OpenFile::new(alloc, number, shape, file.level, room) {
            Ok(file) => opened.push_reserved(file),
            Err(error) => {
                end_new(opened);
                return Err(error);
            }
        }
        number += 1;
    }
    Ok(List::from_vec(opened))
}

/// Ends files that were never created.
fn end_new<S: Slot + Send + Drop>(mut files: Vec<OpenFile<S>>)
    requires { AllByRecursion HoldsNone files.items }
{
    while let Some(file) = files.pop() {
        file.end_absent();
    }
    files.destroy_empty();
}

/// Ends the files, and puts their slots back: file by file those of its groups in map order, by position, and then the inode's.
/// `logs` has room for a log of each. It waits for nobody, and takes no memory.
pub fn close_files<S: Slot + Send + Drop, R: Rack<Piece = S>>(
    files: List<OpenFile<S>>,
    logs: Vec<FileLog>,
    rack: &mut R,
) -> (List<FileLog>, Result<(), Fault>)
    requires open { AllByRecursion IsOpen files }
    requires none { logs.items ≡ [] }
    requires space { length files ≤ vec_capacity logs }
    ensures { EndsFiles S.place_of S.content files result.0 result.1
        (rack_state R.back R.takes R.puts R.faults rack.old) (rack_state R.back R.takes R.puts R.faults rack.new) }
{
    let mut files = files.into_vec();
    files.reverse();
    let (logs, put) = close_from_the_end(files, logs, rack);
    (List::from_vec(logs), put)
}

/// Ends the files, the last one first.
fn close_from_the_end<S: Slot + Send + Drop, R: Rack<Piece = S>>(
    mut files: Vec<OpenFile<S>>,
    mut logs: Vec<FileLog>,
    rack: &mut R,
) -> (Vec<FileLog>, Result<(), Fault>)
    requires open { AllByRecursion IsOpen (reverse files.items) }
    requires none { logs.items ≡ [] }
    requires space { length files.items ≤ vec_capacity logs }
    ensures { EndsFiles S.place_of S.content (reverse files.items) result.0.items result.1
        (rack_state R.back R.takes R.puts R.faults rack.old) (rack_state R.back R.takes R.puts R.faults rack.new) }
{
    let mut outcome = Ok(());
    while let Some(file) = files.pop() {
        let FileParts { log, groups, inode } = file.close();
        logs.push_reserved(log);
        let put = put_file(rack, groups, inode);
        outcome = outcome.and(put);
    }
    files.destroy_empty();
    (logs, outcome)
}
