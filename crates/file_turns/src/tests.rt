//! The room of a path, and a barred drive.

ghost use Rattle.std.specs.Prelude.{◌≤◌};

use crate::{reserve_for_path, usable_drives};
use board::Grow;
use domains::{DriveId, DriveSet, Level, Shape};
use file_core::{FileParts, FileState};
use flex_io::SurePiece;
use held_slots::spend_all;
use std::alloc::Global;
use std::test::Fail;

/// A file on two drives, whose log has at most this many entries.
fn new_file(alloc: Global, room: u32) -> FileState<SurePiece>
    requires { room ≤ 4194304 }
{
    FileState::new(alloc, 0, Shape::new(2, 1, 4, 8), Level::two_copies(), room)
}

/// Drops the slots of a file.
fn end(file: FileState<SurePiece>) {
    let FileParts {
        log: _,
        groups,
        inode,
    } = file.close();
    let mut groups = groups.into_vec();
    while let Some(group) = groups.pop() {
        let _count = spend_all(group.into_slots());
    }
    groups.destroy_empty();
    if let Some(inode) = inode {
        let _count = spend_all(inode.into_slots());
    }
}

#[test]
fn a_path_needs_room_for_four_entries(rt: HostRuntime) -> Result<(), Fail> {
    let mut small = new_file(rt.alloc(), 3);
    let mut large = new_file(rt.alloc(), 4);
    let made = (reserve_for_path(&mut small), reserve_for_path(&mut large));
    end(small);
    end(large);
    assert_eq!(rt; made, (Err(Grow::LogFull), Ok(())));
    Ok(())
}

#[test]
fn a_barred_drive_is_not_usable(rt: HostRuntime) -> Result<(), Fail> {
    let up = DriveSet::all(Shape::new(32, 6, 1, 8));
    let mut barred = DriveSet::new();
    barred.add(DriveId::new(32, 6));
    let usable = usable_drives(&up, &barred);
    let first = usable.has(DriveId::new(1, 1));
    let last = usable.has(DriveId::new(32, 6));
    assert_eq!(rt; (first, last), (true, false));
    Ok(())
}
