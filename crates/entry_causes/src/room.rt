//! Whether a file's drives have too little room.

ghost use Rattle.std.specs.Prelude.{◌≡◌, ◌↔◌, ◌≤◌, ◌<◌, ◌+◌, ◌&&◌, not, true, IsTrue};
ghost use Rattle.domains.specs.Drive.{Drive, IsDrive, is_in};
ghost use Rattle.domains.specs.DriveSet.{has};
ghost use Rattle.domains.specs.Room.{drives_on, room_of};
ghost use Rattle.domains.specs.Shape.{IsShape};
ghost use Rattle.file_history.specs.Layout.{Layout};
ghost use Rattle.file_history.specs.Refusals.{HasNoRoom, HasTooFew, room_at};
ghost use Rattle.file_history.specs.World.{Moment};
ghost use Rattle.placed_groups.specs.NewPlaces.{IsUsableSet};
ghost use Rattle.entry_causes.specs.Room.{AreTakenOut, TellsRoom};

use domains::{DriveId, DriveSet, Level, Shape, TooFew};

/// Whether the usable drives have room for so few units, and the level wants so many.
pub fn has_too_few(level: Level, shape: Shape, usable: &DriveSet, fault: TooFew) -> bool
    ensures { (now : Moment) (l : Layout) → IsUsableSet shape usable.now now l → l.requested ≡ level → IsTrue result ↔ HasTooFew now l fault }
{
    let room = room_of(level, shape, usable);
    is_told(level, room, fault)
}

/// Whether the usable drives have room for the fewest units that the level wants.
pub fn has_room(level: Level, shape: Shape, usable: &DriveSet) -> bool
    ensures { (now : Moment) (l : Layout) → IsUsableSet shape usable.now now l → l.requested ≡ level
        → IsTrue result ↔ (l.requested.m + 1 ≤ room_at now l) }
{
    let room = room_of(level, shape, usable);
    let need = u16::from(level.m()) + 1;
    need <= room
}

/// Whether the fault tells this room, and that the level wants more.
fn is_told(level: Level, room: u16, fault: TooFew) -> bool
    ensures { IsTrue result ↔ TellsRoom level room fault }
{
    fault.have == room && fault.need == level.m() + 1 && fault.have < u16::from(fault.need)
}

/// Whether `got` of `need` units can have found a place, where these usable drives had no slot left.
pub fn has_no_room(
    level: Level,
    shape: Shape,
    usable: &DriveSet,
    need: u8,
    got: u8,
    drives: &[DriveId],
) -> bool
    ensures { (now : Moment) (l : Layout) → IsUsableSet shape usable.now now l → l.requested ≡ level → IsTrue result ↔ HasNoRoom now l need got drives.now }
{
    if got >= need {
        return false;
    }
    let mut left = *usable;
    let all = take_out(&mut left, drives);
    let room = room_of(level, shape, &left);
    if !all {
        return false;
    }
    u16::from(got) <= room
}

/// Takes the drives out of the set, and answers whether each was there. It stops at the first that is not.
fn take_out(set: &mut DriveSet, drives: &[DriveId]) -> bool
    ensures { AreTakenOut result drives.now set.old set.new }
{
    let [drive, rest @ ..] = drives else {
        return true;
    };
    if !set.has(*drive) {
        return false;
    }
    set.remove(*drive);
    take_out(set, rest)
}

/// How many units of one group find a place, at most `k` on a node.
fn room_of(level: Level, shape: Shape, usable: &DriveSet) -> u16
    ensures value { result ≡ room_of level shape (has usable.now) }
    ensures cluster { IsShape shape }
    ensures within { result ≤ 512 }
{
    let mut room: u16 = 0;
    for node in 0..shape.nodes() {
        room += drives_on(shape, node + 1, usable).min(u16::from(level.k()));
    }
    room
}

/// How many usable drives the node has.
fn drives_on(shape: Shape, node: u8, usable: &DriveSet) -> u16
    requires some { 1 ≤ node }
    requires within { node ≤ shape.nodes }
    ensures value { result ≡ drives_on shape.drives node (has usable.now) }
    ensures within { result ≤ 16 }
{
    let mut count: u16 = 0;
    for drive in 0..shape.drives() {
        if usable.has(DriveId::new(node, drive + 1)) {
            count += 1;
        }
    }
    count
}
