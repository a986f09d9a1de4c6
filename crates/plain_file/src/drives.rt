//! Which drives take the two units of a mirror.

ghost use Rattle.std.specs.Prelude.{◌≡◌, ◌≢◌, ℕ, ◌<◌, ◌≤◌, false, true, IfSome, IfNone};
ghost use Rattle.domains.specs.Drive.{IsDrive};
ghost use Rattle.domains.specs.Shape.{IsShape};
ghost use Rattle.domains.specs.Level.{two_copies};
ghost use Rattle.domains.specs.DriveSet.{has};
ghost use Rattle.domains.specs.Room.{drives_on, room_of};
ghost use Rattle.plain_file.specs.Drives.{IsUpOn, IsUpElsewhere};

use domains::{DriveId, DriveSet, Shape};

#[tactic(auto, using(crate::proofs::MirrorRoom::room_of_none))]
/// The two drives, on two nodes, that take the units of a group with this spin, if two nodes have a drive that is up
/// (docs/FORMATS.md, "Order of placement").
pub(crate) fn mirror_drives(up: &DriveSet, shape: Shape, spin: u32) -> Option<(DriveId, DriveId)>
    ensures found { IfSome result (λ drives. IsUpElsewhere shape (has up.now) 0 drives.0
        × IsUpElsewhere shape (has up.now) drives.0.node drives.1) }
    ensures none { IfNone result (room_of two_copies shape (has up.now) ≤ 1) }
    ensures within { IsShape shape }
{
    let Some(one) = next_drive(up, shape, spin, 0) else {
        return None;
    };
    let Some(two) = next_drive(up, shape, spin, one.node()) else {
        return None;
    };
    Some((one, two))
}

/// The first drive that is up, in the order of this spin, on a node but this one.
fn next_drive(up: &DriveSet, shape: Shape, spin: u32, other: u8) -> Option<DriveId>
    ensures found { IfSome result (IsUpElsewhere shape (has up.now) other) }
    ensures none { IfNone result ((node : ℕ) → 1 ≤ node → node ≤ shape.nodes → node ≢ other
        → drives_on shape.drives node (has up.now) ≡ 0) }
    ensures within { IsShape shape }
{
    let nodes = u32::from(shape.nodes());
    let first_node = (spin % nodes) as u8;
    let first_drive = (spin / nodes % u32::from(shape.drives())) as u8;
    let found = drive_among(up, shape, first_node, shape.nodes(), first_drive, other);
    if found.is_some() {
        return found;
    }
    drive_among(up, shape, 0, first_node, first_drive, other)
}

/// The first drive that is up on a node behind `from`, up to `to`, but not on the other.
fn drive_among(
    up: &DriveSet,
    shape: Shape,
    from: u8,
    to: u8,
    first: u8,
    other: u8,
) -> Option<DriveId>
    requires within { to ≤ shape.nodes }
    requires first { first < shape.drives }
    ensures found { IfSome result (IsUpElsewhere shape (has up.now) other) }
    ensures none { IfNone result ((node : ℕ) → from < node → node ≤ to → node ≢ other
        → drives_on shape.drives node (has up.now) ≡ 0) }
{
    for index in from..to {
        if index + 1 == other {
            continue;
        }
        let found = drive_of_node(up, shape, index + 1, first);
        if found.is_some() {
            return found;
        }
    }
    None
}

/// The first drive of the node that is up, in cyclic order behind the first `first`.
fn drive_of_node(up: &DriveSet, shape: Shape, node: u8, first: u8) -> Option<DriveId>
    requires some { 1 ≤ node }
    requires within { node ≤ shape.nodes }
    requires first { first < shape.drives }
    ensures found { IfSome result (IsUpOn shape (has up.now) node) }
    ensures none { IfNone result (drives_on shape.drives node (has up.now) ≡ 0) }
{
    if let Some(drive) = drive_between(up, shape, node, first, shape.drives()) {
        return Some(drive);
    }
    if let Some(drive) = drive_between(up, shape, node, 0, first) {
        return Some(drive);
    }
    None
}

/// The first drive of the node that is up, behind `from`, up to `to`.
fn drive_between(up: &DriveSet, shape: Shape, node: u8, from: u8, to: u8) -> Option<DriveId>
    requires some { 1 ≤ node }
    requires within { node ≤ shape.nodes }
    requires last { to ≤ shape.drives }
    ensures found { IfSome result (IsUpOn shape (has up.now) node) }
    ensures none { IfNone result ((drive : ℕ) → from < drive → drive ≤ to → has up.now (record { node = node; drive = drive }) ≡ false) }
{
    let _shape = shape.nodes() + shape.drives();
    for index in from..to {
        let drive = DriveId::new(node, index + 1);
        if up.has(drive) {
            return Some(drive);
        }
    }
    None
}
