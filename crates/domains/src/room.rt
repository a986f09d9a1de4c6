//! How wide a group can be on the drives that are usable.

ghost use Rattle.std.specs.Prelude.{◌≡◌, ℕ, ◌+◌, ◌*◌, ◌≤◌, ◌<◌, ◌↔◌, Some, IsOk, IfOk, IfErr, min};
ghost use Rattle.domains.specs.Shape.{Shape};
ghost use Rattle.domains.specs.DriveSet.{has};
ghost use Rattle.domains.specs.Room.{drives_on, room_up_to, room_of, width_of};

use crate::drive::DriveId;
use crate::drive_set::DriveSet;
use crate::level::Level;
use crate::shape::Shape;
use std::fmt;
use thiserror::Error;

/// Too few usable drives for a level: there is room for `have` units of a group, and `need` are the least.
#[derive(Clone, Copy, Debug, PartialEq, Eq, Error)]
#[error("room for {have} units of a group, and {need} are needed")]
pub struct TooFew {
    pub have: u16,
    pub need: u8,
}

/// How many data units a new group has on the usable drives of the cluster.
pub fn width(level: &Level, shape: &Shape, usable: &DriveSet) -> Result<u8, TooFew>
    ensures ok { IfOk result (λ q. width_of level.now shape.now (has usable.now) ≡ Some q) }
    ensures too_few { IfErr result (λ e. (e.have ≡ room_of level.now shape.now (has usable.now)) × (e.need ≡ level.now.m + 1)) }
    ensures accepts { IsOk result ↔ (level.now.m + 1 ≤ room_of level.now shape.now (has usable.now)) }
{
    let room = room_of(*level, *shape, usable);
    let need = level.m() + 1;
    if room < u16::from(need) {
        return Err(TooFew { have: room, need });
    }
    Ok((room - u16::from(level.m())).min(u16::from(level.w())) as u8)
}

/// How many units of one group find a place, at most `k` on a node.
fn room_of(level: Level, shape: Shape, usable: &DriveSet) -> u16
    ensures value { result ≡ room_of level shape (has usable.now) }
    ensures within { result ≤ 512 }
{
    let mut room: u16 = 0;
    for node in 0..shape.nodes() {
        room += drives_on(shape, node + 1, usable).min(u16::from(level.k()));
    }
    room
}

/// How many usable drives the node has.
fn drives_on(shape: Shape, node: u8, usable: &DriveSet) -> u16
    requires some { 1 ≤ node }
    requires within { node ≤ shape.nodes }
    ensures value { result ≡ drives_on shape.drives node (has usable.now) }
    ensures within { result ≤ 16 }
{
    let mut count: u16 = 0;
    for drive in 0..shape.drives() {
        if usable.has(DriveId::new(node, drive + 1)) {
            count += 1;
        }
    }
    count
}
