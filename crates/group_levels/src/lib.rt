//! Whether a protection group is at a level.
#![tactic(auto)]

ghost use Rattle.std.specs.Prelude.{◌≡◌, ◌↔◌, IsTrue};
ghost use Rattle.domains.specs.Drive.{AreApart, is_in, same_drive};
ghost use Rattle.domains.specs.AtLevel.{AtLevel, InodeAt, drives_of};
ghost use Rattle.group_levels.specs.Units.{HasUnitsOf, are_spread, is_spread};

use domains::{DriveId, Group, Level, Place};

/// Whether the group is at the level: it has 1 to w data units and the level's correction units, on different drives, at most k
/// on a node.
#[tactic(auto, using(crate::proofs::SpreadUnits::at_level_if))]
pub fn is_at_level(group: &Group, level: Level) -> bool
    ensures { IsTrue result ↔ AtLevel group.now level }
{
    if !has_units_of(group, level) {
        return false;
    }
    let places = group.places.as_slice();
    if !are_apart(places) {
        return false;
    }
    are_spread(places, level.k())
}

/// Whether the group is at the level as an inode's is: with one data unit.
pub fn is_inode_at(group: &Group, level: Level) -> bool
    ensures { IsTrue result ↔ InodeAt group.now level }
{
    group.n == 1 && is_at_level(group, level)
}

/// Whether the group has as many units as the level lets it, and a place for each.
fn has_units_of(group: &Group, level: Level) -> bool
    ensures { IsTrue result ↔ HasUnitsOf group.now level }
{
    let units = usize::from(group.n) + usize::from(group.m);
    group.n >= 1 && group.n <= level.w() && group.m == level.m() && group.places.len() == units
}

/// Whether no drive comes twice.
fn are_apart(places: &[Place]) -> bool
    ensures { IsTrue result ↔ AreApart (drives_of places.now) }
{
    let [first, rest @ ..] = places else {
        return true;
    };
    !is_among(rest, first.drive()) && are_apart(rest)
}

/// Whether one of the places is on the drive.
fn is_among(places: &[Place], drive: DriveId) -> bool
    ensures { result ≡ is_in (drives_of places.now) drive }
{
    let [first, rest @ ..] = places else {
        return false;
    };
    is_same(first.drive(), drive) || is_among(rest, drive)
}

/// Whether the two are one drive.
fn is_same(one: DriveId, other: DriveId) -> bool
    ensures { result ≡ same_drive one other }
{
    one.node() == other.node() && one.drive() == other.drive()
}

/// Whether on the node of each of the places at most k of them are.
fn are_spread(places: &[Place], k: u8) -> bool
    ensures { result ≡ are_spread places.now k }
{
    places.iter().all(|place| is_spread(*place, places, k))
}

/// Whether at most k of the places are on the node of this one.
#[tactic(auto, unfolding(crate::specs::Units::is_spread))]
fn is_spread(place: Place, places: &[Place], k: u8) -> bool
    ensures { result ≡ is_spread places.now k place }
{
    let node = place.drive().node();
    let on_node = places
        .iter()
        .filter(|other| other.drive().node() == node)
        .count();
    on_node <= usize::from(k)
}
