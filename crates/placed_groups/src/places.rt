//! The places of new units.

ghost use Rattle.std.specs.Prelude.{◌≡◌, ◌↔◌, ◌++◌, true, IsTrue, IfOk, OnOk};
ghost use Rattle.std.specs.List.{list_all};
ghost use Rattle.domains.specs.Shape.{IsShape};
ghost use Rattle.file_history.specs.Layout.{Layout, places_of};
ghost use Rattle.file_history.specs.Step.{AreNewPlaces};
ghost use Rattle.file_history.specs.World.{Moment};
ghost use Rattle.stale_changes.specs.PlaceMarks.{AreMarked};
ghost use Rattle.placed_groups.specs.NewPlaces.{AreTaken, IsUsableSet, is_open};

use domains::{DriveSet, Group, Place, Shape};
use stale_changes::PlaceMarks;
use std::alloc::{AllocError, Global};

/// The places of the groups, and then those of the inode.
pub fn all_places(alloc: Global, groups: &[Group], inode: &Group) -> Result<Vec<Place>, AllocError>
    ensures { IfOk result (λ v. v.items ≡ places_of groups.now ++ inode.now.places) }
{
    let mut places = Vec::new(alloc);
    for group in groups {
        places.extend_from_slice(group.places.as_slice())?;
    }
    places.extend_from_slice(inode.places.as_slice())?;
    Ok(places)
}

/// Whether the places are new ones: slots of usable drives of the cluster, none taken, none twice. If they are, they are taken
/// afterwards; if not, some of them may be.
pub fn add_new_places(
    shape: Shape,
    usable: &DriveSet,
    taken: &mut PlaceMarks,
    places: &[Place],
) -> Result<bool, AllocError>
    ensures new { IfOk result (λ all. (now : Moment) (l : Layout) → IsUsableSet shape usable.now now l → AreTaken taken.old.keys l
        → IsTrue all ↔ AreNewPlaces now l places.now) }
    ensures added { IfOk result (λ all. all ≡ true → AreMarked places.now taken.old.keys taken.new.keys) }
{
    if !are_open(shape, usable, places) {
        return Ok(false);
    }
    taken.add_all(places)
}

/// Whether each place is a slot of a usable drive of the cluster.
fn are_open(shape: Shape, usable: &DriveSet, places: &[Place]) -> bool
    ensures all { result ≡ list_all (is_open shape usable.now) places.now }
    ensures cluster { IsShape shape }
{
    places.iter().all(|place| is_open(shape, usable, *place))
}

/// Whether the place is a slot of a usable drive of the cluster.
#[tactic(auto, unfolding(crate::specs::NewPlaces::is_open))]
fn is_open(shape: Shape, usable: &DriveSet, place: Place) -> bool
    ensures { result ≡ is_open shape usable.now place }
{
    shape.has(place.drive()) && place.slot() < shape.slots() && usable.has(place.drive())
}
