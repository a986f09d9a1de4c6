//! What a plain file holds.

ghost use Rattle.std.specs.Prelude.{◌≡◌, ◌+◌, ◌≤◌, true, [], vec_len, vec_capacity};
ghost use Rattle.domains.specs.Shape.{IsShape};
ghost use Rattle.domains.specs.Place.{is_place_of};
ghost use Rattle.held_slots.specs.Slots.{place_from};
ghost use Rattle.plain_file.specs.Mirrors.{IsMirror, mirror_of};

use crate::pair::Pair;
use domains::{DriveId, Group, Place, Shape};
use flex_io::Slot;
use lists::List;

/// What the file holds: nothing, an inode, or a group and an inode.
#[derive(Drop)]
pub(crate) enum FileSlots<S: Slot + Drop> {
    Absent,
    Empty {
        inode: Pair<S>,
    },
    Written {
        size: u32,
        units: Pair<S>,
        inode: Pair<S>,
    },
}

impl<S: Slot + Drop> FileSlots<S> {
    ghost use Rattle.plain_file.specs.FileParts.{is_present};

    pub(crate) fn is_present(&self) -> bool
        ensures { result ≡ is_present self.now }
    {
        match self {
            FileSlots::Absent => false,
            FileSlots::Empty { inode: _ } => true,
            FileSlots::Written {
                size: _,
                units: _,
                inode: _,
            } => true,
        }
    }
}

/// The group of this generation whose units the slots are. There is memory for the places.
pub(crate) fn mirror_group<S: Slot + Drop>(
    shape: Shape,
    generation: u32,
    places: Vec<Place>,
    pair: &Pair<S>,
) -> Group
    requires empty { places.items ≡ [] }
    requires room { vec_len places + 2 ≤ vec_capacity places }
    requires mirror { IsMirror S.place_of shape pair.now }
    ensures value { result ≡ mirror_of S.place_of generation pair.now }
    ensures within { IsShape shape }
{
    let mut places = places;
    places.push_reserved(place_in(shape, &pair.first));
    places.push_reserved(place_in(shape, &pair.second));
    Group {
        generation,
        n: 1,
        m: 1,
        places: List::from_vec(places),
    }
}

/// The place of a slot of the cluster.
fn place_in<S: Slot>(shape: Shape, slot: &S) -> Place
    requires { is_place_of shape (place_from (S.place_of slot.now)) ≡ true }
    ensures value { result ≡ place_from (S.place_of slot.now) }
    ensures within { IsShape shape }
{
    let _slots = shape.slots();
    let place = slot.place();
    Place::new(DriveId::new(place.node, place.drive), place.slot)
}
