//! The new groups in the place of the old ones.

ghost use Rattle.std.specs.Prelude.{◌≡◌, ◌≤◌, ◌<◌, ◌+◌, ◌^◌, [], length, vec_len, vec_capacity, IfOk};
ghost use Rattle.map_changes.specs.ChangedMaps.{first_of, spliced};
ghost use Rattle.striped_groups.specs.StoredGroups.{list_of};
ghost use Rattle.map_switches.specs.Switches.{AreForRun, IsBounded, IsExchanged, IsRoomFor, brought, brought_groups, event_with, group_room, groups_of, new_groups, numbered, payload_of, released, repaired_among, run_in, run_of, slot_room, stripes_from};

use crate::change::{Fresh, MapChange, Why, group_room, size_after, slot_room};
use crate::fresh_groups::{count_units, first_of, replace_groups};
use crate::prepared::Prepared;
use crate::repaired_units::exchange_units;
use domains::Group;
use file_history::{Change, FileEvent};
use held_slots::Held;
use lists::List;
use std::alloc::{AllocError, Global};
use striped_groups::Stripe;

/// What a file takes in with a change's groups: the event with the bytes that its entry carries, the new inode, the next generation,
/// the size and how many units there are. `gone` are the replaced groups in map order.
pub struct Exchanged<S> {
    pub event: FileEvent,
    pub payload: List<u8>,
    pub gone: List<Stripe<S>>,
    pub inode: Stripe<S>,
    pub next: u32,
    pub size: u64,
    pub units: u32,
}

/// Memory for what comes out of the map: groups, and slots of a group that is repaired.
pub struct Room<S> {
    gone: Vec<Stripe<S>>,
    freed: Vec<Held<S>>,
}

impl<S> Room<S> {
    /// Room for what this change replaces.
    pub fn new(alloc: Global, change: &MapChange<S>) -> Result<Room<S>, AllocError>
        ensures { IfOk result (λ room. IsRoomFor (length change.now.old) (slot_room change.now.fresh) room) }
    {
        let gone = Vec::with_capacity(alloc, change.old.len())?;
        let Ok(freed) = Vec::with_capacity(alloc, slot_room(&change.fresh)) else {
            gone.destroy_empty();
            return Err(AllocError);
        };
        Ok(Room { gone, freed })
    }
}

/// Puts the new groups of a change in the place of the old ones, in a file of this size with this next generation. It takes no
/// memory: there is room for what comes out.
pub fn put_groups<S>(
    alloc: Global,
    groups: &mut Vec<Stripe<S>>,
    next: u32,
    size: u64,
    prepared: Prepared,
    change: MapChange<S>,
    room: Room<S>,
) -> Exchanged<S>
    requires bounds { IsBounded groups.old.items next size change }
    requires numbered { prepared.inode.generation ≡ next + length (new_groups (groups_of groups.old.items) change) }
    requires repaired { list_of prepared.repaired ≡ repaired_among change.fresh (numbered (new_groups (groups_of groups.old.items) change) next) }
    requires room { vec_len groups.old + group_room change.fresh ≤ vec_capacity groups.old }
    requires gone_room { IsRoomFor (length change.old) (slot_room change.fresh) room }
    ensures { IsExchanged groups.old.items groups.new.items next size change prepared result }
{
    let size = size_after(&change.why, size);
    let Prepared {
        groups: new,
        repaired,
        inode: root,
        text: _,
    } = prepared;
    let MapChange {
        why,
        at: _,
        units: _,
        level: _,
        old,
        fresh,
        inode,
    } = change;
    let inode = inode.with_generation(root.generation);
    let gone = replace(groups, &old, fresh, repaired, next, room);
    let units = count_units(groups) + inode.group.places.len() as u32;
    let next = root.generation + 1;
    let logged = Change {
        old,
        new: List::from_vec(new),
        inode: root,
    };
    let (event, payload) = event_of(alloc, why, size, logged);
    Exchanged {
        event,
        payload,
        gone,
        inode,
        next,
        size,
        units,
    }
}

/// Puts what a change brings in the place of the groups with these generations, and answers these with the slots that it does not
/// keep. New groups get the generations from `next` on, and a repaired one becomes this group.
fn replace<S>(
    groups: &mut Vec<Stripe<S>>,
    old: &List<u32>,
    fresh: Fresh<S>,
    repaired: Option<Group>,
    next: u32,
    room: Room<S>,
) -> List<Stripe<S>>
    requires within { first_of old.now (groups_of groups.old.items) + length old.now ≤ length groups.old.items }
    requires units { AreForRun (run_in old.now groups.old.items) fresh }
    requires small { next + length (brought_groups (run_of old.now (groups_of groups.old.items)) fresh) < 2 ^ 32 }
    requires repaired { list_of repaired ≡ repaired_among fresh (numbered (brought_groups (run_of old.now (groups_of groups.old.items)) fresh) next) }
    requires room { vec_len groups.old + group_room fresh ≤ vec_capacity groups.old }
    requires gone_room { IsRoomFor (length old.now) (slot_room fresh) room }
    ensures groups { groups.new.items ≡ spliced groups.old.items (first_of old.now (groups_of groups.old.items)) (length old.now)
        (stripes_from (brought (run_in old.now groups.old.items) fresh) next) }
    ensures gone { result ≡ released (run_in old.now groups.old.items) fresh }
{
    let Room { mut gone, freed } = room;
    match fresh {
        Fresh::Groups(stripes) => {
            freed.destroy_empty();
            replace_groups(groups, old, stripes, next, gone)
        }
        Fresh::Units(units) => {
            let first = first_of(groups, old.as_slice());
            let Some(group) = repaired else {
                unreachable!()
            };
            gone.push_reserved(exchange_units(&mut groups[first], group, units, freed));
            List::from_vec(gone)
        }
    }
}

/// The event of a change after which the file has this size, and the bytes that its entry carries.
fn event_of(alloc: Global, why: Why, size: u64, change: Change) -> (FileEvent, List<u8>)
    requires few { length (payload_of why) < 2 ^ 32 }
    ensures event { result.0 ≡ event_with why size change }
    ensures payload { result.1 ≡ payload_of why }
{
    match why {
        Why::Write { offset, bytes } => {
            let len = bytes.len() as u32;
            let event = FileEvent::Written {
                offset,
                len,
                size,
                change,
            };
            (event, bytes)
        }
        Why::Place { job } => (FileEvent::Placed { job, change }, List::new(alloc)),
    }
}
