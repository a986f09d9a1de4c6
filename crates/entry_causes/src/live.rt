//! Which units of a file count, and the first group that has too few of them.

ghost use Rattle.std.specs.Prelude.{◌≡◌, ◌≤◌, ◌<◌, ◌+◌, ◌*◌, ◌^◌, if◌then◌else◌, None, [], ◌∷◌, length};
ghost use Rattle.std.specs.List.{AllByRecursion};
ghost use Rattle.file_history.specs.Layout.{Layout, group_list};
ghost use Rattle.file_history.specs.Live.{first_short};
ghost use Rattle.file_history.specs.World.{Moment};
ghost use Rattle.entry_causes.specs.Sights.{HasFewPlaces, IsAsked, IsSightOf, count_live, first_of, is_dead_at, live_at, lost_from, lost_of, part_of};

use crate::needs::Asked;
use domains::{DriveSet, Group, Lost, Place};
use std::collections::BTreeSet;

/// What is seen of a file at a moment: the length of its stripe units and its size, in bytes, which drives are up, and which units are
/// dead, each by a number.
#[derive(Clone, Copy)]
pub struct Sight<'a> {
    pub unit: u32,
    pub size: u64,
    pub up: &'a DriveSet,
    pub dead: &'a BTreeSet<u64>,
}

impl Sight<'_> {
    /// The first group that is needed and has too few live units, of the inode's and those of the map.
    pub fn first_short(&self, inode: &Group, groups: &[Group], asked: &Asked) -> Option<Lost>
        requires unit { 1 ≤ self.now.unit }
        requires wide { self.now.unit ≤ 131072 }
        requires size { self.now.size ≤ 2 ^ 29 }
        requires asked { IsAsked asked.now }
        requires few { 255 * length groups.now < 2 ^ 32 }
        requires root { HasFewPlaces inode.now }
        requires places { AllByRecursion HasFewPlaces groups.now }
        ensures { (now : Moment) (l : Layout) → IsSightOf self.now now l → group_list l.inode ≡ inode.now ∷ [] → l.groups ≡ groups.now
            → result ≡ first_short now l (part_of asked.now) }
    {
        let here = self.lost_of(inode);
        let later = self.lost_from(groups, asked, 0);
        here.or(later)
    }

    /// The first of these groups that is needed and has too few live units. `start` is the first data unit of the first.
    fn lost_from(&self, groups: &[Group], asked: &Asked, start: u32) -> Option<Lost>
        requires unit { 1 ≤ self.now.unit }
        requires wide { self.now.unit ≤ 131072 }
        requires size { self.now.size ≤ 2 ^ 29 }
        requires asked { IsAsked asked.now }
        requires few { start + 255 * length groups.now < 2 ^ 32 }
        requires places { AllByRecursion HasFewPlaces groups.now }
        ensures { result ≡ lost_from groups.now start self.now.unit self.now.size self.now.up.now self.now.dead.now (part_of asked.now) }
    {
        let [group, rest @ ..] = groups else {
            return None;
        };
        let needed = asked.needs(self.unit, self.size, start, group, rest.is_empty());
        let here = self.lost_if(needed, group);
        let later = self.lost_from(rest, asked, start + u32::from(group.n));
        here.or(later)
    }

    /// That a group that is needed has too few live units.
    fn lost_if(&self, needed: bool, group: &Group) -> Option<Lost>
        requires { HasFewPlaces group.now }
        ensures { result ≡ (if needed then lost_of self.now.up.now self.now.dead.now group.now else None) }
    {
        if !needed {
            return None;
        }
        self.lost_of(group)
    }

    /// That the group has too few live units.
    fn lost_of(&self, group: &Group) -> Option<Lost>
        requires { HasFewPlaces group.now }
        ensures { result ≡ lost_of self.now.up.now self.now.dead.now group.now }
    {
        let have = self.live_from(group.generation, group.places.as_slice(), 0);
        if have < group.n {
            return Some(Lost {
                generation: group.generation,
                have,
                need: group.n,
            });
        }
        None
    }

    /// How many units at these places count, the first of which has this position.
    fn live_from(&self, generation: u32, places: &[Place], position: u8) -> u8
        requires { position + length places.now ≤ 255 }
        ensures value { result ≡ count_live places.now position (live_at self.now.up.now self.now.dead.now generation) }
        ensures most { result ≤ length places.now }
    {
        let [place, rest @ ..] = places else {
            return 0;
        };
        let live = self.is_live(generation, position, *place);
        u8::from(live) + self.live_from(generation, rest, position + 1)
    }

    /// Whether the unit counts: its drive is up, and it is not dead.
    fn is_live(&self, generation: u32, position: u8, place: Place) -> bool
        ensures { result ≡ live_at self.now.up.now self.now.dead.now generation position place }
    {
        self.up.has(place.drive()) && !self.is_dead(generation, position)
    }

    /// Whether the unit at this position of this generation is dead.
    pub fn is_dead(&self, generation: u32, position: u8) -> bool
        ensures { result ≡ is_dead_at self.now.dead.now generation position }
    {
        self.dead
            .contains(&(u64::from(generation) * 256 + u64::from(position)))
    }
}
