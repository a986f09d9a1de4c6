//! Which entries stand against a change that was made ready before them.

ghost use Rattle.std.specs.Prelude.{◌≡◌, ◌≤◌, ◌<◌, ◌+◌, ◌^◌, ◌==◌, ◌&&◌, length};
ghost use Rattle.std.specs.List.{list_any};
ghost use Rattle.domains.specs.Level.{same_level};
ghost use Rattle.domains.specs.declared.group.Group.{Group};
ghost use Rattle.inode_codec.specs.Inode.{units_for};
ghost use Rattle.file_history.specs.Layout.{is_among};
ghost use Rattle.stale_changes.specs.Staleness.{adds_units, cause_in, cause_of, drive_in, end_moved, first_cause, has_generation, is_kept, replaced_by};

use crate::stale::Stale;
use domains::{DriveId, DriveSet, Group, Level, Place};
use file_history::{FileEntry, FileEvent};

/// What entries behind a change's copy are compared with: the stripe unit in bytes, the generation of the group that is last now, if
/// there is one, how many data units the file had and which level it requested at the copy, and the end of the bytes that the change
/// writes, 0 if it writes none.
#[derive(Clone, Copy)]
pub struct Basis {
    pub unit: u32,
    pub last: Option<u32>,
    pub units: u64,
    pub level: Level,
    pub end: u64,
}

/// A unit that a change keeps at its place, of the group with this generation.
#[derive(Clone, Copy, Debug, PartialEq, Eq)]
pub struct KeptUnit {
    pub generation: u32,
    pub position: u8,
}

impl Basis {
    /// Why one of these entries, which stand behind `before` others, stands against a change that replaces the groups with the
    /// generations `old`, keeps the units `kept` of them, and has new units at `places`: the first that does.
    pub fn cause_in(
        &self,
        old: &[u32],
        kept: &[KeptUnit],
        places: &[Place],
        before: u32,
        entries: &[FileEntry],
    ) -> Option<Stale>
        requires unit { 1 ≤ self.now.unit }
        requires few { before + length entries.now < 2 ^ 32 }
        ensures { result ≡ cause_in entries.now before self.now old.now kept.now places.now }
    {
        let [first, rest @ ..] = entries else {
            return None;
        };
        let here = self.cause(old, kept, places, before + 1, &first.event);
        if here.is_some() {
            return here;
        }
        self.cause_in(old, kept, places, before + 1, rest)
    }

    /// Why the event of the entry with this number stands against the change, if it does.
    fn cause(
        &self,
        old: &[u32],
        kept: &[KeptUnit],
        places: &[Place],
        entry: u32,
        event: &FileEvent,
    ) -> Option<Stale>
        requires unit { 1 ≤ self.now.unit }
        ensures { result ≡ cause_of self.now old.now kept.now places.now entry event.now }
    {
        match event {
            FileEvent::Created { .. } | FileEvent::Deleted => Some(Stale::Presence { entry }),
            FileEvent::Written { size, change, .. } => {
                let grown = units_for(self.unit, *size) != u128::from(self.units);
                let moved = grown || has_generation(self.last, change.new.as_slice());
                self.cause_of_groups(old, entry, change.old.as_slice(), moved)
            }
            FileEvent::Placed { change, .. } => {
                let moved = has_generation(self.last, change.new.as_slice());
                self.cause_of_groups(old, entry, change.old.as_slice(), moved)
            }
            FileEvent::Barred { drives, .. } => {
                let drive = drive_in(places, drives)?;
                Some(Stale::Barred { drive, entry })
            }
            FileEvent::LevelSet { level } => {
                if is_same(*level, self.level) {
                    return None;
                }
                Some(Stale::Level { entry })
            }
            FileEvent::Dead {
                generation,
                position,
            } => {
                if !is_kept(kept, *generation, *position) {
                    return None;
                }
                Some(Stale::Dead {
                    generation: *generation,
                    position: *position,
                    entry,
                })
            }
            FileEvent::Shown { .. }
            | FileEvent::Cleared { .. }
            | FileEvent::Marked { .. }
            | FileEvent::Refused(_) => None,
        }
    }

    /// That an entry replaced one of the change's generations, or moved the end of the file.
    fn cause_of_groups(&self, old: &[u32], entry: u32, gone: &[u32], moved: bool) -> Option<Stale>
        requires unit { 1 ≤ self.now.unit }
        ensures { result ≡ first_cause (replaced_by old.now gone.now entry) (end_moved (adds_units self.now && moved) entry) }
    {
        let replaced = replaced_by(old, gone, entry);
        if replaced.is_some() {
            return replaced;
        }
        if moved && self.adds_units() {
            return Some(Stale::Units { entry });
        }
        None
    }

    /// Whether the change writes past the last of the data units.
    fn adds_units(&self) -> bool
        requires unit { 1 ≤ self.now.unit }
        ensures { result ≡ adds_units self.now }
    {
        u128::from(self.units) < units_for(self.unit, self.end)
    }
}

/// Whether the generation is one of these.
pub fn is_among(generations: &[u32], generation: u32) -> bool
    ensures { result ≡ is_among generations.now generation }
{
    generations.iter().any(|other| *other == generation)
}

/// Whether the two are one level.
fn is_same(one: Level, other: Level) -> bool
    ensures { result ≡ same_level one other }
{
    one.w() == other.w() && one.m() == other.m() && one.k() == other.k()
}

/// That one of these generations is among those that an entry replaced: the first.
fn replaced_by(generations: &[u32], gone: &[u32], entry: u32) -> Option<Stale>
    ensures { result ≡ replaced_by generations.now gone.now entry }
{
    let [generation, rest @ ..] = generations else {
        return None;
    };
    if is_among(gone, *generation) {
        return Some(Stale::Replaced {
            generation: *generation,
            entry,
        });
    }
    replaced_by(rest, gone, entry)
}

/// How many units of this length hold this number of bytes.
fn units_for(unit: u32, size: u64) -> u128
    requires { 1 ≤ unit }
    ensures { result ≡ units_for unit size }
{
    (u128::from(size) + u128::from(unit - 1)) / u128::from(unit)
}

/// Whether one of the groups has the generation, if there is one.
fn has_generation(generation: Option<u32>, groups: &[Group]) -> bool
    ensures { result ≡ has_generation generation groups.now }
{
    match generation {
        Some(generation) => is_of(groups, generation),
        None => false,
    }
}

/// Whether one of the groups has the generation.
fn is_of(groups: &[Group], generation: u32) -> bool
    ensures { result ≡ list_any (λ (g : Group). g.generation == generation) groups.now }
{
    let [group, rest @ ..] = groups else {
        return false;
    };
    group.generation == generation || is_of(rest, generation)
}

/// Whether the unit is one of these.
fn is_kept(kept: &[KeptUnit], generation: u32, position: u8) -> bool
    ensures { result ≡ is_kept kept.now generation position }
{
    let [unit, rest @ ..] = kept else {
        return false;
    };
    let here = unit.generation == generation && unit.position == position;
    here || is_kept(rest, generation, position)
}

/// The first of these places' drives that is in the set.
fn drive_in(places: &[Place], drives: &DriveSet) -> Option<DriveId>
    ensures { result ≡ drive_in places.now drives.now }
{
    let [place, rest @ ..] = places else {
        return None;
    };
    if drives.has(place.drive()) {
        return Some(place.drive());
    }
    drive_in(rest, drives)
}
