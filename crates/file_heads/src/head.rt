//! What a file is, but for its groups.

ghost use Rattle.std.specs.Prelude.{◌≡◌, true, ◌||◌, ◌&&◌, ◌<◌, ◌-◌, ◌^◌, length};
ghost use Rattle.domains.specs.Drive.{Drive, IsDrive, same_drive};
ghost use Rattle.domains.specs.DriveSet.{has};
ghost use Rattle.domains.specs.Level.{Level};
ghost use Rattle.domains.specs.declared.group.Group.{Group};
ghost use Rattle.file_history.specs.Layout.{Layout, empty_layout, layout_after_event};
ghost use Rattle.file_history.specs.Live.{is_dead};
ghost use Rattle.file_heads.specs.Heads.{IsHead};
ghost use Rattle.file_heads.specs.Heads.{is_quiet};

use crate::dead_units::DeadUnits;
use domains::{DriveId, DriveSet, Level};
use file_history::FileEvent;
use std::alloc::Global;

/// The requested level, that of the inode, the size in bytes, the next generation, how many units are held, which of them are
/// dead, and the barred drives.
#[derive(Drop)]
pub struct Head {
    pub requested: Level,
    pub level: Level,
    pub size: u64,
    pub next: u32,
    pub units: u32,
    pub dead: DeadUnits,
    pub barred: DriveSet,
}

impl Head {
    /// That of an absent file.
    pub fn new(alloc: Global, level: Level) -> Head
        ensures { IsHead result (empty_layout level) }
    {
        Head {
            requested: level,
            level,
            size: 0,
            next: 0,
            units: 0,
            dead: DeadUnits::new(alloc),
            barred: DriveSet::new(),
        }
    }

    /// Takes in that the file, which was declared at this level, is deleted.
    pub fn delete(&mut self, declared: Level)
        ensures { (l : Layout) → IsHead self.old l → IsHead self.new (layout_after_event declared FileEvent.Deleted l) }
    {
        self.requested = declared;
        self.size = 0;
        self.units = 0;
    }

    /// Takes in that the file, which was declared at this level, is created with an inode of `units` units.
    pub fn create(&mut self, declared: Level, units: u32)
        requires few { self.old.next < 2 ^ 32 - 1 }
        ensures { (l : Layout) (g : Group) → IsHead self.old l → g.generation ≡ l.next → units ≡ length g.places
            → IsHead self.new (layout_after_event declared (FileEvent.Created g) l) }
    {
        self.requested = declared;
        self.level = declared;
        self.size = 0;
        self.next += 1;
        self.units = units;
    }

    /// Takes in that the map was changed: the file has this size and this many units then, and the inode the requested level.
    pub fn switch(&mut self, next: u32, size: u64, units: u32)
        ensures { self.new ≡ record self.old { level = self.old.requested; next = next; size = size; units = units } }
    {
        self.level = self.requested;
        self.next = next;
        self.size = size;
        self.units = units;
    }

    /// Takes in an event that moves no unit.
    pub fn hear(&mut self, event: &FileEvent)
        requires { is_quiet event.now ≡ true }
        ensures { (declared : Level) (l : Layout) → IsHead self.old l → IsHead self.new (layout_after_event declared event.now l) }
    {
        match event {
            FileEvent::LevelSet { level } => self.requested = *level,
            FileEvent::Barred { drives, .. } => add_drives(&mut self.barred, drives),
            _ => {}
        }
    }
}

impl Head {
    /// Whether an entry says that the unit is dead.
    pub fn is_dead(&self, generation: u32, position: u8) -> bool
        ensures { (l : Layout) → IsHead self.now l → result ≡ is_dead l generation position }
    {
        self.dead.has(generation, position)
    }
}

/// How many drives a set can have: 16 on each of 32 nodes.
const DRIVES: u16 = 512;

/// Adds drives to a set.
fn add_drives(set: &mut DriveSet, drives: &DriveSet)
    ensures { (d : Drive) → IsDrive d → has set.new d ≡ (has set.old d || has drives.now d) }
{
    for rank in 0..DRIVES {
        let drive = DriveId::new((rank / 16) as u8 + 1, (rank % 16) as u8 + 1);
        add_if_in(set, drives, drive);
    }
}

/// Adds a drive to a set, if it is one of these.
#[tactic(auto, using(crate::proofs::DriveSetUnion::added_in, crate::proofs::DriveSetUnion::not_in))]
fn add_if_in(set: &mut DriveSet, drives: &DriveSet, drive: DriveId)
    ensures { (d : Drive) → IsDrive d → has set.new d ≡ (has set.old d || (has drives.now d && same_drive d drive)) }
{
    if drives.has(drive) {
        set.add(drive);
    }
}
