//! What a change of a file's map brings.

ghost use Rattle.std.specs.Prelude.{◌≡◌, ◌<◌, ◌^◌, ◌++◌, OnOk, OnErr, IfErr};
ghost use Rattle.map_switches.specs.RepairedUnits.{kept_among};
ghost use Rattle.map_switches.specs.Switches.{end_of, group_room, kept_units, size_after, slot_room};

use domains::{Level, Place};
use held_slots::Held;
use job_rules::JobId;
use lists::List;
use stale_changes::KeptUnit;
use std::alloc::AllocError;
use striped_groups::Stripe;

/// What a change is for: bytes that are written at an offset, or units that a job places anew.
#[derive(Debug, Drop)]
pub enum Why {
    Write { offset: u64, bytes: List<u8> },
    Place { job: JobId },
}

/// A unit of a group that is repaired.
pub enum FreshUnit<S> {
    /// The unit at this position of the group with this generation stays in its slot.
    Kept { generation: u32, position: u8 },
    /// A new unit, in this slot, which stands at this place.
    New { place: Place, slot: Held<S> },
}

/// What stands in the place of the old groups.
pub enum Fresh<S> {
    /// New groups in map order, none if the change places the inode alone.
    Groups(List<Stripe<S>>),
    /// The units of the one old group by position: it keeps its n and m, and those of its units that stay where they are.
    Units(List<FreshUnit<S>>),
}

/// A change of a file's map, made ready on a copy of the file that was taken after `at` entries, when the file had `units` data
/// units and requested `level`. It replaces the groups with the generations `old`, in map order, and the inode. The generations of
/// what it brings are given by the file.
pub struct MapChange<S> {
    pub why: Why,
    pub at: u32,
    pub units: u64,
    pub level: Level,
    pub old: List<u32>,
    pub fresh: Fresh<S>,
    pub inode: Stripe<S>,
}

/// How many groups come into the map beside those that are there.
pub fn group_room<S>(fresh: &Fresh<S>) -> usize
    ensures { result ≡ group_room fresh.now }
{
    match fresh {
        Fresh::Groups(stripes) => stripes.len(),
        Fresh::Units(_) => 0,
    }
}

/// How many slots may come out of a group that is repaired.
pub fn slot_room<S>(fresh: &Fresh<S>) -> usize
    ensures { result ≡ slot_room fresh.now }
{
    match fresh {
        Fresh::Groups(_) => 0,
        Fresh::Units(units) => units.len(),
    }
}

/// The units that a change keeps, behind others.
pub fn push_kept<S>(fresh: &Fresh<S>, kept: &mut Vec<KeptUnit>) -> Result<(), AllocError>
    ensures { OnOk result (kept.new.items ≡ kept.old.items ++ kept_units fresh.now) }
{
    match fresh {
        Fresh::Groups(_) => Ok(()),
        Fresh::Units(units) => push_kept_among(units.as_slice(), kept),
    }
}

/// Puts the kept ones of these units behind others.
fn push_kept_among<S>(units: &[FreshUnit<S>], kept: &mut Vec<KeptUnit>) -> Result<(), AllocError>
    ensures { OnOk result (kept.new.items ≡ kept.old.items ++ kept_among units.now) }
{
    let [unit, rest @ ..] = units else {
        return Ok(());
    };
    if let FreshUnit::Kept {
        generation,
        position,
    } = unit
    {
        kept.push(KeptUnit {
            generation: *generation,
            position: *position,
        })?;
    }
    push_kept_among(rest, kept)
}

/// The size of the file after the change.
pub fn size_after(why: &Why, size: u64) -> u64
    requires { size_after why.now size < 2 ^ 63 }
    ensures { result ≡ size_after why.now size }
{
    match why {
        Why::Write { offset, bytes } => size.max(offset + bytes.len() as u64),
        Why::Place { .. } => size,
    }
}

/// Where the bytes that are written end, as far as 64 bits can name it; 0 if none are.
pub fn end_of(why: &Why) -> u64
    ensures { result ≡ end_of why.now }
{
    match why {
        Why::Write { offset, bytes } => offset.saturating_add(bytes.len() as u64),
        Why::Place { .. } => 0,
    }
}
