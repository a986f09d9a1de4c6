//! The change that a write makes of the map.

ghost use Rattle.std.specs.Prelude.{◌≡◌, ℕ, ◌+◌, ◌-◌, ◌/◌, ◌^◌, ◌≤◌, All, List, None, length, IsSome, IfErr, IfOk, OnErr};
ghost use Rattle.domains.specs.Level.{IsLevel};
ghost use Rattle.galois.specs.Field.{IsByte};
ghost use Rattle.map_switches.specs.Switches.{IsRefusal};
ghost use Rattle.file_core.specs.FileSwitches.{IsSwitched};
ghost use Rattle.file_core.specs.FileView.{IsFile, IsLater};
ghost use Rattle.range_writes.specs.ReadyWrites.{IsReadyWrite, write_change};

use board::View;
use domains::By;
use file_core::{FileState, Look, Switched};
use flex_io::Slot;
use lists::List;
use map_switches::{Fresh, MapChange, Why};
use placed_runs::{PlacedRun, RunTerms};
use stale_changes::Stale;
use std::alloc::Global;
use write_plans::WritePlan;

/// Puts the placed groups in the place of those that the plan replaces, and writes the inode. It needs room for one entry. A refusal
/// leaves the file as it was and hands the change back.
pub fn switch_placed<S: Slot + Send + Drop>(
    alloc: Global,
    file: &mut FileState<S>,
    by: By,
    view: &View,
    look: &Look,
    terms: &RunTerms,
    plan: &WritePlan,
    old: List<u32>,
    offset: u64,
    payload: List<u8>,
    placed: PlacedRun<S>,
) -> Result<Switched<S>, (Stale, MapChange<S>)>
    requires spare { 1 ≤ file.old.spare }
    requires file { IsFile S.place_of S.content S.len_of file.old }
    requires later { IsLater view.now file.old }
    requires entries { look.now.at ≡ length file.old.notes }
    requires unit { 1 ≤ terms.now.unit }
    requires level { IsLevel terms.now.level }
    requires size { look.now.size + terms.now.unit ≤ 2 ^ 62 }
    requires old { old ≡ plan.now.old }
    requires ready { (bytes : List ℕ) × IsReadyWrite S.place_of S.content S.len_of file.old view.now terms.now plan.now offset payload bytes placed.groups placed.inode }
    ensures switched { IfOk result (λ done. IsSwitched S.place_of S.content S.len_of by view.now
        (write_change old offset payload look.now.at ((look.now.size + (terms.now.unit - 1)) / terms.now.unit) terms.now.level placed.groups placed.inode)
        file.old file.new done) }
    ensures kept { OnErr result (file.new ≡ file.old) }
    ensures refused { IfErr result (λ refused. IsRefusal S.place_of S.faults None
        (write_change old offset payload look.now.at ((look.now.size + (terms.now.unit - 1)) / terms.now.unit) terms.now.level placed.groups placed.inode)
        refused.0 refused.1) }
    ensures file { IsFile S.place_of S.content S.len_of file.new }
{
    are_bytes(payload.as_slice());
    slots_are_alike::<S>();
    let unit = u64::from(terms.unit);
    let PlacedRun { groups, inode } = placed;
    let change = MapChange {
        why: Why::Write {
            offset,
            bytes: payload,
        },
        at: look.at,
        units: (look.size + (unit - 1)) / unit,
        level: terms.level,
        old,
        fresh: Fresh::Groups(groups),
        inode,
    };
    file.switch(alloc, by, view, change)
}

// What is written is bytes. The type says so, and calling this tells the proof.
fn are_bytes(payload: &[u8])
    ensures { All IsByte payload.now }
{}

// Either all slots tell what they hold or none does, by the law of their type.
fn slots_are_alike<S: Slot>()
    ensures { (one : S) (other : S) → IsSome (S.content one) → IsSome (S.content other) }
{}
