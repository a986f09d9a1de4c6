//! One try of a write: what it needs is pulled, the new groups are placed, and the map is changed.

ghost use Rattle.std.specs.Prelude.{◌≡◌, ◌+◌, ◌<◌, ◌≤◌, ◌^◌, true, IfOk, length};
ghost use Rattle.std.specs.List.{AllByRecursion};
ghost use Rattle.domains.specs.Level.{IsLevel};
ghost use Rattle.fabric.specs.Views.{IsHandOf, fabric_view};
ghost use Rattle.file_core.specs.FileView.{IsFile, IsLater, bytes_of, layout_of, now_of};
ghost use Rattle.file_core.specs.Looks.{IsLook};
ghost use Rattle.file_heads.specs.Parts.{needs};
ghost use Rattle.file_history.specs.Live.{write};
ghost use Rattle.file_writes.specs.WriteTerms.{AreExactTerms};
ghost use Rattle.file_writes.specs.WriteTries.{SwitchTells, TryTells};
ghost use Rattle.placement.specs.Draws.{IsSameDesk};
ghost use Rattle.pulled_groups.specs.PullAnswers.{CanDecode, ShowsGroup};
ghost use Rattle.slot_search.specs.Searches.{KeepsHand};
ghost use Rattle.striped_groups.specs.StoredGroups.{AllTell};
ghost use Rattle.write_plans.specs.Plans.{IsPlan};
ghost use Rattle.write_units.specs.GroupUnits.{pulled_spans};
ghost use Rattle.write_units.specs.Spans.{spans_with};

use domains::Lost;
use fabric::Desk;
use file_core::{FileState, PullRefusal, Pulled, Switched};
use flex_io::{Gate, Slot, Steady};
use lists::List;
use map_switches::MapChange;
use placed_runs::RunTerms;
use placement::{NoRoom, PlaceRefusal};
use range_writes::{place_write, pull_for_write, switch_placed};
use stale_changes::Stale;
use std::alloc::{AllocError, Global};
use std::sync::Wait;
use write_plans::WritePlan;

/// Why a try of a write did not change the file. A change that is refused comes back with its slots.
pub enum WriteStop<S: Slot + Send + Drop> {
    Lost(Lost),
    NoRoom(NoRoom),
    Refused { why: Stale, change: MapChange<S> },
    NoMemory,
}

/// Tries to write the payload at the offset by this plan.
pub fn try_write<S: Slot + Steady + Send + Drop, G: Gate, R: Wait>(
    rt: &R,
    alloc: Global,
    file: &mut FileState<S>,
    desk: &mut Desk<'_, S, G>,
    terms: &RunTerms,
    plan: &WritePlan,
    offset: u64,
    payload: &[u8],
) -> Result<Switched<S>, WriteStop<S>>
    requires spare { 1 ≤ file.old.spare }
    requires file { IsFile S.place_of S.content S.len_of file.old }
    requires later { IsLater terms.now.view file.old }
    requires hand { IsHandOf (fabric_view desk.old.fabric.now) desk.old.hand.now }
    requires shape { (fabric_view desk.old.fabric.now).shape ≡ file.old.shape }
    requires level { IsLevel terms.now.level }
    requires terms { AreExactTerms file.old terms.now.view terms.now }
    requires plan { IsPlan (now_of file.old terms.now.view) (layout_of file.old) offset (length payload.now) plan.now }
    requires some { 1 ≤ length payload.now }
    requires within { offset + length payload.now < 2 ^ 32 }
    ensures keeps { KeepsHand (fabric_view desk.old.fabric.now) desk.old.hand.now desk.new.hand.now }
    ensures same { IsSameDesk desk.old desk.new }
    ensures tells { TryTells S.place_of S.content S.len_of S.faults result desk.old.by terms.now plan.now offset payload.now file.old file.new
        desk.old.hand.now desk.new.hand.now }
    ensures file { IsFile S.place_of S.content S.len_of file.new }
{
    let len = payload.len() as u64;
    match pull_for_write(alloc, file, &terms.view, offset, len, plan.width) {
        Ok(pulled) => place_and_switch(
            rt, alloc, file, desk, terms, plan, &pulled, offset, payload,
        ),
        Err(PullRefusal::Absent) => unreachable!(),
        Err(PullRefusal::Unknown { generation: _ }) => unreachable!(),
        Err(PullRefusal::Lost(lost)) => Err(WriteStop::Lost(lost)),
        Err(PullRefusal::NoMemory) => Err(WriteStop::NoMemory),
    }
}

/// Places the new groups of a file with what the write needs at hand, and changes the map.
fn place_and_switch<S: Slot + Send + Drop, G: Gate, R: Wait>(
    rt: &R,
    alloc: Global,
    file: &mut FileState<S>,
    desk: &mut Desk<'_, S, G>,
    terms: &RunTerms,
    plan: &WritePlan,
    pulled: &Pulled,
    offset: u64,
    payload: &[u8],
) -> Result<Switched<S>, WriteStop<S>>
    requires spare { 1 ≤ file.old.spare }
    requires file { IsFile S.place_of S.content S.len_of file.old }
    requires later { IsLater terms.now.view file.old }
    requires hand { IsHandOf (fabric_view desk.old.fabric.now) desk.old.hand.now }
    requires shape { (fabric_view desk.old.fabric.now).shape ≡ file.old.shape }
    requires level { IsLevel terms.now.level }
    requires terms { AreExactTerms file.old terms.now.view terms.now }
    requires plan { IsPlan (now_of file.old terms.now.view) (layout_of file.old) offset (length payload.now) plan.now }
    requires some { 1 ≤ length payload.now }
    requires within { offset + length payload.now < 2 ^ 32 }
    requires look { IsLook (layout_of file.old) (length file.old.notes) pulled.now.look }
    requires spans { pulled_spans pulled.now.groups ≡ spans_with (layout_of file.old).groups 0
        (needs file.old.shape.unit (layout_of file.old).size (write offset (length payload.now) plan.now.width)) }
    requires decodes { AllByRecursion (CanDecode file.old.shape.unit) pulled.now.groups }
    requires shown { AllTell S.content → AllByRecursion (ShowsGroup file.old.shape.unit (bytes_of file.old)) pulled.now.groups }
    ensures keeps { KeepsHand (fabric_view desk.old.fabric.now) desk.old.hand.now desk.new.hand.now }
    ensures same { IsSameDesk desk.old desk.new }
    ensures tells { SwitchTells S.place_of S.content S.len_of S.faults result desk.old.by terms.now plan.now offset payload.now file.old file.new
        desk.old.hand.now desk.new.hand.now }
    ensures file { IsFile S.place_of S.content S.len_of file.new }
{
    let Ok((old, bytes)) = copies(alloc, plan, payload) else {
        return Err(WriteStop::NoMemory);
    };
    let spin = u32::from(file.file()) + pulled.look.next_generation;
    match place_write(
        rt, alloc, file, desk, terms, spin, pulled, plan, offset, payload,
    ) {
        Ok(placed) => {
            let by = desk.by;
            let look = &pulled.look;
            match switch_placed(
                alloc,
                file,
                by,
                &terms.view,
                look,
                terms,
                plan,
                old,
                offset,
                bytes,
                placed,
            ) {
                Ok(done) => Ok(done),
                Err((why, change)) => Err(WriteStop::Refused { why, change }),
            }
        }
        Err(PlaceRefusal::NoRoom(told)) => Err(WriteStop::NoRoom(told)),
        Err(PlaceRefusal::NoMemory) => Err(WriteStop::NoMemory),
    }
}

/// The generations that the plan replaces, and the payload, for the entry.
fn copies(
    alloc: Global,
    plan: &WritePlan,
    payload: &[u8],
) -> Result<(List<u32>, List<u8>), AllocError>
    ensures { IfOk result (λ made. (made.0 ≡ plan.now.old) × (made.1 ≡ payload.now)) }
{
    let old = plan.old.as_slice().to_vec(alloc)?;
    let bytes = payload.to_vec(alloc)?;
    Ok((List::from_vec(old), List::from_vec(bytes)))
}
