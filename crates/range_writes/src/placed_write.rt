//! The new groups of a write on new slots.

ghost use Rattle.std.specs.Prelude.{◌≡◌, ◌+◌, ◌<◌, ◌≤◌, ◌^◌, length, IfErr, IfOk};
ghost use Rattle.std.specs.List.{AllByRecursion};
ghost use Rattle.domains.specs.Level.{IsLevel};
ghost use Rattle.fabric.specs.Views.{IsHandOf, fabric_view};
ghost use Rattle.file_history.specs.Live.{write};
ghost use Rattle.file_core.specs.FileView.{IsFile, bytes_of, layout_of, now_of};
ghost use Rattle.pulled_groups.specs.PullAnswers.{CanDecode, ShowsGroup};
ghost use Rattle.file_heads.specs.Parts.{needs};
ghost use Rattle.placement.specs.Draws.{IfNoRoom, IsSameDesk};
ghost use Rattle.slot_search.specs.Searches.{KeepsHand};
ghost use Rattle.striped_groups.specs.StoredGroups.{AllTell};
ghost use Rattle.write_plans.specs.Plans.{IsPlan};
ghost use Rattle.write_units.specs.GroupUnits.{pulled_spans};
ghost use Rattle.write_units.specs.Spans.{spans_with};
ghost use Rattle.range_writes.specs.PlacedWrites.{FindsNoWrite, PlacesWrite};
ghost use Rattle.range_writes.specs.ReadyWrites.{AreTermsOf};

use fabric::Desk;
use file_core::{FileState, Pulled};
use flex_io::{Gate, Slot};
use placed_runs::{PlacedRun, RunTerms, place_run};
use placement::PlaceRefusal;
use std::alloc::Global;
use std::sync::Wait;
use write_plans::WritePlan;
use write_units::laws::{needed_groups_cover_runs, runs_hold_writes};
use write_units::{bytes_around, old_groups};

/// Places the new groups that the plan names, and draws the slots of the inode behind them. Their bytes are the payload, and around it
/// those of the groups at hand. The first group has this spin.
pub fn place_write<S: Slot + Send + Drop, G: Gate, R: Wait>(
    rt: &R,
    alloc: Global,
    file: &FileState<S>,
    desk: &mut Desk<'_, S, G>,
    terms: &RunTerms,
    spin: u32,
    pulled: &Pulled,
    plan: &WritePlan,
    offset: u64,
    payload: &[u8],
) -> Result<PlacedRun<S>, PlaceRefusal>
    requires file { IsFile S.place_of S.content S.len_of file.now }
    requires hand { IsHandOf (fabric_view desk.old.fabric.now) desk.old.hand.now }
    requires shape { (fabric_view desk.old.fabric.now).shape ≡ file.now.shape }
    requires level { IsLevel terms.now.level }
    requires terms { AreTermsOf file.now terms.now.view terms.now }
    requires spin { spin ≤ 2 ^ 31 }
    requires some { 1 ≤ length payload.now }
    requires within { offset + length payload.now < 2 ^ 32 }
    requires plan { IsPlan (now_of file.now terms.now.view) (layout_of file.now) offset (length payload.now) plan.now }

    // What is at hand.
    requires size { pulled.now.look.size ≡ (layout_of file.now).size }
    requires spans { pulled_spans pulled.now.groups ≡ spans_with (layout_of file.now).groups 0
        (needs file.now.shape.unit (layout_of file.now).size (write offset (length payload.now) plan.now.width)) }
    requires decodes { AllByRecursion (CanDecode file.now.shape.unit) pulled.now.groups }
    requires shown { AllTell S.content → AllByRecursion (ShowsGroup file.now.shape.unit (bytes_of file.now)) pulled.now.groups }

    ensures keeps { KeepsHand (fabric_view desk.old.fabric.now) desk.old.hand.now desk.new.hand.now }
    ensures same { IsSameDesk desk.old desk.new }
    ensures placed { IfOk result (λ r. PlacesWrite S.place_of S.content S.len_of S.faults file.now terms.now spin plan.now offset payload.now r.groups r.inode
        desk.old.hand.now desk.new.hand.now) }
    ensures no_room { IfErr result (λ e. IfNoRoom e (λ told. FindsNoWrite S.place_of S.content S.len_of S.faults file.now terms.now spin plan.now offset payload.now told
        desk.old.hand.now desk.new.hand.now)) }
{
    runs_hold_writes();
    needed_groups_cover_runs();
    let Ok(old) = old_groups(alloc, terms.unit, pulled.groups.as_slice()) else {
        return Err(PlaceRefusal::NoMemory);
    };
    let bytes = bytes_around(
        &old,
        &plan.run,
        terms.unit,
        pulled.look.size,
        offset,
        payload,
    );
    place_run(rt, alloc, desk, terms, spin, &bytes, plan.chunks.as_slice())
}
