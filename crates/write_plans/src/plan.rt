//! The plan of a write.

ghost use Rattle.std.specs.Prelude.{◌≡◌, ◌+◌, ◌<◌, ◌≤◌, ◌^◌, ◌&&◌, not, true, length, Some, IfOk, take, drop};
ghost use Rattle.domains.specs.Drive.{Drive, IsDrive};
ghost use Rattle.domains.specs.DriveSet.{has};
ghost use Rattle.file_core.specs.FileView.{IsFile, layout_of, now_of};
ghost use Rattle.file_core.specs.Looks.{IsLook};
ghost use Rattle.file_history.specs.Refusals.{width_at};
ghost use Rattle.file_history.specs.WriteRule.{AreChunks};
ghost use Rattle.write_plans.specs.Plans.{PlanTells};

use crate::map_heads::{MapHeads, map_heads};
use board::View;
use domains::{DriveSet, Shape, TooFew, width};
use file_core::{FileState, Look};
use flex_io::Slot;
use lists::List;
use std::alloc::{AllocError, Global};
use thiserror::Error;
use write_rule::{ReplacedRun, WriteRange, chunks, replaced_run};

/// The most groups that a map may have.
const GROUPS: u64 = 256;

/// What a write does to the map of a file: the most data units of a new group, the run of groups that it replaces, their
/// generations, and how many data units each of the new groups has.
#[derive(Debug, Drop)]
pub struct WritePlan {
    pub width: u8,
    pub run: ReplacedRun,
    pub old: List<u32>,
    pub chunks: List<u8>,
}

/// Why a write has no plan. Of several causes the first is told, in this order.
#[derive(Clone, Copy, Debug, PartialEq, Eq, Error)]
pub enum PlanRefusal {
    #[error("the file is absent")]
    Absent,
    #[error("too few drives are usable")]
    TooFew(TooFew),
    #[error("the map would have {count} groups")]
    TooLong { count: u64 },
    #[error("out of memory")]
    NoMemory,
}

/// The plan of a write of `len` bytes at `offset`, for the file that `look` tells of, whose new units may stand on the usable drives.
pub fn plan_write<S: Slot + Send + Drop>(
    alloc: Global,
    file: &FileState<S>,
    shape: &Shape,
    view: &View,
    look: &Look,
    usable: &DriveSet,
    offset: u64,
    len: u64,
) -> Result<WritePlan, PlanRefusal>
    requires file { IsFile S.place_of S.content S.len_of file.now }
    requires shape { shape.now ≡ file.now.shape }
    requires look { IsLook (layout_of file.now) (length file.now.notes) look.now }
    requires usable { (d : Drive) → IsDrive d → has usable.now d ≡ (has view.now.up d && not (has look.now.barred d)) }
    requires some { 1 ≤ len }
    requires within { offset + len < 2 ^ 32 }
    ensures tells { PlanTells result (now_of file.now view.now) (layout_of file.now) offset len }
{
    if !look.present {
        return Err(PlanRefusal::Absent);
    }
    // A level that was read is one of the table, so a new group has a data unit.
    let _most = look.level.w();
    match width(&look.level, shape, usable) {
        Ok(most) => plan_of_width(alloc, file, shape, view, look, most, offset, len),
        Err(fault) => Err(PlanRefusal::TooFew(fault)),
    }
}

/// The plan of a write to a file that is there, whose new groups have at most `width` data units.
fn plan_of_width<S: Slot + Send + Drop>(
    alloc: Global,
    file: &FileState<S>,
    shape: &Shape,
    view: &View,
    look: &Look,
    most: u8,
    offset: u64,
    len: u64,
) -> Result<WritePlan, PlanRefusal>
    requires file { IsFile S.place_of S.content S.len_of file.now }
    requires shape { shape.now ≡ file.now.shape }
    requires look { IsLook (layout_of file.now) (length file.now.notes) look.now }
    requires present { (layout_of file.now).present ≡ true }
    requires wide { width_at (now_of file.now view.now) (layout_of file.now) ≡ Some most }
    requires some_wide { 1 ≤ most }
    requires some { 1 ≤ len }
    requires within { offset + len < 2 ^ 32 }
    ensures tells { PlanTells result (now_of file.now view.now) (layout_of file.now) offset len }
{
    let Ok(heads) = map_heads(alloc, file, look.groups) else {
        return Err(PlanRefusal::NoMemory);
    };
    let range = WriteRange {
        unit: shape.unit(),
        size: look.size,
        offset,
        len,
        width: most,
    };
    let run = replaced_run(&heads.widths, &range);
    let count = run.groups_after(u32::from(look.groups), most);
    if count > GROUPS {
        return Err(PlanRefusal::TooLong { count });
    }
    match plan_of_run(alloc, &heads, most, run) {
        Ok(plan) => Ok(plan),
        Err(AllocError) => Err(PlanRefusal::NoMemory),
    }
}

/// The plan of a write that replaces this run of groups.
fn plan_of_run(
    alloc: Global,
    heads: &MapHeads,
    width: u8,
    run: ReplacedRun,
) -> Result<WritePlan, AllocError>
    requires within { run.first + run.count ≤ length heads.now.generations.items }
    requires wide { 1 ≤ width }
    ensures width { IfOk result (λ p. p.width ≡ width) }
    ensures run { IfOk result (λ p. p.run ≡ run) }
    ensures old { IfOk result (λ p. p.old ≡ take run.count (drop run.first heads.now.generations.items)) }
    ensures chunks { IfOk result (λ p. AreChunks run.new_units width p.chunks) }
{
    let first = run.first as usize;
    let stop = first + run.count as usize;
    let old = Vec::from_slice(alloc, &heads.generations[first..stop])?;
    let widths = chunks(alloc, run.new_units, width)?;
    Ok(WritePlan {
        width,
        run,
        old: List::from_vec(old),
        chunks: List::from_vec(widths),
    })
}
