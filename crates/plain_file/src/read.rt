//! The read of a plain file.

ghost use Rattle.std.specs.Prelude.{◌≡◌, ℕ, ◌^◌, ◌<◌, ◌≤◌, ◌-◌, nat_lt, ◌&&◌, List, take, drop, length, IfOk, IfSome, OnOk, OnErr};
ghost use Rattle.std.specs.Result.{IsErrOf};
ghost use Rattle.file_history.specs.Bytes.{slice_of};
ghost use Rattle.file_history.specs.Live.{range, first_short};
ghost use Rattle.plain_file.specs.LastMoment.{last_moment};
ghost use Rattle.plain_file.specs.Mirrors.{IsMirror, AreTold, SameSlots};
ghost use Rattle.plain_file.specs.FileParts.{file_view, layout_of, KeepsFile, MirrorsOf, SizeFits, HasBytes, SameFileSlots, Played, Moves};
ghost use Rattle.plain_file.specs.declared.op.PlainOp.TheVariants as plain;

use crate::file_slots::FileSlots;
use crate::live::{lost_group, lost_inode};
use crate::note::note;
use crate::op::PlainFault;
use crate::pair::Pair;
use crate::stock::Stock;
use domains::{By, Lost, Shape};
use file_history::{FileEvent, NotedEntry, Refused};
use flex_io::{Slot, Steady};
use lists::List;
use std::alloc::Global;

/// Shows the bytes of a range, or notes why it is refused.
pub(crate) fn read<S: Slot + Drop + Steady>(
    alloc: Global,
    shape: Shape,
    by: By,
    offset: u64,
    len: u32,
    log: &mut Vec<NotedEntry>,
    standing: &mut FileSlots<S>,
    stock: &mut Stock<S>,
) -> Result<(), PlainFault>
    requires shape { stock.old.shape ≡ shape }
    requires within { length stock.old.board < 2 ^ 32 }
    requires inside { KeepsFile S.place_of S.content shape log.old.items standing.old }
    ensures played { OnOk result (Played S.place_of S.content by (plain.Read offset len) shape log.old.items log.new.items
        standing.old standing.new stock.old stock.new) }
    ensures moves { Moves S.place_of S.content (plain.Read offset len) shape log.old.items log.new.items
        standing.old standing.new stock.old stock.new }
    ensures kept_log { OnErr result (log.new.items ≡ log.old.items) }
    ensures inside { OnErr result (KeepsFile S.place_of S.content shape log.new.items standing.new) }
    ensures fault { IsErrOf result PlainFault.Slot → ⊥ }
{
    let epoch = stock.epoch();
    let payload = List::new(alloc);
    if !standing.is_present() {
        note(
            log,
            by,
            epoch,
            payload,
            FileEvent::Refused(Refused::ReadAbsent { offset, len }),
        )?;
        return Ok(());
    }
    if let Some(lost) = lost_for(standing, offset, len, stock) {
        note(
            log,
            by,
            epoch,
            payload,
            FileEvent::Refused(Refused::ReadLost { offset, len, lost }),
        )?;
        return Ok(());
    }
    let bytes = shown(alloc, standing, offset, len, stock)?;
    note(
        log,
        by,
        epoch,
        payload,
        FileEvent::Shown { offset, len, bytes },
    )?;
    Ok(())
}

/// Copies the bytes of a slot from an offset up to a stop, as far as the slot holds them.
fn copy_of<S: Slot + Steady>(
    alloc: Global,
    slot: &mut S,
    from: usize,
    to: usize,
) -> Result<List<u8>, PlainFault>
    requires { from ≤ to }
    ensures shown { IfOk result (λ bytes. IfSome (S.content slot.old) (λ told. to ≤ length told → bytes ≡ take (to - from) (drop from told))) }
    ensures content { S.content slot.new ≡ S.content slot.old }
    ensures place { S.place_of slot.new ≡ S.place_of slot.old }
    ensures fault { IsErrOf result PlainFault.Slot → ⊥ }
{
    let mut unit = vec![in alloc; 0u8; slot.len() as usize]?;
    let Ok(()) = slot.read(&mut unit) else {
        return Err(PlainFault::Slot);
    };
    let mut bytes = Vec::new(alloc);
    if let Some(part) = unit.get(from..to) {
        bytes.extend_from_slice(part)?;
    }
    Ok(List::from_vec(bytes))
}

/// The first group that the range needs and that lost too much: the inode's, or the one that holds bytes of the range.
#[tactic(auto, using(crate::proofs::ReadRanges::one_group))]
fn lost_for<S: Slot + Drop>(
    standing: &FileSlots<S>,
    offset: u64,
    len: u32,
    stock: &Stock<S>,
) -> Option<Lost>
    requires mirrors { MirrorsOf S.place_of stock.now.shape standing.now }
    requires fits { SizeFits stock.now.shape standing.now }
    ensures { result ≡ first_short (last_moment stock.now.shape stock.now.board) (layout_of S.place_of standing.now) (range offset len) }
{
    match standing {
        FileSlots::Absent => None,
        FileSlots::Empty { inode } => lost_group(0, inode, stock),
        FileSlots::Written { size, units, inode } => {
            if let Some(lost) = lost_group(2, inode, stock) {
                return Some(lost);
            }
            if !touches(*size, offset, len) {
                return None;
            }
            lost_group(1, units, stock)
        }
    }
}

/// Whether a file of this size has bytes in the range.
fn touches(size: u32, offset: u64, len: u32) -> bool
    ensures { result ≡ (nat_lt 0 len && nat_lt offset size) }
{
    len > 0 && offset < u64::from(size)
}

/// The bytes of the range, from a live unit of the group.
fn shown<S: Slot + Drop + Steady>(
    alloc: Global,
    standing: &mut FileSlots<S>,
    offset: u64,
    len: u32,
    stock: &Stock<S>,
) -> Result<List<u8>, PlainFault>
    requires mirrors { MirrorsOf S.place_of stock.now.shape standing.old }
    ensures shown { IfOk result (λ bytes. (told : List ℕ) → HasBytes S.content stock.now.shape standing.old told
        → bytes ≡ slice_of told offset len) }
    ensures same { SameFileSlots S.place_of S.content standing.old standing.new }
    ensures fault { IsErrOf result PlainFault.Slot → ⊥ }
{
    let FileSlots::Written {
        size,
        units,
        inode: _,
    } = standing
    else {
        return Ok(List::new(alloc));
    };
    if !touches(*size, offset, len) {
        return Ok(List::new(alloc));
    }
    let stop = (offset + u64::from(len)).min(u64::from(*size));
    let bytes = copy_live(alloc, units, offset as usize, stop as usize, stock)?;
    Ok(bytes)
}

/// The bytes of a live unit from an offset up to a stop.
fn copy_live<S: Slot + Drop + Steady>(
    alloc: Global,
    units: &mut Pair<S>,
    from: usize,
    to: usize,
    stock: &Stock<S>,
) -> Result<List<u8>, PlainFault>
    requires order { from ≤ to }
    requires mirror { IsMirror S.place_of stock.now.shape units.old }
    ensures shown { IfOk result (λ bytes. (told : List ℕ) → AreTold S.content units.old told → to ≤ length told
        → bytes ≡ take (to - from) (drop from told)) }
    ensures same { SameSlots S.place_of S.content units.old units.new }
    ensures fault { IsErrOf result PlainFault.Slot → ⊥ }
{
    if stock.is_live(&units.first) {
        copy_of(alloc, &mut units.first, from, to)
    } else {
        copy_of(alloc, &mut units.second, from, to)
    }
}
