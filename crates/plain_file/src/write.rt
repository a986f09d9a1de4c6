//! The write of a plain file.

ghost use Rattle.std.specs.Prelude.{◌≡◌, ℕ, ◌^◌, ◌<◌, ◌≤◌, ◌+◌, ◌-◌, true, None, [], ◌∷◌, ◌++◌, length, replicate, All, IfOk, OnOk, OnErr};
ghost use Rattle.std.specs.Result.{IsErrOf};
ghost use Rattle.domains.specs.Shape.{IsShape};
ghost use Rattle.domains.specs.Level.{two_copies};
ghost use Rattle.domains.specs.Room.{room_of};
ghost use Rattle.board_history.specs.Board.{up_after};
ghost use Rattle.galois.specs.Field.{IsByte};
ghost use Rattle.inode_codec.specs.Inode.{inode_bytes};
ghost use Rattle.plain_file.specs.Plain.{OneEach, HasRoom, IsUnwritten, HasFailed};
ghost use Rattle.plain_file.specs.Mirrors.{IsMirror, mirror_of};
ghost use Rattle.plain_file.specs.Draws.{Draws, SameFree, SameBeside, Draws2};
ghost use Rattle.plain_file.specs.FileParts.{is_present, file_view, layout_of, KeepsFile, Played, Moves, MayRelease, ReleasesInode};
ghost use Rattle.file_history.specs.Live.{short_in};
ghost use Rattle.file_history.specs.Layout.{group_list};
ghost use Rattle.plain_file.specs.LastMoment.{last_moment};
ghost use Rattle.plain_file.specs.declared.op.PlainOp.TheVariants as plain;

use crate::file_slots::{FileSlots, mirror_group};
use crate::live::lost_inode;
use crate::note::note;
use crate::op::PlainFault;
use crate::pair::Pair;
use crate::stock::Stock;
use domains::{By, Group, Level, Place, Shape};
use file_history::{Change, FileEntry, FileEvent, NotedEntry, Refused};
use flex_io::Slot;
use inode_codec::Inode;
use lists::List;
use std::alloc::{AllocError, Global};
use std::mem;

/// Writes the bytes from the front of the file, or notes why it is refused.
#[tactic(auto, using(crate::proofs::FaultCauses::no_slot_failed))]
pub(crate) fn write<S: Slot + Drop>(
    alloc: Global,
    shape: Shape,
    by: By,
    bytes: &[u8],
    log: &mut Vec<NotedEntry>,
    standing: &mut FileSlots<S>,
    stock: &mut Stock<S>,
) -> Result<(), PlainFault>
    requires shape { stock.old.shape ≡ shape }
    requires within { length stock.old.board < 2 ^ 32 }
    requires some { 1 ≤ length bytes.now }
    requires fits { length bytes.now ≤ shape.unit }
    requires unwritten { IsUnwritten log.old.items }
    requires inside { KeepsFile S.place_of S.content shape log.old.items standing.old }
    requires one_each { OneEach S.place_of (file_view shape log.old.items standing.old) stock.old }
    requires room { HasRoom S.place_of 2 stock.old }
    ensures played { OnOk result (Played S.place_of S.content by (plain.Write bytes.now) shape log.old.items log.new.items
        standing.old standing.new stock.old stock.new) }
    ensures moves { Moves S.place_of S.content (plain.Write bytes.now) shape log.old.items log.new.items
        standing.old standing.new stock.old stock.new }
    ensures kept_log { OnErr result (log.new.items ≡ log.old.items) }
    ensures kept_standing { OnErr result (standing.new ≡ standing.old) }
    ensures fault { IsErrOf result PlainFault.Slot → HasFailed S.place_of S.faults stock.old }
{
    let epoch = stock.epoch();
    let _unit = shape.unit();
    let len = bytes.len() as u32;
    let payload = List::from_vec(Vec::from_slice(alloc, bytes)?);
    if !standing.is_present() {
        note(
            log,
            by,
            epoch,
            payload,
            FileEvent::Refused(Refused::WriteAbsent { offset: 0, len }),
        )?;
        return Ok(());
    }
    if let Err(fault) = stock.mirror_room() {
        let why = Refused::WriteTooFew {
            offset: 0,
            len,
            fault,
        };
        note(log, by, epoch, payload, FileEvent::Refused(why))?;
        return Ok(());
    }
    if let Some(lost) = lost_inode(standing, stock) {
        let why = Refused::WriteLost {
            offset: 0,
            len,
            lost,
        };
        note(log, by, epoch, payload, FileEvent::Refused(why))?;
        return Ok(());
    }
    place(alloc, shape, by, payload, log, standing, stock)
}

/// Places the bytes and a new inode, and takes the old inode's slots back.
#[tactic(auto, using(crate::proofs::FaultCauses::no_slot_failed))]
fn place<S: Slot + Drop>(
    alloc: Global,
    shape: Shape,
    by: By,
    payload: List<u8>,
    log: &mut Vec<NotedEntry>,
    standing: &mut FileSlots<S>,
    stock: &mut Stock<S>,
) -> Result<(), PlainFault>
    requires shape { stock.old.shape ≡ shape }
    requires within { length stock.old.board < 2 ^ 32 }
    requires some { 1 ≤ length payload }
    requires fits { length payload ≤ shape.unit }
    requires bytes { All IsByte payload }
    requires unwritten { IsUnwritten log.old.items }
    requires inside { KeepsFile S.place_of S.content shape log.old.items standing.old }
    requires one_each { OneEach S.place_of (file_view shape log.old.items standing.old) stock.old }
    requires room { HasRoom S.place_of 2 stock.old }
    requires present { is_present standing.old ≡ true }
    requires usable { 2 ≤ room_of two_copies shape (up_after shape stock.old.board (length stock.old.board)) }
    requires live { short_in (group_list (layout_of S.place_of standing.old).inode)
        (last_moment shape stock.old.board) (layout_of S.place_of standing.old) ≡ None }
    ensures played { OnOk result (Played S.place_of S.content by (plain.Write payload) shape log.old.items log.new.items
        standing.old standing.new stock.old stock.new) }
    ensures moves { Moves S.place_of S.content (plain.Write payload) shape log.old.items log.new.items
        standing.old standing.new stock.old stock.new }
    ensures kept_log { OnErr result (log.new.items ≡ log.old.items) }
    ensures kept_standing { OnErr result (standing.new ≡ standing.old) }
    ensures fault { IsErrOf result PlainFault.Slot → HasFailed S.place_of S.faults stock.old }
{
    let epoch = stock.epoch();
    let size = payload.len() as u32;
    let mut groups = Vec::with_capacity(alloc, 1)?;
    let unit_places = Vec::with_capacity(alloc, 2)?;
    let inode_places = Vec::with_capacity(alloc, 2)?;
    log.reserve(1)?;
    stock.prepare()?;
    let (units, inode) = draw_both(alloc, shape, payload.as_slice(), stock)?;
    groups.push_reserved(mirror_group(shape, 1, unit_places, &units));
    let change = Change {
        old: List::new(alloc),
        new: List::from_vec(groups),
        inode: mirror_group(shape, 2, inode_places, &inode),
    };
    log.push_reserved(written(by, epoch, size, change, payload));
    let before = mem::replace(standing, FileSlots::Written { size, units, inode });
    release_inode(before, stock);
    Ok(())
}

/// Takes back the slots of the inode of a file that holds nothing else.
fn release_inode<S: Slot + Drop>(before: FileSlots<S>, stock: &mut Stock<S>)
    requires { MayRelease S.place_of stock.old before }
    ensures { ReleasesInode S.place_of before stock.old stock.new }
{
    let FileSlots::Empty { inode } = before else {
        unreachable!()
    };
    stock.release(inode);
}

/// The entry of a write from the front of an empty file.
fn written(by: By, epoch: u32, len: u32, change: Change, payload: List<u8>) -> NotedEntry
    ensures { result ≡ record {
      entry = record { by = by; epoch = epoch; event = FileEvent.Written 0 len len change };
      payload = payload;
    } }
{
    NotedEntry {
        entry: FileEntry {
            by,
            epoch,
            event: FileEvent::Written {
                offset: 0,
                len,
                size: u64::from(len),
                change,
            },
        },
        payload,
    }
}

/// Draws the slots of the group, with the bytes in both, and those of the inode. At an `Err` all went back.
#[tactic(auto, using(crate::proofs::FaultCauses::no_slot_failed))]
fn draw_both<S: Slot + Drop>(
    alloc: Global,
    shape: Shape,
    bytes: &[u8],
    stock: &mut Stock<S>,
) -> Result<(Pair<S>, Pair<S>), PlainFault>
    requires shape { stock.old.shape ≡ shape }
    requires some { 1 ≤ length bytes.now }
    requires fits { length bytes.now ≤ shape.unit }
    requires room { HasRoom S.place_of 2 stock.old }
    requires usable { 2 ≤ room_of two_copies shape (up_after shape stock.old.board (length stock.old.board)) }
    ensures ok { IfOk result (λ drawn. Draws2 S.place_of S.content stock.old stock.new bytes.now drawn.0 drawn.1) }
    ensures kept { OnErr result (SameFree S.place_of stock.old stock.new) }
    ensures fault { IsErrOf result PlainFault.Slot → HasFailed S.place_of S.faults stock.old }
    ensures same { SameBeside stock.old stock.new }
{
    let text = padded(alloc, shape.unit(), bytes)?;
    let units = stock.draw_mirror(1, &text)?;
    match draw_inode(alloc, shape, bytes.len() as u32, &units, stock) {
        Ok(inode) => Ok((units, inode)),
        Err(fault) => {
            stock.give_back(units);
            Err(fault)
        }
    }
}

/// Draws the slots of the inode of a file with one group, whose units these slots are.
#[tactic(auto, using(crate::proofs::FaultCauses::no_slot_failed))]
fn draw_inode<S: Slot + Drop>(
    alloc: Global,
    shape: Shape,
    size: u32,
    units: &Pair<S>,
    stock: &mut Stock<S>,
) -> Result<Pair<S>, PlainFault>
    requires shape { stock.old.shape ≡ shape }
    requires some { 1 ≤ size }
    requires within { size ≤ shape.unit }
    requires mirror { IsMirror S.place_of shape units.now }
    requires room { HasRoom S.place_of 1 stock.old }
    requires usable { 2 ≤ room_of two_copies shape (up_after shape stock.old.board (length stock.old.board)) }
    ensures ok { IfOk result (Draws S.place_of S.content stock.old stock.new
        (inode_bytes (record { level = two_copies; unit = shape.unit; size = size; groups = mirror_of S.place_of 1 units.now ∷ [] }))) }
    ensures kept { OnErr result (SameFree S.place_of stock.old stock.new × (stock.old.room ≤ stock.new.room)) }
    ensures fault { IsErrOf result PlainFault.Slot → HasFailed S.place_of S.faults stock.old }
    ensures same { SameBeside stock.old stock.new }
{
    let text = written_inode(alloc, shape, size, units)?;
    let inode = stock.draw_mirror(2, &text)?;
    Ok(inode)
}

/// The bytes of a stripe unit: these, and zeros behind them.
pub(crate) fn padded(alloc: Global, unit: u32, bytes: &[u8]) -> Result<Vec<u8>, AllocError>
    requires { length bytes.now ≤ unit }
    ensures { IfOk result (λ padded. padded.items ≡ bytes.now ++ replicate (unit - length bytes.now) 0) }
{
    let mut data = Vec::with_capacity(alloc, unit as usize)?;
    data.extend_from_slice(bytes)?;
    data.resize(unit as usize, 0)?;
    Ok(data)
}

/// The bytes of the inode of a file of `size` bytes in one group, whose units these slots are.
#[tactic(auto, using(crate::proofs::InodeLengths::mirror_length))]
pub(crate) fn written_inode<S: Slot + Drop>(
    alloc: Global,
    shape: Shape,
    size: u32,
    units: &Pair<S>,
) -> Result<Vec<u8>, AllocError>
    requires some { 1 ≤ size }
    requires within { size ≤ shape.unit }
    requires mirror { IsMirror S.place_of shape units.now }
    ensures ok { IfOk result (λ bytes. bytes.items ≡ inode_bytes (record {
      level = two_copies;
      unit = shape.unit;
      size = size;
      groups = mirror_of S.place_of 1 units.now ∷ [];
    })) }
    ensures short { IfOk result (λ bytes. length bytes.items ≤ 262144) }
{
    let places = Vec::with_capacity(alloc, 2)?;
    let group = mirror_group(shape, 1, places, units);
    let mut groups = List::new(alloc);
    groups.push(group)?;
    let inode = Inode {
        level: Level::two_copies(),
        unit: shape.unit(),
        size: u64::from(size),
        groups,
    };
    let bytes = inode_codec::write(alloc, &inode)?;
    Ok(bytes)
}
