//! The create of a plain file.

ghost use Rattle.std.specs.Prelude.{◌≡◌, ℕ, ◌^◌, ◌<◌, ◌≤◌, [], ◌∷◌, ◌++◌, length, IfOk, OnOk, OnErr};
ghost use Rattle.std.specs.Result.{IsErrOf};
ghost use Rattle.domains.specs.Shape.{IsShape};
ghost use Rattle.inode_codec.specs.Inode.{inode_bytes};
ghost use Rattle.domains.specs.Level.{two_copies};
ghost use Rattle.plain_file.specs.Plain.{OneEach, HasRoom, HasFailed};
ghost use Rattle.plain_file.specs.FileParts.{file_view, KeepsFile, Played, Moves};
ghost use Rattle.plain_file.specs.declared.op.PlainOp.TheVariants as plain;

use crate::file_slots::{FileSlots, mirror_group};
use crate::note::note;
use crate::op::PlainFault;
use crate::stock::Stock;
use domains::{By, Level, Shape};
use file_history::{FileEntry, FileEvent, NotedEntry, Refused};
use flex_io::Slot;
use inode_codec::Inode;
use lists::List;
use std::alloc::{AllocError, Global};

/// Creates the file, or notes why it is refused.
#[tactic(auto, using(crate::proofs::FaultCauses::no_slot_failed))]
pub(crate) fn create<S: Slot + Drop>(
    alloc: Global,
    shape: Shape,
    by: By,
    log: &mut Vec<NotedEntry>,
    standing: &mut FileSlots<S>,
    stock: &mut Stock<S>,
) -> Result<(), PlainFault>
    requires shape { stock.old.shape ≡ shape }
    requires within { length stock.old.board < 2 ^ 32 }
    requires inside { KeepsFile S.place_of S.content shape log.old.items standing.old }
    requires one_each { OneEach S.place_of (file_view shape log.old.items standing.old) stock.old }
    requires room { HasRoom S.place_of 1 stock.old }
    ensures played { OnOk result (Played S.place_of S.content by plain.Create shape log.old.items log.new.items
        standing.old standing.new stock.old stock.new) }
    ensures moves { Moves S.place_of S.content plain.Create shape log.old.items log.new.items
        standing.old standing.new stock.old stock.new }
    ensures kept_log { OnErr result (log.new.items ≡ log.old.items) }
    ensures kept_standing { OnErr result (standing.new ≡ standing.old) }
    ensures fault { IsErrOf result PlainFault.Slot → HasFailed S.place_of S.faults stock.old }
{
    let epoch = stock.epoch();
    if standing.is_present() {
        note(
            log,
            by,
            epoch,
            List::new(alloc),
            FileEvent::Refused(Refused::CreateExists),
        )?;
        return Ok(());
    }
    if let Err(fault) = stock.mirror_room() {
        note(
            log,
            by,
            epoch,
            List::new(alloc),
            FileEvent::Refused(Refused::CreateTooFew(fault)),
        )?;
        return Ok(());
    }
    let text = empty_inode(alloc, shape)?;
    let places = Vec::with_capacity(alloc, 2)?;
    log.reserve(1)?;
    let inode = stock.draw_mirror(0, &text)?;
    let group = mirror_group(shape, 0, places, &inode);
    log.push_reserved(NotedEntry {
        entry: FileEntry {
            by,
            epoch,
            event: FileEvent::Created { inode: group },
        },
        payload: List::new(alloc),
    });
    *standing = FileSlots::Empty { inode };
    Ok(())
}

/// The bytes of the inode of an empty file.
#[tactic(auto, using(crate::proofs::InodeLengths::empty_length))]
fn empty_inode(alloc: Global, shape: Shape) -> Result<Vec<u8>, AllocError>
    ensures ok { IfOk result (λ bytes. bytes.items ≡ inode_bytes (record { level = two_copies; unit = shape.unit; size = 0; groups = [] })) }
    ensures short { IfOk result (λ bytes. length bytes.items ≤ 262144) }
    ensures within { IsShape shape }
{
    let inode = Inode {
        level: Level::two_copies(),
        unit: shape.unit(),
        size: 0,
        groups: List::new(alloc),
    };
    let bytes = inode_codec::write(alloc, &inode)?;
    Ok(bytes)
}
