//! A file that is created, noted and deleted, as its log and its slots show it.

ghost use Rattle.std.specs.Prelude.{◌≡◌, ◌≤◌, ◌∷◌, [], IfOk, Some, length, map};
ghost use Rattle.std.specs.List.{AllByRecursion};
ghost use Rattle.flex_io.specs.SurePieces.{Piece};
ghost use Rattle.inode_codec.specs.Inode.{inode_bytes};
ghost use Rattle.striped_groups.specs.StoredGroups.{Took};
ghost use Rattle.file_core.specs.Creation.{empty_inode};
ghost use Rattle.file_core.specs.Examples.{IsNew, first, second, small, SeesAll};

use board::{Grow, View};
use domains::{By, DriveSet, Level, Shape};
use file_core::{DeletedSlots, FileParts, FileState, Stripe};
use flex_io::{Fault, Rack, Slot, SurePiece, SureRack};
use held_slots::{Held, spend_all};
use lists::List;
use std::alloc::{AllocError, Global};
use std::test::Fail;

/// Two nodes with a drive each, of four slots of 8 bytes.
pub(crate) fn cluster() -> Shape
    ensures { result ≡ small }
{
    Shape::new(2, 1, 4, 8)
}

/// The view of a board without entries.
pub(crate) fn all_up() -> View
    ensures { SeesAll result }
{
    View {
        epoch: 0,
        up: DriveSet::all(cluster()),
        gone: DriveSet::new(),
    }
}

/// A slot on each of the two drives, on which the inode of the new file is written.
pub(crate) fn two_slots(
    alloc: Global,
    file: &FileState<SurePiece>,
) -> Result<List<Held<SurePiece>>, Fault>
    ensures places { IfOk result (λ slots. map (λ (s : Piece). s.place) slots ≡ first ∷ second ∷ []) }
    ensures hold { IfOk result (λ slots. AllByRecursion (Took (λ (s : Piece). Some s.bytes) (λ (s : Piece). length s.bytes) (inode_bytes (empty_inode file.now.level file.now.shape.unit))) slots) }
{
    let bytes = file.new_inode(alloc).map_err(|_| Fault::NoMemory)?;
    let mut rack = SureRack::new(alloc);
    let mut one = rack.take((1, 1), 0)?;
    let mut other = rack.take((2, 1), 3)?;
    one.write(&bytes)?;
    other.write(&bytes)?;
    let mut slots = Vec::with_capacity(alloc, 2).map_err(|_| Fault::NoMemory)?;
    slots.push_reserved(Held::new(one));
    slots.push_reserved(Held::new(other));
    Ok(List::from_vec(slots))
}

/// Creates a file and deletes it. Where a slot or memory fails there is no answer.
fn create_and_delete<S: Slot + Send + Drop>(
    alloc: Global,
    file: &mut FileState<S>,
    slots: List<Held<S>>,
) -> Option<DeletedSlots<S>>
    requires new { IsNew file.old }
    requires slots { map S.place_of slots ≡ first ∷ second ∷ [] }
    requires spelled { AllByRecursion (Took S.content S.len_of (inode_bytes (empty_inode file.old.level file.old.shape.unit))) slots }
{
    if file.reserve(2).is_err() {
        let _count = spend_all(slots);
        return None;
    }
    let by = By { actor: 1, call: 1 };
    let view = all_up();
    match file.create(alloc, by, &view, slots) {
        Ok(()) => file.delete(by, &view).ok(),
        Err((AllocError, slots)) => {
            let _count = spend_all(slots);
            None
        }
    }
}

/// Drops the slots of a group, and answers how many bytes each held, from the last.
pub(crate) fn lengths(alloc: Global, stripe: Stripe<SurePiece>) -> Result<Vec<u32>, AllocError> {
    let mut slots = stripe.into_slots().into_vec();
    let mut lengths = Vec::new(alloc);
    let mut kept = Ok(());
    while let Some(held) = slots.pop() {
        let slot = held.spend();
        kept = kept.and(lengths.push(slot.len()).map_err(|_| AllocError));
    }
    slots.destroy_empty();
    kept?;
    Ok(lengths)
}

/// Drops the slots of groups, and answers how many groups there were.
fn spend_groups(groups: List<Stripe<SurePiece>>) -> usize {
    let count = groups.len();
    let mut groups = groups.into_vec();
    while let Some(stripe) = groups.pop() {
        let _count = spend_all(stripe.into_slots());
    }
    groups.destroy_empty();
    count
}

/// How many entries a file has at its end, how many groups, and whether it is there.
pub(crate) fn end(file: FileState<SurePiece>) -> (usize, usize, bool) {
    let FileParts { log, groups, inode } = file.close();
    let count = spend_groups(groups);
    match inode {
        Some(inode) => {
            let _count = spend_all(inode.into_slots());
            (log.len(), count, true)
        }
        None => (log.len(), count, false),
    }
}

#[test]
fn a_file_is_created_and_deleted(rt: HostRuntime) -> Result<(), Fail> {
    let mut file = FileState::new(rt.alloc(), 3, cluster(), Level::two_copies(), 2);
    let full = file.reserve(3);
    let back = match two_slots(rt.alloc(), &file) {
        Ok(slots) => create_and_delete(rt.alloc(), &mut file, slots),
        Err(_fault) => None,
    };
    let look = file.look();
    let ended = end(file);
    let (count, held) = match back {
        Some(DeletedSlots { groups, inode }) => (spend_groups(groups), lengths(rt.alloc(), inode)?),
        None => (9, Vec::new(rt.alloc())),
    };
    assert_eq!(rt; full, Err(Grow::LogFull));
    assert_eq!(rt; ended, (2, 0, false));
    assert_eq!(rt;
        (look.present, look.next_generation, look.at),
        (false, 1, 2)
    );
    assert_eq!(rt; (count, held.as_slice()), (0, [18, 18].as_slice()));
    Ok(())
}
