//! An inode that is placed anew, and one whose placement comes too late.

ghost use Rattle.std.specs.Prelude.{◌≡◌, ◌≤◌, ◌∷◌, [], IfOk, Some, length, map};
ghost use Rattle.std.specs.List.{AllByRecursion};
ghost use Rattle.flex_io.specs.SurePieces.{Piece};
ghost use Rattle.inode_codec.specs.Inode.{inode_bytes};
ghost use Rattle.held_slots.specs.Slots.{places_from};
ghost use Rattle.domains.specs.Level.{two_copies};
ghost use Rattle.striped_groups.specs.StoredGroups.{Took};
ghost use Rattle.file_core.specs.Creation.{empty_inode};
ghost use Rattle.file_core.specs.Examples.{IsNew, first, second, small};
ghost use Rattle.file_core.specs.FileView.{layout_of};
ghost use Rattle.file_core.specs.Notes.{last_epoch_of};
ghost use Rattle.file_core_tests.specs.Placements.{created, elsewhere, third, fourth};

use crate::tests::{all_up, cluster, end, lengths, two_slots};
use domains::{By, Level};
use file_core::{FileState, Fresh, MapChange, Stripe, Switched, Why};
use flex_io::{Fault, Rack, Slot, SurePiece, SureRack};
use held_slots::{Held, spend_all};
use job_rules::JobId;
use lists::List;
use map_switches::FreshUnit;
use stale_changes::Stale;
use std::alloc::{AllocError, Global};
use std::test::Fail;

/// Another slot on each of the two drives, as the group of an inode.
fn two_others(alloc: Global) -> Result<Stripe<SurePiece>, Fault>
    ensures group { IfOk result (λ stripe. stripe.group ≡ elsewhere) }
    ensures stands { IfOk result (λ stripe. places_from (λ (s : Piece). s.place) stripe.slots ≡ elsewhere.places) }
{
    let mut rack = SureRack::new(alloc);
    let one = rack.take((1, 1), 1)?;
    let other = rack.take((2, 1), 2)?;
    let Ok(mut slots) = Vec::with_capacity(alloc, 2) else {
        return Err(Fault::NoMemory);
    };
    slots.push_reserved(Held::new(one));
    slots.push_reserved(Held::new(other));
    match Stripe::new(alloc, 1, 1, List::from_vec(slots)) {
        Ok(stripe) => Ok(stripe),
        Err((AllocError, slots)) => {
            let _count = spend_all(slots);
            Err(Fault::NoMemory)
        }
    }
}

/// Places the inode of the created file on other slots, as a job does that saw the file after `at` entries.
fn place_inode<S: Slot + Send + Drop>(
    alloc: Global,
    file: &mut FileState<S>,
    others: Stripe<S>,
    at: u32,
) -> Result<Switched<S>, Stale>
    requires spare { 1 ≤ file.old.spare }
    requires shape { file.old.shape ≡ small }
    requires level { file.old.level ≡ two_copies }
    requires created { layout_of file.old ≡ created }
    requires early { last_epoch_of file.old.notes ≡ 0 }
    requires group { others.group ≡ elsewhere }
    requires stands { places_from S.place_of others.slots ≡ elsewhere.places }
{
    let change = MapChange {
        why: Why::Place {
            job: JobId { number: 1 },
        },
        at,
        units: 0,
        level: Level::two_copies(),
        old: List::new(alloc),
        fresh: Fresh::Groups(List::new(alloc)),
        inode: others,
    };
    let by = By { actor: 2, call: 1 };
    match file.switch(alloc, by, &all_up(), change) {
        Ok(done) => Ok(done),
        Err((stale, change)) => {
            spend_change(change);
            Err(stale)
        }
    }
}

/// Drops the slots of a change.
fn spend_change<S: Slot + Send + Drop>(change: MapChange<S>) {
    let MapChange {
        why: _,
        at: _,
        units: _,
        level: _,
        old: _,
        fresh,
        inode,
    } = change;
    let _count = spend_all(inode.into_slots());
    match fresh {
        Fresh::Groups(stripes) => spend_stripes(stripes),
        Fresh::Units(units) => spend_units(units),
    }
}

/// Drops the slots of groups.
fn spend_stripes<S: Slot + Send + Drop>(stripes: List<Stripe<S>>) {
    let mut stripes = stripes.into_vec();
    while let Some(stripe) = stripes.pop() {
        let _count = spend_all(stripe.into_slots());
    }
    stripes.destroy_empty();
}

/// Drops the slots of new units.
fn spend_units<S: Slot + Send + Drop>(units: List<FreshUnit<S>>) {
    let mut units = units.into_vec();
    while let Some(unit) = units.pop() {
        match unit {
            FreshUnit::Kept {
                generation: _,
                position: _,
            } => {}
            FreshUnit::New { place: _, slot } => {
                let _slot = slot.spend();
            }
        }
    }
    units.destroy_empty();
}

/// Creates a file, and places its inode on other slots, as a job does that saw the file after `at` entries.
fn create_and_place<S: Slot + Send + Drop>(
    alloc: Global,
    file: &mut FileState<S>,
    slots: List<Held<S>>,
    others: Stripe<S>,
    at: u32,
) -> Result<Switched<S>, Stale>
    requires new { IsNew file.old }
    requires slots { map S.place_of slots ≡ first ∷ second ∷ [] }
    requires spelled { AllByRecursion (Took S.content S.len_of (inode_bytes (empty_inode file.old.level file.old.shape.unit))) slots }
    requires group { others.group ≡ elsewhere }
    requires stands { places_from S.place_of others.slots ≡ elsewhere.places }
{
    let room = file.reserve(2);
    match room {
        Ok(()) => create_then_place(alloc, file, slots, others, at),
        Err(_grow) => {
            let _count = spend_all(slots) + spend_all(others.into_slots());
            Err(Stale::NoMemory)
        }
    }
}

/// The same of a file that has room for two entries.
fn create_then_place<S: Slot + Send + Drop>(
    alloc: Global,
    file: &mut FileState<S>,
    slots: List<Held<S>>,
    others: Stripe<S>,
    at: u32,
) -> Result<Switched<S>, Stale>
    requires spare { 2 ≤ file.old.spare }
    requires new { IsNew file.old }
    requires slots { map S.place_of slots ≡ first ∷ second ∷ [] }
    requires spelled { AllByRecursion (Took S.content S.len_of (inode_bytes (empty_inode file.old.level file.old.shape.unit))) slots }
    requires group { others.group ≡ elsewhere }
    requires stands { places_from S.place_of others.slots ≡ elsewhere.places }
{
    let by = By { actor: 1, call: 1 };
    match file.create(alloc, by, &all_up(), slots) {
        Ok(()) => place_inode(alloc, file, others, at),
        Err((AllocError, slots)) => {
            let _count = spend_all(slots) + spend_all(others.into_slots());
            Err(Stale::NoMemory)
        }
    }
}

/// The same on slots of the rack.
fn place_on_others(
    alloc: Global,
    file: &mut FileState<SurePiece>,
    slots: List<Held<SurePiece>>,
    at: u32,
) -> Result<Switched<SurePiece>, Stale>
    requires new { IsNew file.old }
    requires slots { map (λ (s : Piece). s.place) slots ≡ first ∷ second ∷ [] }
    requires spelled { AllByRecursion (Took (λ (s : Piece). Some s.bytes) (λ (s : Piece). length s.bytes) (inode_bytes (empty_inode file.old.level file.old.shape.unit))) slots }
{
    match two_others(alloc) {
        Ok(others) => create_and_place(alloc, file, slots, others, at),
        Err(_fault) => {
            let _count = spend_all(slots);
            Err(Stale::NoMemory)
        }
    }
}

/// How many entries a file has after a placement, its next generation and its inode's; the number of the placement's entry, or why
/// there is none, and how many bytes each slot that came back holds.
#[derive(Drop)]
struct AfterPlacement {
    entries: u32,
    next: u32,
    inode: Option<u32>,
    answer: Result<u32, Stale>,
    back: Vec<u32>,
}

/// What a placement that saw the file after `at` entries leaves.
fn placed(alloc: Global, at: u32) -> Result<AfterPlacement, AllocError> {
    let mut file = FileState::new(alloc, 3, cluster(), Level::two_copies(), 2);
    let done = match two_slots(alloc, &file) {
        Ok(slots) => place_on_others(alloc, &mut file, slots, at),
        Err(_fault) => Err(Stale::NoMemory),
    };
    let look = file.look();
    let _ended = end(file);
    let (answer, back) = match done {
        Ok(Switched { at, groups, inode }) => {
            spend_stripes(groups);
            (Ok(at), lengths(alloc, inode))
        }
        Err(stale) => (Err(stale), Ok(Vec::new(alloc))),
    };
    Ok(AfterPlacement {
        entries: look.at,
        next: look.next_generation,
        inode: look.inode_generation,
        answer,
        back: back?,
    })
}

#[test]
fn an_inode_is_placed_anew_unless_the_file_came_later(rt: HostRuntime) -> Result<(), Fail> {
    let new = placed(rt.alloc(), 1)?;
    assert_eq!(rt; (new.entries, new.next, new.inode), (2, 2, Some(1)));
    assert_eq!(rt; new.answer, Ok(2));
    assert_eq!(rt; new.back.as_slice(), [18, 18].as_slice());
    let late = placed(rt.alloc(), 0)?;
    assert_eq!(rt; (late.entries, late.next, late.inode), (1, 1, Some(0)));
    assert_eq!(rt; late.answer, Err(Stale::Presence { entry: 1 }));
    assert_eq!(rt; late.back.len(), 0);
    Ok(())
}
