//! The path that creates a file.

ghost use Rattle.std.specs.Prelude.{◌≡◌, ◌+◌, ◌++◌, ◌≤◌, ◌&&◌, not, false, length, OnOk, OnErr, IfErr};
ghost use Rattle.std.specs.List.{AllByRecursion};
ghost use Rattle.domains.specs.Drive.{Drive, IsDrive};
ghost use Rattle.domains.specs.DriveSet.{has};
ghost use Rattle.domains.specs.Level.{IsLevel};
ghost use Rattle.turn_cell.specs.Seats.{IsIdleOf, cell_view, seat_view};
ghost use Rattle.fabric.specs.Views.{IsHandOf, fabric_view, number_of};
ghost use Rattle.inode_codec.specs.Inode.{inode_bytes};
ghost use Rattle.file_history.specs.Refusals.{IsLegalRefusal, room_at};
ghost use Rattle.file_history.specs.Step.{Creates};
ghost use Rattle.striped_groups.specs.StoredGroups.{Took};
ghost use Rattle.file_core.specs.Creation.{created_on, empty_inode, inode_group};
ghost use Rattle.file_core.specs.FileView.{IsFile, IsLater, layout_of, now_of};
ghost use Rattle.file_core.specs.Looks.{IsLook};
ghost use Rattle.slot_search.specs.HandSeats.{drives_at};
ghost use Rattle.file_turns.specs.FileTurns.{FileTurn, terms_of};
ghost use Rattle.file_turns.specs.PathRoom.{entries_of_path};
ghost use Rattle.file_turns.specs.PathAccounts.{KeepsAccount};
ghost use Rattle.file_turns.specs.Paths.{KeepsDesk};
ghost use Rattle.write_path.specs.Creations.{CreateTells, NotesNoRoom, PlaceTells, UnlessOutOfMemory, units_of_inode};

use crate::inode_units::inode_units;
use board::{Grow, View};
use domains::{By, DriveId, DriveSet, TooFew, width};
use fabric::Desk;
use file_core::{FileState, Look};
use file_history::Refused;
use file_turns::{look_at_board, reserve_for_path, usable_drives};
use flex_io::{Gate, Slot};
use held_slots::Held;
use lists::List;
use placement::{EmptyAt, NoRoom, PlaceRefusal, place};
use rs_codes::Units;
use slot_search::release_all;
use std::alloc::{AllocError, Global};
use std::sync::Wait;
use thiserror::Error;
use turn_cell::{Seat, TurnCell};

/// Why a file was not created. Of several causes the first is told, in this order, but `LogFull` before all others.
#[derive(Debug, Drop, Error)]
pub enum CreateRefusal {
    #[error("the file exists")]
    Exists,
    #[error("too few drives are usable")]
    TooFew(TooFew),
    #[error("too few drives have a free slot")]
    NoRoom(NoRoom),
    #[error("the log is full")]
    LogFull,
    #[error("out of memory")]
    NoMemory,
}

/// Creates the file at its declared level, with an inode on new slots, in one turn of the seat.
pub fn create<S: Slot + Send + Drop, G: Gate, R: Wait>(
    rt: &R,
    alloc: Global,
    cell: &TurnCell<FileState<S>>,
    seat: &mut Seat<FileState<S>>,
    desk: &mut Desk<'_, S, G>,
) -> Result<(), CreateRefusal>
    requires seat { IsIdleOf (cell_view cell.now) (seat_view seat.old) }
    requires hand { IsHandOf (fabric_view desk.old.fabric.now) desk.old.hand.now }
    requires shape { (seat_view seat.old).last.shape ≡ (fabric_view desk.old.fabric.now).shape }
    ensures seat { IsIdleOf (cell_view cell.now) (seat_view seat.new) }
    ensures seat_number { (seat_view seat.new).number ≡ (seat_view seat.old).number }
    ensures terms { terms_of (seat_view seat.new).last ≡ terms_of (seat_view seat.old).last }
    ensures hand { IsHandOf (fabric_view desk.old.fabric.now) desk.new.hand.now }
    ensures number { number_of desk.new.hand.now ≡ number_of desk.old.hand.now }
    ensures same { KeepsDesk desk.old desk.new }
    ensures turn { FileTurn (λ x y. CreateTells S.place_of S.content S.len_of S.faults result (fabric_view desk.old.fabric.now) desk.old.by x y
        desk.old.hand.now desk.new.hand.now) (seat_view seat.old) (seat_view seat.new) }
    ensures account { UnlessOutOfMemory result (KeepsAccount (fabric_view desk.old.fabric.now).shape (seat_view seat.old).number
        (seat_view seat.old).last (seat_view seat.new).last desk.old.hand.now desk.new.hand.now) }
    ensures file { IsFile S.place_of S.content S.len_of (seat_view seat.new).last }
{
    let mut turn = cell.enter(rt, seat);
    let created = create_in(rt, alloc, turn.state(), desk);
    turn.leave();
    created
}

/// Creates the file in the turn of a seat.
fn create_in<S: Slot + Send + Drop, G: Gate, R: Wait>(
    rt: &R,
    alloc: Global,
    file: &mut FileState<S>,
    desk: &mut Desk<'_, S, G>,
) -> Result<(), CreateRefusal>
    requires hand { IsHandOf (fabric_view desk.old.fabric.now) desk.old.hand.now }
    requires shape { file.old.shape ≡ (fabric_view desk.old.fabric.now).shape }
    ensures hand { IsHandOf (fabric_view desk.old.fabric.now) desk.new.hand.now }
    ensures number { number_of desk.new.hand.now ≡ number_of desk.old.hand.now }
    ensures same { KeepsDesk desk.old desk.new }
    ensures tells { CreateTells S.place_of S.content S.len_of S.faults result (fabric_view desk.old.fabric.now) desk.old.by file.old file.new
        desk.old.hand.now desk.new.hand.now }
    ensures account { UnlessOutOfMemory result (KeepsAccount (fabric_view desk.old.fabric.now).shape file.old.seat file.old file.new desk.old.hand.now desk.new.hand.now) }
    ensures file { IsFile S.place_of S.content S.len_of file.new }
{
    match reserve_for_path(file) {
        Ok(()) => create_with_room(rt, alloc, file, desk),
        Err(Grow::LogFull) => Err(CreateRefusal::LogFull),
        Err(Grow::NoMemory) => Err(CreateRefusal::NoMemory),
    }
}

/// Creates the file, whose log has room, if it is absent and its usable drives have room for an inode.
fn create_with_room<S: Slot + Send + Drop, G: Gate, R: Wait>(
    rt: &R,
    alloc: Global,
    file: &mut FileState<S>,
    desk: &mut Desk<'_, S, G>,
) -> Result<(), CreateRefusal>
    requires file { IsFile S.place_of S.content S.len_of file.old }
    requires spare { 1 ≤ file.old.spare }
    requires room { length file.old.notes + entries_of_path file.old ≤ file.old.room }
    requires hand { IsHandOf (fabric_view desk.old.fabric.now) desk.old.hand.now }
    requires shape { file.old.shape ≡ (fabric_view desk.old.fabric.now).shape }
    ensures hand { IsHandOf (fabric_view desk.old.fabric.now) desk.new.hand.now }
    ensures number { number_of desk.new.hand.now ≡ number_of desk.old.hand.now }
    ensures same { KeepsDesk desk.old desk.new }
    ensures tells { CreateTells S.place_of S.content S.len_of S.faults result (fabric_view desk.old.fabric.now) desk.old.by file.old file.new
        desk.old.hand.now desk.new.hand.now }
    ensures file { IsFile S.place_of S.content S.len_of file.new }
{
    let view = look_at_board(rt, desk.fabric, desk.hand, file.last_epoch());
    let found = file.look();
    if found.present {
        file.note_refused(desk.by, &view, Refused::CreateExists);
        return Err(CreateRefusal::Exists);
    }
    let usable = usable_drives(&view.up, &found.barred);
    match width(&found.level, desk.fabric.shape(), &usable) {
        Ok(_width) => place_inode(rt, alloc, file, desk, &view, &found, &usable),
        Err(fault) => {
            file.note_refused(desk.by, &view, Refused::CreateTooFew(fault));
            Err(CreateRefusal::TooFew(fault))
        }
    }
}

/// Places the inode of the absent file on usable drives, and creates the file on its slots.
fn place_inode<S: Slot + Send + Drop, G: Gate, R: Wait>(
    rt: &R,
    alloc: Global,
    file: &mut FileState<S>,
    desk: &mut Desk<'_, S, G>,
    view: &View,
    look: &Look,
    usable: &DriveSet,
) -> Result<(), CreateRefusal>
    requires spare { 1 ≤ file.old.spare }
    requires file { IsFile S.place_of S.content S.len_of file.old }
    requires later { IsLater view.now file.old }
    requires hand { IsHandOf (fabric_view desk.old.fabric.now) desk.old.hand.now }
    requires shape { file.old.shape ≡ (fabric_view desk.old.fabric.now).shape }
    requires look { IsLook (layout_of file.old) (length file.old.notes) look.now }
    requires absent { (layout_of file.old).present ≡ false }
    requires usable { (d : Drive) → IsDrive d → has usable.now d ≡ (has view.now.up d && not (has look.now.barred d)) }
    requires enough { (layout_of file.old).requested.m + 1 ≤ room_at (now_of file.old view.now) (layout_of file.old) }
    ensures hand { IsHandOf (fabric_view desk.old.fabric.now) desk.new.hand.now }
    ensures number { number_of desk.new.hand.now ≡ number_of desk.old.hand.now }
    ensures same { KeepsDesk desk.old desk.new }
    ensures tells { PlaceTells S.place_of S.content S.len_of S.faults result desk.old.by view.now file.old file.new desk.old.hand.now desk.new.hand.now }
    ensures file { IsFile S.place_of S.content S.len_of file.new }
{
    let correction = look.level.m();
    match inode_units(alloc, file, correction + 1) {
        Ok(units) => place_units(rt, alloc, file, desk, view, look, usable, &units),
        Err(AllocError) => Err(CreateRefusal::NoMemory),
    }
}

/// Places the units of the inode of the absent file, and creates the file on their slots.
fn place_units<S: Slot + Send + Drop, G: Gate, R: Wait>(
    rt: &R,
    alloc: Global,
    file: &mut FileState<S>,
    desk: &mut Desk<'_, S, G>,
    view: &View,
    look: &Look,
    usable: &DriveSet,
    units: &Units,
) -> Result<(), CreateRefusal>
    requires spare { 1 ≤ file.old.spare }
    requires file { IsFile S.place_of S.content S.len_of file.old }
    requires later { IsLater view.now file.old }
    requires hand { IsHandOf (fabric_view desk.old.fabric.now) desk.old.hand.now }
    requires shape { file.old.shape ≡ (fabric_view desk.old.fabric.now).shape }
    requires look { IsLook (layout_of file.old) (length file.old.notes) look.now }
    requires absent { (layout_of file.old).present ≡ false }
    requires usable { (d : Drive) → IsDrive d → has usable.now d ≡ (has view.now.up d && not (has look.now.barred d)) }
    requires enough { (layout_of file.old).requested.m + 1 ≤ room_at (now_of file.old view.now) (layout_of file.old) }
    requires units { units.now.units ≡ units_of_inode file.old }
    requires unit { units.now.unit_length ≤ 262144 }
    requires level { IsLevel look.now.level }
    requires next { look.now.next_generation ≤ 1077936128 }
    ensures hand { IsHandOf (fabric_view desk.old.fabric.now) desk.new.hand.now }
    ensures number { number_of desk.new.hand.now ≡ number_of desk.old.hand.now }
    ensures same { KeepsDesk desk.old desk.new }
    ensures tells { PlaceTells S.place_of S.content S.len_of S.faults result desk.old.by view.now file.old file.new desk.old.hand.now desk.new.hand.now }
    ensures file { IsFile S.place_of S.content S.len_of file.new }
{
    let number = u32::from(file.file());
    let spin = number + look.next_generation;
    let none = DriveSet::new();
    match place(
        rt,
        alloc,
        desk,
        &look.level,
        view,
        usable,
        &none,
        spin,
        units,
    ) {
        Ok(slots) => switch_in(rt, alloc, file, desk, view, slots),
        Err(PlaceRefusal::NoRoom(told)) => Err(note_no_room(alloc, file, desk.by, view, told)),
        Err(PlaceRefusal::NoMemory) => Err(CreateRefusal::NoMemory),
    }
}

/// Creates the file on slots that hold its inode. If memory runs out they go back, the last one first.
fn switch_in<S: Slot + Send + Drop, G: Gate, R: Wait>(
    rt: &R,
    alloc: Global,
    file: &mut FileState<S>,
    desk: &mut Desk<'_, S, G>,
    view: &View,
    slots: List<Held<S>>,
) -> Result<(), CreateRefusal>
    requires spare { 1 ≤ file.old.spare }
    requires file { IsFile S.place_of S.content S.len_of file.old }
    requires later { IsLater view.now file.old }
    requires hand { IsHandOf (fabric_view desk.old.fabric.now) desk.old.hand.now }
    requires shape { file.old.shape ≡ (fabric_view desk.old.fabric.now).shape }
    requires legal { Creates (now_of file.old view.now) (layout_of file.old) (inode_group S.place_of (layout_of file.old) slots) }
    requires spelled { AllByRecursion (Took S.content S.len_of (inode_bytes (empty_inode file.old.level file.old.shape.unit))) slots }
    ensures hand { IsHandOf (fabric_view desk.old.fabric.now) desk.new.hand.now }
    ensures number { number_of desk.new.hand.now ≡ number_of desk.old.hand.now }
    ensures same { KeepsDesk desk.old desk.new }
    ensures created { OnOk result (file.new ≡ created_on S.place_of desk.old.by view.now slots file.old) }
    ensures taken { OnOk result (desk.new.hand.now ≡ desk.old.hand.now) }
    ensures kept { OnErr result (file.new ≡ file.old) }
    ensures memory { IfErr result (λ e. e ≡ CreateRefusal.NoMemory) }
    ensures file { IsFile S.place_of S.content S.len_of file.new }
{
    match file.create(alloc, desk.by, view, slots) {
        Ok(()) => Ok(()),
        Err((AllocError, slots)) => {
            release_all(rt, desk.fabric, desk.hand, view, slots.into_vec());
            Err(CreateRefusal::NoMemory)
        }
    }
}

/// Notes that the inode found no room.
fn note_no_room<S: Slot + Send + Drop>(
    alloc: Global,
    file: &mut FileState<S>,
    by: By,
    view: &View,
    told: NoRoom,
) -> CreateRefusal
    requires spare { 1 ≤ file.old.spare }
    requires later { IsLater view.now file.old }
    requires file { IsFile S.place_of S.content S.len_of file.old }
    requires refusal { IsLegalRefusal (now_of file.old view.now) (layout_of file.old) (Refused.CreateNoRoom told.need told.got (drives_at told.empty)) }
    ensures file { IsFile S.place_of S.content S.len_of file.new }
    ensures tells { NotesNoRoom result by view.now told file.old file.new }
{
    let mut drives = Vec::new(alloc);
    if push_drives(told.empty.as_slice(), &mut drives).is_err() {
        return CreateRefusal::NoMemory;
    }
    let what = Refused::CreateNoRoom {
        need: told.need,
        got: told.got,
        drives: List::from_vec(drives),
    };
    file.note_refused(by, view, what);
    CreateRefusal::NoRoom(told)
}

/// Puts the drives that were found empty behind others.
fn push_drives(found: &[EmptyAt], drives: &mut Vec<DriveId>) -> Result<(), AllocError>
    ensures { OnOk result (drives.new.items ≡ drives.old.items ++ drives_at found.now) }
{
    let [first, rest @ ..] = found else {
        return Ok(());
    };
    drives.push(first.drive)?;
    push_drives(rest, drives)
}
