//! The path that removes a file.

ghost use Rattle.std.specs.Prelude.{◌≡◌, ◌+◌, ◌≤◌, length};
ghost use Rattle.turn_cell.specs.Seats.{IsIdleOf, cell_view, seat_view};
ghost use Rattle.fabric.specs.Views.{IsHandOf, fabric_view, number_of};
ghost use Rattle.file_core.specs.FileView.{IsFile};
ghost use Rattle.file_turns.specs.FileTurns.{FileTurn, terms_of};
ghost use Rattle.file_turns.specs.PathRoom.{entries_of_path};
ghost use Rattle.file_turns.specs.PathAccounts.{KeepsAccount};
ghost use Rattle.file_turns.specs.Paths.{KeepsDesk};
ghost use Rattle.write_path.specs.Removals.{RemoveTells, UnlessNoMemory};

use crate::release::release_deleted;
use board::Grow;
use fabric::Desk;
use file_core::{Absent, FileState};
use file_history::Refused;
use file_turns::{look_at_board, reserve_for_path};
use flex_io::{Gate, Slot};
use std::sync::Wait;
use thiserror::Error;
use turn_cell::{Seat, TurnCell};

/// Why a file was not removed.
#[derive(Clone, Copy, Debug, PartialEq, Eq, Error)]
pub enum RemoveRefusal {
    #[error("the file is absent")]
    Absent,
    #[error("the log is full")]
    LogFull,
    #[error("out of memory")]
    NoMemory,
}

/// Deletes the file and releases its slots by what the board shows, in one turn of the seat. A slot that is refused is lost, and
/// the answer is `NoMemory`.
pub fn remove<S: Slot + Send + Drop, G: Gate, R: Wait>(
    rt: &R,
    cell: &TurnCell<FileState<S>>,
    seat: &mut Seat<FileState<S>>,
    desk: &mut Desk<'_, S, G>,
) -> Result<(), RemoveRefusal>
    requires seat { IsIdleOf (cell_view cell.now) (seat_view seat.old) }
    requires hand { IsHandOf (fabric_view desk.old.fabric.now) desk.old.hand.now }
    requires shape { (seat_view seat.old).last.shape ≡ (fabric_view desk.old.fabric.now).shape }
    ensures seat { IsIdleOf (cell_view cell.now) (seat_view seat.new) }
    ensures seat_number { (seat_view seat.new).number ≡ (seat_view seat.old).number }
    ensures terms { terms_of (seat_view seat.new).last ≡ terms_of (seat_view seat.old).last }
    ensures hand { IsHandOf (fabric_view desk.old.fabric.now) desk.new.hand.now }
    ensures number { number_of desk.new.hand.now ≡ number_of desk.old.hand.now }
    ensures same { KeepsDesk desk.old desk.new }
    ensures turn { FileTurn (λ x y. RemoveTells S.place_of result (fabric_view desk.old.fabric.now) desk.old.by x y desk.old.hand.now desk.new.hand.now)
        (seat_view seat.old) (seat_view seat.new) }
    ensures account { UnlessNoMemory result (KeepsAccount (fabric_view desk.old.fabric.now).shape (seat_view seat.old).number
        (seat_view seat.old).last (seat_view seat.new).last desk.old.hand.now desk.new.hand.now) }
    ensures file { IsFile S.place_of S.content S.len_of (seat_view seat.new).last }
{
    let mut turn = cell.enter(rt, seat);
    let removed = remove_in(rt, turn.state(), desk);
    turn.leave();
    removed
}

/// Deletes the file in the turn of a seat.
fn remove_in<S: Slot + Send + Drop, G: Gate, R: Wait>(
    rt: &R,
    file: &mut FileState<S>,
    desk: &mut Desk<'_, S, G>,
) -> Result<(), RemoveRefusal>
    requires hand { IsHandOf (fabric_view desk.old.fabric.now) desk.old.hand.now }
    requires shape { file.old.shape ≡ (fabric_view desk.old.fabric.now).shape }
    ensures hand { IsHandOf (fabric_view desk.old.fabric.now) desk.new.hand.now }
    ensures number { number_of desk.new.hand.now ≡ number_of desk.old.hand.now }
    ensures same { KeepsDesk desk.old desk.new }
    ensures tells { RemoveTells S.place_of result (fabric_view desk.old.fabric.now) desk.old.by file.old file.new desk.old.hand.now desk.new.hand.now }
    ensures account { UnlessNoMemory result (KeepsAccount (fabric_view desk.old.fabric.now).shape file.old.seat file.old file.new desk.old.hand.now desk.new.hand.now) }
    ensures file { IsFile S.place_of S.content S.len_of file.new }
{
    match reserve_for_path(file) {
        Ok(()) => delete_in(rt, file, desk),
        Err(Grow::LogFull) => Err(RemoveRefusal::LogFull),
        Err(Grow::NoMemory) => Err(RemoveRefusal::NoMemory),
    }
}

/// Deletes the file, whose log has room, and releases its slots.
fn delete_in<S: Slot + Send + Drop, G: Gate, R: Wait>(
    rt: &R,
    file: &mut FileState<S>,
    desk: &mut Desk<'_, S, G>,
) -> Result<(), RemoveRefusal>
    requires file { IsFile S.place_of S.content S.len_of file.old }
    requires spare { 1 ≤ file.old.spare }
    requires room { length file.old.notes + entries_of_path file.old ≤ file.old.room }
    requires hand { IsHandOf (fabric_view desk.old.fabric.now) desk.old.hand.now }
    requires shape { file.old.shape ≡ (fabric_view desk.old.fabric.now).shape }
    ensures hand { IsHandOf (fabric_view desk.old.fabric.now) desk.new.hand.now }
    ensures number { number_of desk.new.hand.now ≡ number_of desk.old.hand.now }
    ensures same { KeepsDesk desk.old desk.new }
    ensures tells { RemoveTells S.place_of result (fabric_view desk.old.fabric.now) desk.old.by file.old file.new desk.old.hand.now desk.new.hand.now }
    ensures file { IsFile S.place_of S.content S.len_of file.new }
{
    let view = look_at_board(rt, desk.fabric, desk.hand, file.last_epoch());
    match file.delete(desk.by, &view) {
        Ok(slots) => {
            if !release_deleted(rt, desk.fabric, desk.hand, &view, slots) {
                return Err(RemoveRefusal::NoMemory);
            }
            Ok(())
        }
        Err(Absent) => {
            file.note_refused(desk.by, &view, Refused::DeleteAbsent);
            Err(RemoveRefusal::Absent)
        }
    }
}
