//! The path that requests another level.

ghost use Rattle.std.specs.Prelude.{◌≡◌, ◌+◌, ◌≤◌, length};
ghost use Rattle.turn_cell.specs.Seats.{IsIdleOf, cell_view, seat_view};
ghost use Rattle.fabric.specs.Views.{IsHandOf, fabric_view, number_of};
ghost use Rattle.file_core.specs.FileView.{IsFile};
ghost use Rattle.file_turns.specs.FileTurns.{FileTurn, terms_of};
ghost use Rattle.file_turns.specs.PathRoom.{entries_of_path};
ghost use Rattle.file_turns.specs.PathAccounts.{KeepsAccount};
ghost use Rattle.file_turns.specs.Paths.{KeepsDesk};
ghost use Rattle.level_path.specs.Levels.{LevelTells};

use board::Grow;
use domains::Level;
use fabric::Desk;
use file_core::{Absent, FileState};
use file_history::Refused;
use file_turns::{look_at_board, reserve_for_path};
use flex_io::{Gate, Slot};
use std::sync::Wait;
use thiserror::Error;
use turn_cell::{Seat, TurnCell};

/// Why no level was requested. `LogFull` comes before the others, and alone with `NoMemory` appends no entry.
#[derive(Clone, Copy, Debug, PartialEq, Eq, Error)]
pub enum LevelRefusal {
    #[error("the file is absent")]
    Absent,
    #[error("the log is full")]
    LogFull,
    #[error("out of memory")]
    NoMemory,
}

/// Requests another level of the file, in one turn of the seat. No slot moves.
pub fn set_level<S: Slot + Send + Drop, G: Gate, R: Wait>(
    rt: &R,
    cell: &TurnCell<FileState<S>>,
    seat: &mut Seat<FileState<S>>,
    desk: &mut Desk<'_, S, G>,
    level: Level,
) -> Result<(), LevelRefusal>
    requires seat { IsIdleOf (cell_view cell.now) (seat_view seat.old) }
    requires hand { IsHandOf (fabric_view desk.old.fabric.now) desk.old.hand.now }
    requires shape { (seat_view seat.old).last.shape ≡ (fabric_view desk.old.fabric.now).shape }
    ensures seat { IsIdleOf (cell_view cell.now) (seat_view seat.new) }
    ensures seat_number { (seat_view seat.new).number ≡ (seat_view seat.old).number }
    ensures terms { terms_of (seat_view seat.new).last ≡ terms_of (seat_view seat.old).last }
    ensures hand { IsHandOf (fabric_view desk.old.fabric.now) desk.new.hand.now }
    ensures number { number_of desk.new.hand.now ≡ number_of desk.old.hand.now }
    ensures same { KeepsDesk desk.old desk.new }
    ensures turn { FileTurn (λ x y. LevelTells result (fabric_view desk.old.fabric.now) desk.old.by level x y desk.old.hand.now desk.new.hand.now)
        (seat_view seat.old) (seat_view seat.new) }
    ensures account { KeepsAccount (fabric_view desk.old.fabric.now).shape (seat_view seat.old).number (seat_view seat.old).last (seat_view seat.new).last
        desk.old.hand.now desk.new.hand.now }
    ensures file { IsFile S.place_of S.content S.len_of (seat_view seat.new).last }
{
    let mut turn = cell.enter(rt, seat);
    let set = set_level_in(rt, turn.state(), desk, level);
    turn.leave();
    set
}

/// Requests another level in the turn of a seat.
fn set_level_in<S: Slot + Send + Drop, G: Gate, R: Wait>(
    rt: &R,
    file: &mut FileState<S>,
    desk: &mut Desk<'_, S, G>,
    level: Level,
) -> Result<(), LevelRefusal>
    requires hand { IsHandOf (fabric_view desk.old.fabric.now) desk.old.hand.now }
    requires shape { file.old.shape ≡ (fabric_view desk.old.fabric.now).shape }
    ensures hand { IsHandOf (fabric_view desk.old.fabric.now) desk.new.hand.now }
    ensures number { number_of desk.new.hand.now ≡ number_of desk.old.hand.now }
    ensures same { KeepsDesk desk.old desk.new }
    ensures tells { LevelTells result (fabric_view desk.old.fabric.now) desk.old.by level file.old file.new desk.old.hand.now desk.new.hand.now }
    ensures file { IsFile S.place_of S.content S.len_of file.new }
{
    match reserve_for_path(file) {
        Ok(()) => set_level_with_room(rt, file, desk, level),
        Err(Grow::LogFull) => Err(LevelRefusal::LogFull),
        Err(Grow::NoMemory) => Err(LevelRefusal::NoMemory),
    }
}

/// Requests another level of the file, whose log has room.
fn set_level_with_room<S: Slot + Send + Drop, G: Gate, R: Wait>(
    rt: &R,
    file: &mut FileState<S>,
    desk: &mut Desk<'_, S, G>,
    level: Level,
) -> Result<(), LevelRefusal>
    requires file { IsFile S.place_of S.content S.len_of file.old }
    requires spare { 1 ≤ file.old.spare }
    requires room { length file.old.notes + entries_of_path file.old ≤ file.old.room }
    requires hand { IsHandOf (fabric_view desk.old.fabric.now) desk.old.hand.now }
    ensures hand { IsHandOf (fabric_view desk.old.fabric.now) desk.new.hand.now }
    ensures number { number_of desk.new.hand.now ≡ number_of desk.old.hand.now }
    ensures same { KeepsDesk desk.old desk.new }
    ensures tells { LevelTells result (fabric_view desk.old.fabric.now) desk.old.by level file.old file.new desk.old.hand.now desk.new.hand.now }
    ensures file { IsFile S.place_of S.content S.len_of file.new }
{
    let view = look_at_board(rt, desk.fabric, desk.hand, file.last_epoch());
    match file.set_level(desk.by, &view, level) {
        Ok(()) => Ok(()),
        Err(Absent) => {
            file.note_refused(desk.by, &view, Refused::LevelAbsent { level });
            Err(LevelRefusal::Absent)
        }
    }
}
