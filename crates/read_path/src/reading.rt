//! The path that reads a range of a file.

ghost use Rattle.std.specs.Prelude.{◌≡◌, ◌+◌, ◌≤◌, length};
ghost use Rattle.turn_cell.specs.Seats.{IsIdleOf, cell_view, seat_view};
ghost use Rattle.fabric.specs.Views.{IsHandOf, fabric_view, number_of};
ghost use Rattle.file_core.specs.FileView.{IsFile, IsLater};
ghost use Rattle.file_turns.specs.FileTurns.{FileTurn, terms_of};
ghost use Rattle.file_turns.specs.PathRoom.{entries_of_path};
ghost use Rattle.file_turns.specs.PathAccounts.{KeepsAccount};
ghost use Rattle.file_turns.specs.Paths.{KeepsDesk};
ghost use Rattle.read_path.specs.Reads.{ReadTells, TellsAt};

use crate::decoding::{Shown, bytes_shown};
use crate::pulled_range::pull_range;
use board::{Grow, View};
use domains::{By, Lost};
use fabric::Desk;
use file_core::{FileState, PullRefusal};
use file_history::Refused;
use file_turns::{look_at_board, reserve_for_path};
use flex_io::{Gate, Slot, Steady};
use lists::List;
use std::alloc::{AllocError, Global};
use std::sync::Wait;
use thiserror::Error;
use turn_cell::{Seat, TurnCell};

/// Why nothing is shown. `LogFull` comes before all others, and alone appends no entry, but for want of memory.
#[derive(Clone, Copy, Debug, PartialEq, Eq, Error)]
pub enum ReadRefusal {
    #[error("the file is absent")]
    Absent,
    #[error("a group has too few live units")]
    Lost(Lost),
    #[error("the log is full")]
    LogFull,
    #[error("out of memory")]
    NoMemory,
}

/// Reads `len` bytes from `offset` on, or as many as the file has, in one turn of the seat.
pub fn read<S: Slot + Steady + Send + Drop, G: Gate, R: Wait>(
    rt: &R,
    alloc: Global,
    cell: &TurnCell<FileState<S>>,
    seat: &mut Seat<FileState<S>>,
    desk: &mut Desk<'_, S, G>,
    offset: u64,
    len: u32,
) -> Result<List<u8>, ReadRefusal>
    requires seat { IsIdleOf (cell_view cell.now) (seat_view seat.old) }
    requires hand { IsHandOf (fabric_view desk.old.fabric.now) desk.old.hand.now }
    requires shape { (seat_view seat.old).last.shape ≡ (fabric_view desk.old.fabric.now).shape }
    ensures seat { IsIdleOf (cell_view cell.now) (seat_view seat.new) }
    ensures seat_number { (seat_view seat.new).number ≡ (seat_view seat.old).number }
    ensures terms { terms_of (seat_view seat.new).last ≡ terms_of (seat_view seat.old).last }
    ensures hand { IsHandOf (fabric_view desk.old.fabric.now) desk.new.hand.now }
    ensures number { number_of desk.new.hand.now ≡ number_of desk.old.hand.now }
    ensures same { KeepsDesk desk.old desk.new }
    ensures turn { FileTurn (λ x y. ReadTells S.place_of S.content S.len_of S.reads result (fabric_view desk.old.fabric.now) desk.old.by offset len x y
        desk.old.hand.now desk.new.hand.now) (seat_view seat.old) (seat_view seat.new) }
    ensures account { KeepsAccount (fabric_view desk.old.fabric.now).shape (seat_view seat.old).number (seat_view seat.old).last (seat_view seat.new).last
        desk.old.hand.now desk.new.hand.now }
    ensures file { IsFile S.place_of S.content S.len_of (seat_view seat.new).last }
{
    let mut turn = cell.enter(rt, seat);
    let shown = read_in(rt, alloc, turn.state(), desk, offset, len);
    turn.leave();
    shown
}

/// Reads a range in the turn of a seat.
#[tactic(auto, using(crate::proofs::ReadAnswers::runs_out))]
fn read_in<S: Slot + Steady + Send + Drop, G: Gate, R: Wait>(
    rt: &R,
    alloc: Global,
    file: &mut FileState<S>,
    desk: &mut Desk<'_, S, G>,
    offset: u64,
    len: u32,
) -> Result<List<u8>, ReadRefusal>
    requires hand { IsHandOf (fabric_view desk.old.fabric.now) desk.old.hand.now }
    requires shape { file.old.shape ≡ (fabric_view desk.old.fabric.now).shape }
    ensures hand { IsHandOf (fabric_view desk.old.fabric.now) desk.new.hand.now }
    ensures number { number_of desk.new.hand.now ≡ number_of desk.old.hand.now }
    ensures same { KeepsDesk desk.old desk.new }
    ensures tells { ReadTells S.place_of S.content S.len_of S.reads result (fabric_view desk.old.fabric.now) desk.old.by offset len file.old file.new
        desk.old.hand.now desk.new.hand.now }
    ensures file { IsFile S.place_of S.content S.len_of file.new }
{
    match reserve_for_path(file) {
        Ok(()) => read_with_room(rt, alloc, file, desk, offset, len),
        Err(Grow::LogFull) => Err(ReadRefusal::LogFull),
        Err(Grow::NoMemory) => Err(ReadRefusal::NoMemory),
    }
}

/// Reads a range of a file whose log has room.
fn read_with_room<S: Slot + Steady + Send + Drop, G: Gate, R: Wait>(
    rt: &R,
    alloc: Global,
    file: &mut FileState<S>,
    desk: &mut Desk<'_, S, G>,
    offset: u64,
    len: u32,
) -> Result<List<u8>, ReadRefusal>
    requires spare { 1 ≤ file.old.spare }
    requires file { IsFile S.place_of S.content S.len_of file.old }
    requires room { length file.old.notes + entries_of_path file.old ≤ file.old.room }
    requires hand { IsHandOf (fabric_view desk.old.fabric.now) desk.old.hand.now }
    requires shape { file.old.shape ≡ (fabric_view desk.old.fabric.now).shape }
    ensures hand { IsHandOf (fabric_view desk.old.fabric.now) desk.new.hand.now }
    ensures number { number_of desk.new.hand.now ≡ number_of desk.old.hand.now }
    ensures same { KeepsDesk desk.old desk.new }
    ensures tells { ReadTells S.place_of S.content S.len_of S.reads result (fabric_view desk.old.fabric.now) desk.old.by offset len file.old file.new
        desk.old.hand.now desk.new.hand.now }
    ensures file { IsFile S.place_of S.content S.len_of file.new }
{
    let view = look_at_board(rt, desk.fabric, desk.hand, file.last_epoch());
    let unit = desk.fabric.shape().unit();
    read_at(alloc, file, desk.by, &view, unit, offset, len)
}

/// Reads a range at a view of the board. Units have `unit` bytes.
fn read_at<S: Slot + Steady + Send + Drop>(
    alloc: Global,
    file: &mut FileState<S>,
    by: By,
    view: &View,
    unit: u32,
    offset: u64,
    len: u32,
) -> Result<List<u8>, ReadRefusal>
    requires spare { 1 ≤ file.old.spare }
    requires file { IsFile S.place_of S.content S.len_of file.old }
    requires later { IsLater view.now file.old }
    requires unit { unit ≡ file.old.shape.unit }
    requires wide { unit ≤ 131072 }
    ensures tells { TellsAt S.place_of S.content S.len_of S.reads result by view.now offset len file.old file.new }
    ensures file { IsFile S.place_of S.content S.len_of file.new }
{
    match pull_range(alloc, file, view, offset, len) {
        Ok(pulled) => match bytes_shown(alloc, unit, offset, len, &pulled) {
            Ok(Shown { answer, logged }) => {
                file.note_read(by, view, offset, len, logged);
                Ok(answer)
            }
            Err(AllocError) => Err(ReadRefusal::NoMemory),
        },
        Err(PullRefusal::Absent) => {
            file.note_refused(by, view, Refused::ReadAbsent { offset, len });
            Err(ReadRefusal::Absent)
        }
        Err(PullRefusal::Lost(lost)) => {
            file.note_refused(by, view, Refused::ReadLost { offset, len, lost });
            Err(ReadRefusal::Lost(lost))
        }
        Err(PullRefusal::Unknown { .. }) => unreachable!(),
        Err(PullRefusal::NoMemory) => Err(ReadRefusal::NoMemory),
    }
}
