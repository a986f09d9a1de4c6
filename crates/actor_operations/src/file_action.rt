//! An action on one file, by the file's one seat.

ghost use Rattle.std.specs.Prelude.{◌≡◌};
ghost use Rattle.turn_cell.specs.Seats.{IsIdleOf, cell_view, seat_view};
ghost use Rattle.fabric.specs.Views.{IsHandOf, fabric_view, number_of};
ghost use Rattle.file_core.specs.FileView.{IsFile};
ghost use Rattle.file_turns.specs.FileTurns.{terms_of};
ghost use Rattle.file_turns.specs.Paths.{KeepsDesk};
ghost use Rattle.operation_text.specs.declared.named_op.FileAction.TheVariants.{Create, Delete, Read, SetLevel};
ghost use Rattle.actor_operations.specs.Entries.{ActionTells};
ghost use Rattle.actor_operations.specs.Operations.{IsBuiltAction};

use crate::stop::{Stop, after_create, after_level, after_read, after_removal};
use domains::Level;
use fabric::Desk;
use file_core::FileState;
use flex_io::{Gate, Slot, Steady};
use level_path::set_level;
use operation_text::FileAction;
use read_path::read;
use std::alloc::Global;
use std::sync::Wait;
use turn_cell::{Seat, TurnCell};
use write_path::{create, remove};

/// Does the action in the turns of the seat, the only one at the cell.
pub(crate) fn play_action<S: Slot + Steady + Send + Drop, G: Gate, R: Wait>(
    rt: &R,
    alloc: Global,
    cell: &TurnCell<FileState<S>>,
    seat: &mut Seat<FileState<S>>,
    desk: &mut Desk<'_, S, G>,
    action: &FileAction,
) -> Result<(), Stop>
    requires seat { IsIdleOf (cell_view cell.now) (seat_view seat.old) }
    requires alone { (cell_view cell.now).seats ≡ 1 }
    requires hand { IsHandOf (fabric_view desk.old.fabric.now) desk.old.hand.now }
    requires one { (fabric_view desk.old.fabric.now).board.seats ≡ 1 }
    requires shape { (seat_view seat.old).last.shape ≡ (fabric_view desk.old.fabric.now).shape }
    requires built { IsBuiltAction action.now }
    ensures seat { IsIdleOf (cell_view cell.now) (seat_view seat.new) }
    ensures seat_number { (seat_view seat.new).number ≡ (seat_view seat.old).number }
    ensures terms { terms_of (seat_view seat.new).last ≡ terms_of (seat_view seat.old).last }
    ensures hand { IsHandOf (fabric_view desk.old.fabric.now) desk.new.hand.now }
    ensures number { number_of desk.new.hand.now ≡ number_of desk.old.hand.now }
    ensures same { KeepsDesk desk.old desk.new }
    ensures tells { ActionTells result (fabric_view desk.old.fabric.now) action.now desk.old.by (seat_view seat.old).number
        (seat_view seat.old).last (seat_view seat.new).last desk.old.hand.now desk.new.hand.now }
    ensures file { IsFile S.place_of S.content S.len_of (seat_view seat.new).last }
{
    match action {
        FileAction::Create => play_create(rt, alloc, cell, seat, desk),
        FileAction::Delete => play_delete(rt, cell, seat, desk),
        FileAction::Write {
            offset: _,
            payload: _,
        } => unreachable!(),
        FileAction::Read { offset, len } => play_read(rt, alloc, cell, seat, desk, *offset, *len),
        FileAction::SetLevel { level } => play_level(rt, cell, seat, desk, *level),
    }
}

/// Creates the file.
fn play_create<S: Slot + Send + Drop, G: Gate, R: Wait>(
    rt: &R,
    alloc: Global,
    cell: &TurnCell<FileState<S>>,
    seat: &mut Seat<FileState<S>>,
    desk: &mut Desk<'_, S, G>,
) -> Result<(), Stop>
    requires seat { IsIdleOf (cell_view cell.now) (seat_view seat.old) }
    requires alone { (cell_view cell.now).seats ≡ 1 }
    requires hand { IsHandOf (fabric_view desk.old.fabric.now) desk.old.hand.now }
    requires one { (fabric_view desk.old.fabric.now).board.seats ≡ 1 }
    requires shape { (seat_view seat.old).last.shape ≡ (fabric_view desk.old.fabric.now).shape }
    ensures seat { IsIdleOf (cell_view cell.now) (seat_view seat.new) }
    ensures seat_number { (seat_view seat.new).number ≡ (seat_view seat.old).number }
    ensures terms { terms_of (seat_view seat.new).last ≡ terms_of (seat_view seat.old).last }
    ensures hand { IsHandOf (fabric_view desk.old.fabric.now) desk.new.hand.now }
    ensures number { number_of desk.new.hand.now ≡ number_of desk.old.hand.now }
    ensures same { KeepsDesk desk.old desk.new }
    ensures tells { ActionTells result (fabric_view desk.old.fabric.now) Create desk.old.by (seat_view seat.old).number
        (seat_view seat.old).last (seat_view seat.new).last desk.old.hand.now desk.new.hand.now }
    ensures file { IsFile S.place_of S.content S.len_of (seat_view seat.new).last }
{
    let answer = create(rt, alloc, cell, seat, desk);
    after_create(answer)
}

/// Deletes the file.
fn play_delete<S: Slot + Send + Drop, G: Gate, R: Wait>(
    rt: &R,
    cell: &TurnCell<FileState<S>>,
    seat: &mut Seat<FileState<S>>,
    desk: &mut Desk<'_, S, G>,
) -> Result<(), Stop>
    requires seat { IsIdleOf (cell_view cell.now) (seat_view seat.old) }
    requires alone { (cell_view cell.now).seats ≡ 1 }
    requires hand { IsHandOf (fabric_view desk.old.fabric.now) desk.old.hand.now }
    requires one { (fabric_view desk.old.fabric.now).board.seats ≡ 1 }
    requires shape { (seat_view seat.old).last.shape ≡ (fabric_view desk.old.fabric.now).shape }
    ensures seat { IsIdleOf (cell_view cell.now) (seat_view seat.new) }
    ensures seat_number { (seat_view seat.new).number ≡ (seat_view seat.old).number }
    ensures terms { terms_of (seat_view seat.new).last ≡ terms_of (seat_view seat.old).last }
    ensures hand { IsHandOf (fabric_view desk.old.fabric.now) desk.new.hand.now }
    ensures number { number_of desk.new.hand.now ≡ number_of desk.old.hand.now }
    ensures same { KeepsDesk desk.old desk.new }
    ensures tells { ActionTells result (fabric_view desk.old.fabric.now) Delete desk.old.by (seat_view seat.old).number
        (seat_view seat.old).last (seat_view seat.new).last desk.old.hand.now desk.new.hand.now }
    ensures file { IsFile S.place_of S.content S.len_of (seat_view seat.new).last }
{
    let answer = remove(rt, cell, seat, desk);
    after_removal(answer)
}

/// Reads a range of the file.
fn play_read<S: Slot + Steady + Send + Drop, G: Gate, R: Wait>(
    rt: &R,
    alloc: Global,
    cell: &TurnCell<FileState<S>>,
    seat: &mut Seat<FileState<S>>,
    desk: &mut Desk<'_, S, G>,
    offset: u64,
    len: u32,
) -> Result<(), Stop>
    requires seat { IsIdleOf (cell_view cell.now) (seat_view seat.old) }
    requires alone { (cell_view cell.now).seats ≡ 1 }
    requires hand { IsHandOf (fabric_view desk.old.fabric.now) desk.old.hand.now }
    requires one { (fabric_view desk.old.fabric.now).board.seats ≡ 1 }
    requires shape { (seat_view seat.old).last.shape ≡ (fabric_view desk.old.fabric.now).shape }
    ensures seat { IsIdleOf (cell_view cell.now) (seat_view seat.new) }
    ensures seat_number { (seat_view seat.new).number ≡ (seat_view seat.old).number }
    ensures terms { terms_of (seat_view seat.new).last ≡ terms_of (seat_view seat.old).last }
    ensures hand { IsHandOf (fabric_view desk.old.fabric.now) desk.new.hand.now }
    ensures number { number_of desk.new.hand.now ≡ number_of desk.old.hand.now }
    ensures same { KeepsDesk desk.old desk.new }
    ensures tells { ActionTells result (fabric_view desk.old.fabric.now) (Read offset len) desk.old.by (seat_view seat.old).number
        (seat_view seat.old).last (seat_view seat.new).last desk.old.hand.now desk.new.hand.now }
    ensures file { IsFile S.place_of S.content S.len_of (seat_view seat.new).last }
{
    let answer = read(rt, alloc, cell, seat, desk, offset, len);
    after_read(answer)
}

/// Requests a level for the file.
fn play_level<S: Slot + Send + Drop, G: Gate, R: Wait>(
    rt: &R,
    cell: &TurnCell<FileState<S>>,
    seat: &mut Seat<FileState<S>>,
    desk: &mut Desk<'_, S, G>,
    level: Level,
) -> Result<(), Stop>
    requires seat { IsIdleOf (cell_view cell.now) (seat_view seat.old) }
    requires alone { (cell_view cell.now).seats ≡ 1 }
    requires hand { IsHandOf (fabric_view desk.old.fabric.now) desk.old.hand.now }
    requires one { (fabric_view desk.old.fabric.now).board.seats ≡ 1 }
    requires shape { (seat_view seat.old).last.shape ≡ (fabric_view desk.old.fabric.now).shape }
    ensures seat { IsIdleOf (cell_view cell.now) (seat_view seat.new) }
    ensures seat_number { (seat_view seat.new).number ≡ (seat_view seat.old).number }
    ensures terms { terms_of (seat_view seat.new).last ≡ terms_of (seat_view seat.old).last }
    ensures hand { IsHandOf (fabric_view desk.old.fabric.now) desk.new.hand.now }
    ensures number { number_of desk.new.hand.now ≡ number_of desk.old.hand.now }
    ensures same { KeepsDesk desk.old desk.new }
    ensures tells { ActionTells result (fabric_view desk.old.fabric.now) (SetLevel level) desk.old.by (seat_view seat.old).number
        (seat_view seat.old).last (seat_view seat.new).last desk.old.hand.now desk.new.hand.now }
    ensures file { IsFile S.place_of S.content S.len_of (seat_view seat.new).last }
{
    let answer = set_level(rt, cell, seat, desk, level);
    after_level(answer)
}
