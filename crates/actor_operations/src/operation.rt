//! One operation of a script.

ghost use Rattle.std.specs.Prelude.{◌≡◌, ◌<◌, length};
ghost use Rattle.std.specs.List.{AllByRecursion};
ghost use Rattle.board_history.specs.Board.{IsWithin};
ghost use Rattle.fabric.specs.Views.{IsHandOf, fabric_view, number_of};
ghost use Rattle.file_cells.specs.OpenFiles.{IsOpen, state_of};
ghost use Rattle.file_core.specs.FileView.{IsFile};
ghost use Rattle.file_turns.specs.FileTurns.{terms_of};
ghost use Rattle.file_turns.specs.Paths.{KeepsDesk};
ghost use Rattle.actor_operations.specs.Entries.{ActionTells};
ghost use Rattle.actor_operations.specs.Operations.{BoardTells, ChangesOne, IsBuiltAction, IsOpenIn, IsPlayable, OperationTells, order_to};

use crate::file_action::play_action;
use crate::stop::{Stop, after_order};
use board_history::Order;
use domains::{DriveId, NodeId};
use drive_orders::give_order;
use fabric::Desk;
use file_cells::OpenFile;
use flex_io::{Gate, Slot, Steady};
use operation_text::{DriveOrder, FileAction};
use std::alloc::Global;
use std::sync::Wait;
use whole_scenario::Op;

/// Does one operation by the hand, the only one of its fabric, on the files, each alone at its cell. It has its entry then, in the
/// log of its file or of the board, or the run stops.
pub fn play_operation<S: Slot + Steady + Send + Drop, G: Gate, R: Wait>(
    rt: &R,
    alloc: Global,
    op: &Op,
    files: &mut [OpenFile<S>],
    desk: &mut Desk<'_, S, G>,
) -> Result<(), Stop>
    requires playable { IsPlayable (fabric_view desk.old.fabric.now).shape (length files.old) op.now }
    requires files { AllByRecursion (IsOpenIn (fabric_view desk.old.fabric.now).shape) files.old }
    requires hand { IsHandOf (fabric_view desk.old.fabric.now) desk.old.hand.now }
    requires one { (fabric_view desk.old.fabric.now).board.seats ≡ 1 }
    ensures hand { IsHandOf (fabric_view desk.old.fabric.now) desk.new.hand.now }
    ensures number { number_of desk.new.hand.now ≡ number_of desk.old.hand.now }
    ensures same { KeepsDesk desk.old desk.new }
    ensures tells { OperationTells S.place_of S.content S.len_of result (fabric_view desk.old.fabric.now) op.now desk.old.by files.old files.new
        desk.old.hand.now desk.new.hand.now }
{
    match op {
        Op::OnFile { file, action } => play_on_file(rt, alloc, files, desk, *file, action),
        Op::OnDrive { order, drive } => play_order(rt, desk, order_to(*order, *drive)),
        Op::FailNode { node } => play_order(rt, desk, Order::FailNode(NodeId::new(*node))),
        Op::Start {
            kind: _,
            job: _,
            priority: _,
        } => unreachable!(),
        Op::OnJob { order: _, job: _ } => unreachable!(),
        Op::Work { steps: _ } => unreachable!(),
        Op::Drain => unreachable!(),
        Op::RestartEngine => unreachable!(),
    }
}

/// The order of this kind to the drive.
fn order_to(order: DriveOrder, drive: DriveId) -> Order
    ensures { result ≡ order_to order drive }
{
    match order {
        DriveOrder::Fail => Order::Fail(drive),
        DriveOrder::Down => Order::Down(drive),
        DriveOrder::Up => Order::Up(drive),
    }
}

/// Gives an order to the board.
fn play_order<S: Slot + Send + Drop, G: Gate, R: Wait>(
    rt: &R,
    desk: &mut Desk<'_, S, G>,
    order: Order,
) -> Result<(), Stop>
    requires within { IsWithin (fabric_view desk.old.fabric.now).shape order }
    requires hand { IsHandOf (fabric_view desk.old.fabric.now) desk.old.hand.now }
    requires one { (fabric_view desk.old.fabric.now).board.seats ≡ 1 }
    ensures hand { IsHandOf (fabric_view desk.old.fabric.now) desk.new.hand.now }
    ensures number { number_of desk.new.hand.now ≡ number_of desk.old.hand.now }
    ensures same { KeepsDesk desk.old desk.new }
    ensures tells { BoardTells result (fabric_view desk.old.fabric.now) order desk.old.by desk.old.hand.now desk.new.hand.now }
{
    let answer = give_order(rt, desk, order);
    after_order(answer)
}

/// Does an action on the file of this number, from 0.
fn play_on_file<S: Slot + Steady + Send + Drop, G: Gate, R: Wait>(
    rt: &R,
    alloc: Global,
    files: &mut [OpenFile<S>],
    desk: &mut Desk<'_, S, G>,
    file: u16,
    action: &FileAction,
) -> Result<(), Stop>
    requires there { file < length files.old }
    requires built { IsBuiltAction action.now }
    requires files { AllByRecursion (IsOpenIn (fabric_view desk.old.fabric.now).shape) files.old }
    requires hand { IsHandOf (fabric_view desk.old.fabric.now) desk.old.hand.now }
    requires one { (fabric_view desk.old.fabric.now).board.seats ≡ 1 }
    ensures hand { IsHandOf (fabric_view desk.old.fabric.now) desk.new.hand.now }
    ensures number { number_of desk.new.hand.now ≡ number_of desk.old.hand.now }
    ensures same { KeepsDesk desk.old desk.new }
    ensures tells { ChangesOne S.place_of S.content S.len_of file
        (λ x y. ActionTells result (fabric_view desk.old.fabric.now) action.now desk.old.by 0 x y desk.old.hand.now desk.new.hand.now) files.old files.new }
{
    play_at(rt, alloc, &mut files[usize::from(file)], desk, action)
}

/// Does an action on an open file.
fn play_at<S: Slot + Steady + Send + Drop, G: Gate, R: Wait>(
    rt: &R,
    alloc: Global,
    file: &mut OpenFile<S>,
    desk: &mut Desk<'_, S, G>,
    action: &FileAction,
) -> Result<(), Stop>
    requires built { IsBuiltAction action.now }
    requires open { IsOpenIn (fabric_view desk.old.fabric.now).shape file.old }
    requires hand { IsHandOf (fabric_view desk.old.fabric.now) desk.old.hand.now }
    requires one { (fabric_view desk.old.fabric.now).board.seats ≡ 1 }
    ensures open { IsOpen file.new }
    ensures terms { terms_of (state_of file.new) ≡ terms_of (state_of file.old) }
    ensures hand { IsHandOf (fabric_view desk.old.fabric.now) desk.new.hand.now }
    ensures number { number_of desk.new.hand.now ≡ number_of desk.old.hand.now }
    ensures same { KeepsDesk desk.old desk.new }
    ensures tells { ActionTells result (fabric_view desk.old.fabric.now) action.now desk.old.by 0 (state_of file.old) (state_of file.new)
        desk.old.hand.now desk.new.hand.now }
    ensures file { IsFile S.place_of S.content S.len_of (state_of file.new) }
{
    play_action(rt, alloc, &file.cell, &mut file.seat, desk, action)
}
