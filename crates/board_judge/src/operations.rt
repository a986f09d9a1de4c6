//! The operation of a scenario that an entry belongs to.

ghost use Rattle.std.specs.Prelude.{◌≡◌, ◌↔◌, IsTrue, option_copied};
ghost use Rattle.legal_runs.specs.Operations.{FitsOrder, IsOrderOf, op_at};
ghost use Rattle.operation_text.specs.declared.named_op.DriveOrder.TheVariants as drive_order;
ghost use Rattle.whole_scenario.specs.declared.op.Op.TheVariants as op;

use board_history::{BoardEntry, Order};
use domains::{By, DriveId};
use operation_text::DriveOrder;
use whole_scenario::{Op, Scenario};

/// The operation of this number of the client of this number, both from 1, if there is one.
pub fn operation_at(scenario: &Scenario, by: By) -> Option<&Op>
    ensures { option_copied result ≡ op_at scenario.now by }
{
    if by.actor == 0 {
        return None;
    }
    if by.call == 0 {
        return None;
    }
    let script = scenario.actors.as_slice().get(usize::from(by.actor - 1))?;
    script.as_slice().get((by.call - 1) as usize)
}

/// Whether the entry is the order of its client's operation.
pub(crate) fn fits_order(scenario: &Scenario, entry: &BoardEntry) -> bool
    ensures { IsTrue result ↔ FitsOrder scenario.now entry.now }
{
    match operation_at(scenario, entry.by) {
        Some(operation) => gives_order(operation, entry.order),
        None => false,
    }
}

/// Whether the operation gives the board this order.
fn gives_order(operation: &Op, order: Order) -> bool
    ensures { IsTrue result ↔ IsOrderOf operation.now order }
{
    match order {
        Order::Fail(drive) => is_on_drive(operation, DriveOrder::Fail, drive),
        Order::FailNode(node) => is_on_node(operation, node.number()),
        Order::Down(drive) => is_on_drive(operation, DriveOrder::Down, drive),
        Order::Up(drive) => is_on_drive(operation, DriveOrder::Up, drive),
    }
}

/// Whether the operation is this order about this drive.
fn is_on_drive(operation: &Op, order: DriveOrder, drive: DriveId) -> bool
    ensures { IsTrue result ↔ (operation.now ≡ op.OnDrive order drive) }
{
    match operation {
        Op::OnDrive {
            order: given,
            drive: named,
        } => *given == order && *named == drive,
        _ => false,
    }
}

/// Whether the operation fails this node.
fn is_on_node(operation: &Op, node: u8) -> bool
    ensures { IsTrue result ↔ (operation.now ≡ op.FailNode node) }
{
    match operation {
        Op::FailNode { node: named } => *named == node,
        _ => false,
    }
}
