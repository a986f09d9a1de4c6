//! Slots that are drawn in one turn and released in another.

ghost use Rattle.std.specs.Prelude.{◌≡◌, ◌≤◌, true, OnOk};
ghost use Rattle.domains.specs.Shape.{is_of};
ghost use Rattle.fabric.specs.Accounts.{Stays};
ghost use Rattle.fabric.specs.Views.{IsHandOf, fabric_view, number_of};

use board::View;
use domains::DriveId;
use fabric::{Fabric, Hand};
use flex_io::Slot;
use std::alloc::AllocError;
use std::sync::Wait;

/// Draws a slot of the drive and releases it by the view, or finds none. At an `Err` the slot is gone.
pub(crate) fn trade<S: Slot + Send + Drop, R: Wait>(
    rt: &R,
    fabric: &Fabric<S>,
    hand: &mut Hand<S>,
    view: &View,
    drive: DriveId,
) -> Result<(), AllocError>
    requires hand { IsHandOf (fabric_view fabric.now) hand.old }
    requires of { is_of (fabric_view fabric.now).shape drive ≡ true }
    ensures hand { IsHandOf (fabric_view fabric.now) hand.new }
    ensures number { number_of hand.new ≡ number_of hand.old }
    ensures even { OnOk result (Stays (fabric_view fabric.now).shape hand.old hand.new) }
{
    let Ok(held) = fabric.draw(rt, hand, drive) else {
        return Ok(());
    };
    match fabric.release(rt, hand, view, held) {
        Ok(()) => Ok(()),
        Err((error, held)) => {
            let _slot = held.spend();
            Err(error)
        }
    }
}

/// Trades once at each drive of the cluster.
pub(crate) fn trade_each<S: Slot + Send + Drop, R: Wait>(
    rt: &R,
    fabric: &Fabric<S>,
    hand: &mut Hand<S>,
    view: &View,
) -> Result<(), AllocError>
    requires hand { IsHandOf (fabric_view fabric.now) hand.old }
    ensures hand { IsHandOf (fabric_view fabric.now) hand.new }
    ensures number { number_of hand.new ≡ number_of hand.old }
    ensures even { OnOk result (Stays (fabric_view fabric.now).shape hand.old hand.new) }
{
    for node in 0..fabric.shape().nodes() {
        trade_node(rt, fabric, hand, view, node + 1)?;
    }
    Ok(())
}

/// Trades once at each drive of a node.
fn trade_node<S: Slot + Send + Drop, R: Wait>(
    rt: &R,
    fabric: &Fabric<S>,
    hand: &mut Hand<S>,
    view: &View,
    node: u8,
) -> Result<(), AllocError>
    requires hand { IsHandOf (fabric_view fabric.now) hand.old }
    requires some { 1 ≤ node }
    requires within { node ≤ (fabric_view fabric.now).shape.nodes }
    ensures hand { IsHandOf (fabric_view fabric.now) hand.new }
    ensures number { number_of hand.new ≡ number_of hand.old }
    ensures even { OnOk result (Stays (fabric_view fabric.now).shape hand.old hand.new) }
{
    for drive in 0..fabric.shape().drives() {
        trade(rt, fabric, hand, view, DriveId::new(node, drive + 1))?;
    }
    Ok(())
}
