//! A slot that is drawn in a turn and read.

ghost use Rattle.std.specs.Prelude.{◌≡◌, true, Some, IsSome, IfSome};
ghost use Rattle.domains.specs.Shape.{is_of};
ghost use Rattle.fabric.specs.Views.{IsHandOf, fabric_view, number_of};

use domains::DriveId;
use fabric::{Fabric, Hand};
use flex_io::{Rack, Slot};
use held_slots::Held;
use std::sync::Wait;

/// Draws a slot of the drive and reads it. The rack tells what came back, so each slot of its type tells its content: `buf` is
/// what the slot holds, whoever wrote it. Returns `None` if no slot is free, if its content is not as long as `buf`, or if the
/// read fails. Then the slot is spent.
pub fn draw_and_read<S: Slot + Send + Drop, K: Rack<Piece = S>, R: Wait>(
    rt: &R,
    rack: &K,
    fabric: &Fabric<S>,
    hand: &mut Hand<S>,
    drive: DriveId,
    buf: &mut [u8],
) -> Option<Held<S>>
    requires hand { IsHandOf (fabric_view fabric.now) hand.old }
    requires of { is_of (fabric_view fabric.now).shape drive ≡ true }
    requires tells { IsSome (K.back rack.now) }
    ensures hand { IsHandOf (fabric_view fabric.now) hand.new }
    ensures number { number_of hand.new ≡ number_of hand.old }
    ensures content { IfSome result (λ held. S.content held ≡ Some buf.new) }
{
    match fabric.draw(rt, hand, drive) {
        Ok(held) => read(rack, held, buf),
        Err(_empty) => None,
    }
}

/// Reads a slot of a rack that tells what came back. A slot that is not read is spent.
fn read<S: Slot + Drop, K: Rack<Piece = S>>(
    _rack: &K,
    mut held: Held<S>,
    buf: &mut [u8],
) -> Option<Held<S>>
    requires tells { IsSome (K.back _rack.now) }
    ensures content { IfSome result (λ held. S.content held ≡ Some buf.new) }
{
    if held.slot().len() as usize != buf.len() {
        let _slot = held.spend();
        return None;
    }
    match held.slot().read(buf) {
        Ok(()) => Some(held),
        Err(_failed) => {
            let _slot = held.spend();
            None
        }
    }
}
