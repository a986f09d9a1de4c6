//! A fabric that threads share from its beginning to its end.

ghost use Rattle.std.specs.Prelude.{◌≤◌, IfOk};
ghost use Rattle.fabric_uses.specs.Whole.{AreWhole};

use crate::traders::{into_hands, into_traders, trade_apart};
use board::View;
use domains::Shape;
use fabric::{Fabric, OpenFault, Parts};
use flex_io::{Rack, Slot};
use held_slots::spend_all;
use lists::List;
use std::alloc::Global;
use std::sync::Wait;
use std::thread::Threads;

/// A hand for each of `threads` threads trades `rounds` times at every drive of a cluster. What they release by the view goes
/// to pools, to the yard and to the retired slots, and at the end each drive has all its slots there. At an `Err` slots are gone.
pub fn trade_on_threads<S: Slot + Send + Drop, K: Rack<Piece = S>, R: Threads + Wait + Sync>(
    rt: &R,
    alloc: Global,
    shape: Shape,
    rack: &mut K,
    threads: u8,
    view: View,
    rounds: u32,
) -> Result<Parts<S>, OpenFault>
    requires some { 1 ≤ threads }
    requires few { threads ≤ 32 }
    ensures { IfOk result (AreWhole S.place_of shape) }
{
    let Ok(traders) = Vec::with_capacity(alloc, usize::from(threads)) else {
        return Err(OpenFault::NoMemory);
    };
    let Ok(room) = Vec::with_capacity(alloc, usize::from(threads)) else {
        return Err(OpenFault::NoMemory);
    };
    let (fabric, hands) = Fabric::open(alloc, shape, rack, threads, 0)?;
    let traders = into_traders(hands, traders);
    let traders = trade_apart(rt, &fabric, &view, rounds, traders);
    let (hands, done) = into_hands(traders, room);
    let parts = fabric.close(List::from_vec(hands));
    match done {
        Ok(()) => Ok(parts),
        Err(_error) => {
            drop_all(parts);
            Err(OpenFault::NoMemory)
        }
    }
}

/// Drops all slots of a closed fabric.
fn drop_all<S: Slot + Send + Drop>(parts: Parts<S>) {
    let Parts {
        board: _,
        yard,
        retired,
        pools: _,
    } = parts;
    spend_all(yard);
    spend_all(retired);
}
