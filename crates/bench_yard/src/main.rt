//! Puts slots of ten drives into a yard and takes them out again. With the argument `time` it moves 40,000 and prints how long a slot took.
#![tactic(auto)]

ghost use Rattle.std.specs.Prelude.{◌≡◌, ◌<◌, ◌≤◌};

use anyhow::{Result, ensure};
use domains::{DriveId, Shape};
use flex_io::{Rack, SurePiece, SureRack};
use held_slots::{Held, spend_all};
use slot_yard::{Yard, YardParts};
use std::alloc::{AllocError, Global};
use std::env;
use std::time::Instant;

const DRIVES: u8 = 10;

/// Puts a slot of a drive into the yard, and returns whether it is there.
fn put(yard: &mut Yard<SurePiece>, rack: &mut SureRack, drive: u8, slot: u16) -> bool
    requires shape { yard.old.shape ≡ record { nodes = 1; drives = 10; slots = 4000; unit = 8 } }
    requires drive { (1 ≤ drive) × (drive ≤ 10) }
    requires slot { slot < 4000 }
    ensures { yard.new.shape ≡ yard.old.shape }
{
    let Ok(piece) = rack.take((1, drive), slot) else {
        return false;
    };
    match yard.put(Held::new(piece)) {
        Ok(()) => true,
        Err((_error, held)) => {
            let _slot = held.spend();
            false
        }
    }
}

/// Puts the first slots of each drive into the yard, one of each drive after the other, and returns how many are there.
fn put_all(yard: &mut Yard<SurePiece>, rack: &mut SureRack, slots: u16) -> u32
    requires shape { yard.old.shape ≡ record { nodes = 1; drives = 10; slots = 4000; unit = 8 } }
    requires slots { slots ≤ 4000 }
{
    let mut count: u32 = 0;
    for slot in 0..slots {
        for before in 0..DRIVES {
            count = count.wrapping_add(u32::from(put(yard, rack, before + 1, slot)));
        }
    }
    count
}

/// Takes slots of each drive in turn, and returns how many there were.
fn take_all(yard: &mut Yard<SurePiece>, slots: u16) -> u32 {
    let mut count: u32 = 0;
    for _slot in 0..slots {
        for before in 0..DRIVES {
            if let Ok(held) = yard.take(DriveId::new(1, DRIVES - before)) {
                let _slot = held.spend();
                count = count.wrapping_add(1);
            }
        }
    }
    count
}

/// What became of the slots of a yard.
struct Moved {
    put: u32,
    taken: u32,
    left: usize,
}

/// Puts the first slots of each drive into a new yard and takes them out again.
fn move_slots(alloc: Global, slots: u16) -> Result<Moved, AllocError>
    requires { slots ≤ 4000 }
{
    let mut rack = SureRack::new(alloc);
    let mut yard = Yard::new(alloc, Shape::new(1, DRIVES, 4000, 8))?;
    let put = put_all(&mut yard, &mut rack, slots);
    let taken = take_all(&mut yard, slots);
    let YardParts {
        yard: waiting,
        retired,
    } = yard.close();
    let left = spend_all(waiting).wrapping_add(spend_all(retired));
    Ok(Moved { put, taken, left })
}

fn main(rt: HostRuntime) -> Result<()> {
    let timed = env::args(&rt)?.count() > 1;
    let slots: u16 = if timed { 4000 } else { 40 };
    let start = Instant::now(&rt)?;
    let Moved { put, taken, left } = move_slots(rt.alloc(), slots)?;
    let nanos = start.elapsed(&rt)?.as_nanos();
    let all = u32::from(slots) * u32::from(DRIVES);
    ensure!(
        put == all && taken == all && left == 0,
        "{put} put, {taken} taken, {left} left"
    );
    if timed {
        let each = nanos / u128::from(all);
        println!(rt; "{all} slots: {each} nanoseconds for each")?;
    }
    println!(rt; "moved")?;
    Ok(())
}
