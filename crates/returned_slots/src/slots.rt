//! Lists of slots that are put back, from the first to the last. A slot whose put fails is gone; the others are put back all the
//! same, and the first fault is the answer.

ghost use Rattle.std.specs.Prelude.{[], ◌∷◌, reverse};
ghost use Rattle.returned_slots.specs.RackStates.{rack_state};
ghost use Rattle.returned_slots.specs.Returns.{Returns, free_slots};

use flex_io::{Fault, Rack, Slot};
use held_slots::Held;
use lists::List;
use slot_pool::Pool;

/// Puts slots back.
pub fn put_slots<S: Slot + Send + Drop, R: Rack<Piece = S>>(
    rack: &mut R,
    slots: List<S>,
) -> Result<(), Fault>
    ensures { Returns S.place_of S.content slots result (rack_state R.back R.takes R.puts R.faults rack.old) (rack_state R.back R.takes R.puts R.faults rack.new) }
{
    let mut outcome = Ok(());
    for slot in slots.into_vec() {
        let put = put_slot(rack, slot);
        outcome = outcome.and(put);
    }
    outcome
}

/// Puts slots back that are out of their pools.
pub fn put_held<S: Slot + Send + Drop, R: Rack<Piece = S>>(
    rack: &mut R,
    slots: List<Held<S>>,
) -> Result<(), Fault>
    ensures { Returns S.place_of S.content slots result (rack_state R.back R.takes R.puts R.faults rack.old) (rack_state R.back R.takes R.puts R.faults rack.new) }
{
    let mut slots = slots.into_vec();
    slots.reverse();
    put_from_the_end(rack, slots)
}

/// Puts the free slots of pools back: pool by pool, each pool's from the bottom of its stack.
pub fn put_pools<S: Slot + Send + Drop, R: Rack<Piece = S>>(
    rack: &mut R,
    pools: List<Pool<S>>,
) -> Result<(), Fault>
    ensures { Returns S.place_of S.content (free_slots pools) result (rack_state R.back R.takes R.puts R.faults rack.old) (rack_state R.back R.takes R.puts R.faults rack.new) }
{
    let mut outcome = Ok(());
    for pool in pools.into_vec() {
        let put = put_slots(rack, pool.close());
        outcome = outcome.and(put);
    }
    outcome
}

/// Puts the slots back, the last one first.
fn put_from_the_end<S: Slot + Send + Drop, R: Rack<Piece = S>>(
    rack: &mut R,
    mut slots: Vec<Held<S>>,
) -> Result<(), Fault>
    ensures { Returns S.place_of S.content (reverse slots.items) result (rack_state R.back R.takes R.puts R.faults rack.old) (rack_state R.back R.takes R.puts R.faults rack.new) }
{
    let mut outcome = Ok(());
    while let Some(held) = slots.pop() {
        let put = put_slot(rack, held.spend());
        outcome = outcome.and(put);
    }
    slots.destroy_empty();
    outcome
}

/// Puts one slot back.
fn put_slot<S: Slot + Send + Drop, R: Rack<Piece = S>>(rack: &mut R, slot: S) -> Result<(), Fault>
    ensures { Returns S.place_of S.content (slot ∷ []) result (rack_state R.back R.takes R.puts R.faults rack.old) (rack_state R.back R.takes R.puts R.faults rack.new) }
{
    rack.put(slot)
}
