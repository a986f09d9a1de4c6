//! What a state counts for its seats.

ghost use Rattle.std.specs.Prelude.{◌≡◌, ◌+◌, ◌%◌, ◌^◌, ◌<◌, slice_index_or, slice_set};

use turn_cell::SeatTallies;

/// How many slots a seat took.
#[derive(Clone, Copy, Debug, PartialEq, Eq)]
pub struct Taken {
    pub slots: u64,
}

/// A seat takes slots.
pub fn take(tallies: &mut SeatTallies<Taken>, seat: u8, slots: u64)
    requires { seat < 32 }
    ensures { (other : Taken) → tallies.new ≡ slice_set tallies.old seat (record { slots = ((slice_index_or tallies.old seat other).slots + slots) % 2 ^ 64 }) }
{
    let taken = tallies.of_mut(seat);
    taken.slots = taken.slots.wrapping_add(slots);
}
