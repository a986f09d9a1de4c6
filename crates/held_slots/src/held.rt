//! A slot that is out of its pool.

ghost use Rattle.std.specs.Prelude.{◌≡◌, length};
ghost use Rattle.held_slots.specs.Slots.{place_from};
ghost use Rattle.domains.specs.Place.{IsPlace};

use domains::{DriveId, Place};
use flex_io::Slot;
use lists::List;
use std::marker::Model;

/// A slot that is out of its pool. It has no `Drop`: it goes to a pool, a yard or a file again, or is spent.
/// Contracts see the slot.
pub struct Held<S> {
    pub(crate) slot: S,
}

impl<S> Model for Held<S> {
    ghost Value = { S };

    ghost view = { λ held. held.slot };
}

impl<S> Held<S> {
    pub fn new(slot: S) -> Held<S>
        ensures { result ≡ slot }
    {
        Held { slot }
    }

    /// The slot itself. Pools go on to count it as taken.
    pub fn spend(self) -> S
        ensures { result ≡ self }
    {
        let Held { slot } = self;
        slot
    }
}

impl<S: Slot> Held<S> {
    /// Where the slot is.
    pub fn place(&self) -> Place
        requires { IsPlace (place_from (S.place_of self.now)) }
        ensures { result ≡ place_from (S.place_of self.now) }
    {
        let at = self.slot.place();
        Place::new(DriveId::new(at.node, at.drive), at.slot)
    }
}

/// Drops all of the slots, and answers how many there were.
pub fn spend_all<S: Drop>(slots: List<Held<S>>) -> usize
    ensures { result ≡ length slots }
{
    let count = slots.len();
    let mut slots = slots.into_vec();
    while let Some(held) = slots.pop() {
        let _slot = held.spend();
    }
    slots.destroy_empty();
    count
}
