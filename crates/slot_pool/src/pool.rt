//! The free slots of one drive.

ghost use Rattle.std.specs.Prelude.{◌≡◌, ◌≢◌, ◌↔◌, ◌+◌, ◌<◌, ◌≤◌, [], ◌∷◌, ◌++◌, length, reverse, replicate, IsOk, IfOk, IfErr, OnOk, OnErr, vec_len, vec_capacity};
ghost use Rattle.domains.specs.Place.{IsPlace};
ghost use Rattle.held_slots.specs.Slots.{place_from, IsOn};
ghost use Rattle.slot_pool.specs.Tallies.{took, gave, found_none, no_tally};
ghost use Rattle.slot_pool.specs.Pools.{counted, IsPool, AreSlotsOf};

use crate::tallies::{count_empty, count_given, count_taken, new_tallies};
use crate::tally::Tally;
use domains::DriveId;
use flex_io::Slot;
use held_slots::{Empty, Held};
use lists::List;
use std::alloc::{AllocError, Global};
use std::marker::Model;
use turn_cell::SeatTallies;

/// The free slots of a drive as a stack, and what each seat took and gave. Contracts see a `PoolView`.
#[derive(Drop)]
pub struct Pool<S: Slot + Send + Drop> {
    pub(crate) turns: u64,
    pub(crate) seat: u8,
    drive: DriveId,
    slots: u16,
    free: Vec<S>,
    tallies: SeatTallies<Tally>,
}

impl<S: Slot + Send + Drop> Model for Pool<S> {
    ghost use Rattle.std.specs.Prelude.{◌≤◌, vec_capacity};
    ghost use Rattle.slot_pool.specs.Pools.{PoolView, IsPool};

    ghost Value = { PoolView S };

    ghost view = { λ p. record {
      drive = p.drive;
      slots = p.slots;
      free = p.free.items;
      tallies = p.tallies;
      turns = p.turns;
      seat = p.seat;
    } };

    // The stack has memory for all slots of the drive, so `give` never allocates.
    ghost invariant = { λ p. IsPool S.place_of (record {
      drive = p.drive;
      slots = p.slots;
      free = p.free.items;
      tallies = p.tallies;
      turns = p.turns;
      seat = p.seat;
    }) × (p.slots ≤ vec_capacity p.free) };
}

impl<S: Slot + Send + Drop> Pool<S> {
    /// A pool of all slots of a drive, with slot 0 on top. An `Err` hands the slots back.
    pub fn new(
        alloc: Global,
        drive: DriveId,
        slots: List<S>,
    ) -> Result<Pool<S>, (AllocError, List<S>)>
        requires few { length slots ≤ 4096 }
        requires slots { AreSlotsOf S.place_of drive slots }
        ensures ok { IfOk result (λ pool. pool ≡ record {
          drive = drive;
          slots = length slots;
          free = reverse slots;
          tallies = replicate 32 no_tally;
          turns = 0;
          seat = 0;
        }) }
        ensures kept { IfErr result (λ refused. refused.1 ≡ slots) }
    {
        let Ok(tallies) = new_tallies(alloc) else {
            return Err((AllocError, slots));
        };
        let count = slots.len() as u16;
        let mut free = slots.into_vec();
        free.reverse();
        let _node = drive.node();
        Ok(Pool {
            turns: 0,
            seat: 0,
            drive,
            slots: count,
            free,
            tallies,
        })
    }

    /// Pops the slot on top, or returns `Empty` with the number of turns passed.
    pub fn take(&mut self) -> Result<Held<S>, Empty>
        ensures ok { IfOk result (λ held. self.old.free ≡ self.new.free ++ held ∷ []) }
        ensures place { IfOk result (λ held. IsPlace (place_from (S.place_of held))
            × IsOn self.old.drive self.old.slots (place_from (S.place_of held))) }
        ensures counted { OnOk result (self.new ≡ counted (took 1) self.new.free self.old) }
        ensures empty { IfErr result (λ empty. (empty.turn ≡ self.old.turns) × (self.old.free ≡ [])) }
        ensures kept { OnErr result (self.new ≡ counted found_none self.old.free self.old) }
        ensures pool { IsPool S.place_of self.new }
    {
        let Some(slot) = self.free.pop() else {
            count_empty(&mut self.tallies, self.seat);
            return Err(Empty { turn: self.turns });
        };
        count_taken(&mut self.tallies, self.seat, 1);
        Ok(Held::new(slot))
    }

    /// Pushes a slot of the drive. A pool that has all slots of its drive hands the slot back.
    pub fn give(&mut self, held: Held<S>) -> Result<(), (AllocError, Held<S>)>
        requires { IsOn self.old.drive self.old.slots (place_from (S.place_of held)) }
        ensures ok { OnOk result (self.new ≡ counted gave (self.old.free ++ held ∷ []) self.old) }
        ensures kept { IfErr result (λ refused. (self.new ≡ self.old) × (refused.1 ≡ held)) }
        ensures accepts { IsOk result ↔ (length self.old.free < self.old.slots) }
        ensures pool { IsPool S.place_of self.new }
    {
        if self.free.len() >= usize::from(self.slots) {
            return Err((AllocError, held));
        }
        self.free.push_reserved(held.spend());
        count_given(&mut self.tallies, self.seat);
        Ok(())
    }

    /// Takes all free slots, in the order in which `take` would pop them.
    pub fn take_all(&mut self, alloc: Global) -> Result<List<Held<S>>, AllocError>
        ensures ok { IfOk result (λ all. all ≡ reverse self.old.free) }
        ensures counted { OnOk result (self.new ≡ counted (took (length self.old.free)) [] self.old) }
        ensures kept { OnErr result (self.new ≡ self.old) }
        ensures pool { IsPool S.place_of self.new }
    {
        let mut all = Vec::with_capacity(alloc, self.free.len())?;
        self.take_all_into(&mut all);
        Ok(List::from_vec(all))
    }

    /// Appends all free slots to a vector that has room for them, in the order in which `take` would pop them.
    pub fn take_all_into(&mut self, all: &mut Vec<Held<S>>)
        requires room { vec_len all.old + length self.old.free ≤ vec_capacity all.old }
        ensures taken { all.new.items ≡ all.old.items ++ reverse self.old.free }
        ensures room { vec_capacity all.new ≡ vec_capacity all.old }
        ensures counted { self.new ≡ counted (took (length self.old.free)) [] self.old }
        ensures pool { IsPool S.place_of self.new }
    {
        let count = self.free.len();
        pop_all(&mut self.free, all);
        count_taken(&mut self.tallies, self.seat, count as u64);
    }

    /// The drive of the slots.
    pub fn drive(&self) -> DriveId
        ensures value { result ≡ self.now.drive }
        ensures pool { IsPool S.place_of self.now }
    {
        self.drive
    }

    /// How many slots are free.
    pub fn free_count(&self) -> u32
        ensures value { result ≡ length self.now.free }
        ensures pool { IsPool S.place_of self.now }
    {
        self.free.len() as u32
    }

    /// The free slots from the bottom of the stack to its top.
    pub fn close(self) -> List<S>
        ensures free { result ≡ self.free }
        ensures pool { IsPool S.place_of self }
    {
        let Pool {
            turns: _,
            seat: _,
            drive: _,
            slots: _,
            free,
            tallies: _,
        } = self;
        List::from_vec(free)
    }
}

/// Pops all slots of the stack into the room for them.
fn pop_all<S>(free: &mut Vec<S>, all: &mut Vec<Held<S>>)
    requires { vec_len all.old + vec_len free.old ≤ vec_capacity all.old }
    ensures all { all.new.items ≡ all.old.items ++ reverse free.old.items }
    ensures room { vec_capacity all.new ≡ vec_capacity all.old }
    ensures none { free.new.items ≡ [] }
    ensures capacity { vec_capacity free.new ≡ vec_capacity free.old }
{
    while let Some(slot) = free.pop() {
        all.push_reserved(Held::new(slot));
    }
}
