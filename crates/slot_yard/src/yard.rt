//! The slots that wait for their drives, and those that are retired.

ghost use Rattle.std.specs.Prelude.{◌≡◌, ◌+◌, ◌≤◌, ◌↔◌, true, [], ◌∷◌, ◌++◌, length, IsErr, IfOk, IfErr, OnOk, OnErr, vec_len, vec_capacity};
ghost use Rattle.domains.specs.Place.{IsPlaceOf};
ghost use Rattle.domains.specs.Shape.{is_of};
ghost use Rattle.held_slots.specs.Slots.{drive_of, place_from};
ghost use Rattle.slot_pool.specs.{counted, IsPool, took};
ghost use Rattle.slot_yard.specs.Queues.{IsOldest, by_drive, queue_of, with_slot};
ghost use Rattle.slot_yard.specs.Yards.{IsNewYard, IsYard, moved, without_drive};
ghost use Rattle.slot_yard.specs.declared.counts.Move.TheVariants.{Put, Take, Retire};

use crate::counts::Move;
use crate::queues::Queues;
use crate::tallies::{count, count_all, new_tallies};
use crate::tally::Tally;
use domains::{DriveId, Shape};
use flex_io::Slot;
use held_slots::{Empty, Held};
use lists::List;
use slot_pool::Pool;
use std::alloc::{AllocError, Global};
use std::marker::Model;
use turn_cell::SeatTallies;

/// The most slots that a cluster has: 200 drives of 4,096.
pub(crate) const MOST_SLOTS: usize = 819_200;

/// The slots that wait for drives that are down, those that are retired, and what each seat did. Contracts see a
/// `YardView`.
pub struct Yard<S: Slot + Send + Drop> {
    pub(crate) turns: u64,
    pub(crate) seat: u8,
    shape: Shape,
    waiting: Queues<S>,
    retired: Vec<Held<S>>,
    tallies: SeatTallies<Tally>,
}

/// What a yard held.
pub struct YardParts<S> {
    /// The slots that waited: drive by drive, and of each drive in the order of arrival.
    pub yard: List<Held<S>>,
    /// The retired slots, in the order of arrival.
    pub retired: List<Held<S>>,
}

impl<S: Slot + Send + Drop> Model for Yard<S> {
    ghost use Rattle.slot_yard.specs.Yards.{YardView, IsYard};

    ghost Value = { YardView S };

    ghost view = { λ y. record {
      shape = y.shape;
      waiting = y.waiting;
      retired = y.retired.items;
      tallies = y.tallies;
      turns = y.turns;
      seat = y.seat;
    } };

    ghost invariant = { λ y. IsYard S.place_of (record {
      shape = y.shape;
      waiting = y.waiting;
      retired = y.retired.items;
      tallies = y.tallies;
      turns = y.turns;
      seat = y.seat;
    }) };
}

impl<S: Slot + Send + Drop> Yard<S> {
    /// An empty yard for the slots of a cluster.
    pub fn new(alloc: Global, shape: Shape) -> Result<Yard<S>, AllocError>
        ensures ok { IfOk result (λ yard. IsNewYard shape yard) }
        ensures yard { IfOk result (λ yard. IsYard S.place_of yard) }
    {
        let tallies = new_tallies(alloc, shape.nodes())?;
        Ok(Yard {
            turns: 0,
            seat: 0,
            shape,
            waiting: Queues::new(alloc, shape.nodes())?,
            retired: Vec::new(alloc),
            tallies,
        })
    }

    /// Puts a slot into the yard, behind all that wait for its drive. An `Err` hands it back.
    pub fn put(&mut self, held: Held<S>) -> Result<(), (AllocError, Held<S>)>
        requires { IsPlaceOf self.old.shape (place_from (S.place_of held)) }
        ensures ok { OnOk result (self.new ≡ moved Put (drive_of S.place_of held) (with_slot S.place_of held self.old.waiting) self.old.retired self.old) }
        ensures kept { IfErr result (λ refused. (self.new ≡ self.old) × (refused.1 ≡ held)) }
        ensures yard { IsYard S.place_of self.new }
    {
        let seat = self.seat;
        let drive = held.place().drive();
        self.waiting.push(drive, held)?;
        count(&mut self.tallies, seat, drive, Move::Put);
        Ok(())
    }

    /// Takes the slot of the drive that waits longest, or returns `Empty` with the number of turns passed.
    pub fn take(&mut self, drive: DriveId) -> Result<Held<S>, Empty>
        ensures ok { IfOk result (λ held. IsOldest S.place_of drive held self.old.waiting self.new.waiting) }
        ensures place { IfOk result (λ held. IsPlaceOf self.old.shape (place_from (S.place_of held))) }
        ensures counted { OnOk result (self.new ≡ moved Take drive self.new.waiting self.old.retired self.old) }
        ensures kept { OnErr result (self.new ≡ self.old) }
        ensures empty { IsErr result ↔ (queue_of drive self.old.waiting ≡ []) }
        ensures turn { IfErr result (λ empty. empty.turn ≡ self.old.turns) }
        ensures yard { IsYard S.place_of self.new }
    {
        let Some(held) = self.waiting.pop(drive) else {
            return Err(Empty { turn: self.turns });
        };
        count(&mut self.tallies, self.seat, drive, Move::Take);
        Ok(held)
    }

    /// Retires a slot, behind all that were retired before. An `Err` hands it back.
    pub fn retire(&mut self, held: Held<S>) -> Result<(), (AllocError, Held<S>)>
        requires { IsPlaceOf self.old.shape (place_from (S.place_of held)) }
        ensures ok { OnOk result (self.new ≡ moved Retire (drive_of S.place_of held) self.old.waiting (self.old.retired ++ held ∷ []) self.old) }
        ensures kept { IfErr result (λ refused. (self.new ≡ self.old) × (refused.1 ≡ held)) }
        ensures yard { IsYard S.place_of self.new }
    {
        let seat = self.seat;
        let drive = held.place().drive();
        append(&mut self.retired, held)?;
        count(&mut self.tallies, seat, drive, Move::Retire);
        Ok(())
    }

    /// Retires all slots of a drive that are not out, behind all that were retired before: the free ones of its pool, in the
    /// order in which `take` would pop them, and then those that wait. Returns their number. An `Err` changes nothing.
    pub fn retire_drive(&mut self, pool: &mut Pool<S>) -> Result<u32, AllocError>
        requires of { is_of self.old.shape pool.old.drive ≡ true }
        requires slots { pool.old.slots ≤ self.old.shape.slots }
        ensures value { IfOk result (λ count. count ≡ length pool.old.free + length (queue_of pool.old.drive self.old.waiting)) }
        ensures ok { OnOk result (self.new ≡ without_drive pool.old.drive pool.old.free self.old) }
        ensures taken { OnOk result (pool.new ≡ counted (took (length pool.old.free)) [] pool.old) }
        ensures kept { OnErr result (self.new ≡ self.old) }
        ensures untaken { OnErr result (pool.new ≡ pool.old) }
        ensures yard { IsYard S.place_of self.new }
        ensures pool { IsPool S.place_of pool.new }
    {
        let seat = self.seat;
        let drive = pool.drive();
        let waiting = self.waiting.len(drive) as u32;
        let moved = pool.free_count() + waiting;
        make_room(&mut self.retired, moved)?;
        pool.take_all_into(&mut self.retired);
        self.waiting.move_to(drive, &mut self.retired);
        count_all(
            &mut self.tallies,
            seat,
            drive,
            u64::from(waiting),
            u64::from(moved),
        );
        Ok(moved)
    }

    /// How many slots of the drive wait.
    pub fn count(&self, drive: DriveId) -> u32
        ensures value { result ≡ length (queue_of drive self.now.waiting) }
        ensures yard { IsYard S.place_of self.now }
    {
        self.waiting.len(drive) as u32
    }

    /// The slots of the yard. It allocates nothing.
    pub fn close(self) -> YardParts<S>
        ensures waiting { result.yard ≡ by_drive self.waiting }
        ensures retired { result.retired ≡ self.retired }
        ensures yard { IsYard S.place_of self }
    {
        let Yard {
            turns: _,
            seat: _,
            shape: _,
            waiting,
            retired,
            tallies: _,
        } = self;
        YardParts {
            yard: waiting.into_list(),
            retired: List::from_vec(retired),
        }
    }
}

/// Adds a slot at the end, if the vector has fewer than a cluster may have. An `Err` hands it back.
fn append<S>(slots: &mut Vec<Held<S>>, held: Held<S>) -> Result<(), (AllocError, Held<S>)>
    requires { length slots.old.items ≤ 819200 }
    ensures ok { OnOk result (slots.new.items ≡ slots.old.items ++ held ∷ []) }
    ensures few { length slots.new.items ≤ 819200 }
    ensures kept { IfErr result (λ refused. (slots.new.items ≡ slots.old.items) × (refused.1 ≡ held)) }
{
    if slots.len() >= MOST_SLOTS {
        return Err((AllocError, held));
    }
    match slots.push(held) {
        Ok(()) => Ok(()),
        Err(failed) => Err((AllocError, failed.value)),
    }
}

/// Makes room for `more` slots, if all together are no more than a cluster may have.
fn make_room<S>(slots: &mut Vec<Held<S>>, more: u32) -> Result<(), AllocError>
    requires { length slots.old.items ≤ 819200 }
    ensures ok { OnOk result (vec_len slots.new + more ≤ vec_capacity slots.new) }
    ensures few { OnOk result (length slots.new.items + more ≤ 819200) }
    ensures same { slots.new.items ≡ slots.old.items }
{
    let more = more as usize;
    if more > MOST_SLOTS - slots.len() {
        return Err(AllocError);
    }
    slots.reserve(more)
}
