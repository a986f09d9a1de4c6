//! The slots that wait, in a queue for each drive.

ghost use Rattle.std.specs.Prelude.{◌≡◌, ◌+◌, ◌*◌, ◌<◌, ◌≤◌, [], ◌∷◌, ◌++◌, length, option_to_list, replicate, IfErr, IfNone, IfOk, OnOk, vec_len, vec_capacity};
ghost use Rattle.domains.specs.Drive.{IsDrive};
ghost use Rattle.slot_yard.specs.Tallies.{rank_of};
ghost use Rattle.slot_yard.specs.Queues.{by_drive, queue_of, waiting_in, with_queue};

use crate::queue::Queue;
use crate::rank::{rank, ranks};
use crate::yard::MOST_SLOTS;
use domains::DriveId;
use held_slots::Held;
use lists::List;
use std::alloc::{AllocError, Global};
use std::marker::Model;

/// A queue of waiting slots for each drive. Contracts see the queues in the order of the drives' ranks.
pub(crate) struct Queues<S> {
    of_drives: Vec<Queue<S>>,
    // How many slots wait in all queues.
    count: usize,
    // Room for all of them, so that `into_list` allocates nothing.
    room: Vec<Held<S>>,
}

impl<S> Model for Queues<S> {
    ghost use Rattle.std.specs.Prelude.{◌≡◌, ◌≤◌, List, [], vec_capacity};
    ghost use Rattle.slot_yard.specs.Queues.{waiting_in};

    ghost Value = { List (List S) };

    ghost view = { λ q. q.of_drives.items };

    ghost invariant = { λ q. (q.count ≡ waiting_in q.of_drives.items) × (q.room.items ≡ []) × (q.count ≤ vec_capacity q.room) };
}

impl<S> Queues<S> {
    /// Empty queues for the drives of `nodes` nodes.
    pub(crate) fn new(alloc: Global, nodes: u8) -> Result<Queues<S>, AllocError>
        ensures { IfOk result (λ queues. queues ≡ replicate (nodes * 16) []) }
    {
        let drives = ranks(nodes);
        let mut of_drives = Vec::with_capacity(alloc, drives)?;
        for _drive in 0..drives {
            of_drives.push_reserved(Queue::new(alloc));
        }
        Ok(Queues {
            of_drives,
            count: 0,
            room: Vec::new(alloc),
        })
    }

    /// Puts a slot at the end of the drive's queue. An `Err` hands it back.
    pub(crate) fn push(
        &mut self,
        drive: DriveId,
        held: Held<S>,
    ) -> Result<(), (AllocError, Held<S>)>
        requires within { rank_of drive < length self.old }
        ensures ok { OnOk result (self.new ≡ with_queue drive (queue_of drive self.old ++ held ∷ []) self.old) }
        ensures few { OnOk result (waiting_in self.new ≤ 819200) }
        ensures kept { IfErr result (λ refused. (self.new ≡ self.old) × (refused.1 ≡ held)) }
    {
        if self.count >= MOST_SLOTS || self.room.reserve(self.count + 1).is_err() {
            return Err((AllocError, held));
        }
        self.of_drives[rank(drive)].push(held)?;
        self.count += 1;
        Ok(())
    }

    /// Takes the first slot of the drive's queue.
    pub(crate) fn pop(&mut self, drive: DriveId) -> Option<Held<S>>
        ensures popped { queue_of drive self.old ≡ option_to_list result ++ queue_of drive self.new }
        ensures empty { IfNone result (queue_of drive self.old ≡ []) }
        ensures rest { self.new ≡ with_queue drive (queue_of drive self.new) self.old }
        ensures within { IsDrive drive }
    {
        let rank = rank(drive);
        if rank >= self.of_drives.len() {
            return None;
        }
        let held = self.of_drives[rank].pop()?;
        self.count -= 1;
        Some(held)
    }

    /// How many slots of the drive wait.
    pub(crate) fn len(&self, drive: DriveId) -> usize
        ensures value { result ≡ length (queue_of drive self.now) }
        ensures within { result ≤ waiting_in self.now }
    {
        let rank = rank(drive);
        if rank >= self.of_drives.len() {
            return 0;
        }
        self.of_drives[rank].len()
    }

    /// Moves the drive's slots, in their order, to the end of a vector that has room for them.
    pub(crate) fn move_to(&mut self, drive: DriveId, to: &mut Vec<Held<S>>)
        requires within { rank_of drive < length self.old }
        requires room { vec_len to.old + length (queue_of drive self.old) ≤ vec_capacity to.old }
        ensures moved { to.new.items ≡ to.old.items ++ queue_of drive self.old }
        ensures rest { self.new ≡ with_queue drive [] self.old }
    {
        let rank = rank(drive);
        let moved = self.of_drives[rank].len();
        self.of_drives[rank].move_to(to);
        self.count -= moved;
    }

    /// All slots: drive by drive, and of each drive in the order of arrival.
    pub(crate) fn into_list(self) -> List<Held<S>>
        ensures { result ≡ by_drive self }
    {
        let Queues {
            mut of_drives,
            count: _,
            mut room,
        } = self;
        of_drives.reverse();
        while let Some(mut queue) = of_drives.pop() {
            queue.move_to(&mut room);
            queue.destroy_empty();
        }
        of_drives.destroy_empty();
        List::from_vec(room)
    }
}
