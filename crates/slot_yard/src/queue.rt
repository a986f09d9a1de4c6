//! The slots of one drive that wait.

ghost use Rattle.std.specs.Prelude.{◌≡◌, ◌+◌, ◌≤◌, [], ◌∷◌, ◌++◌, length, option_to_list, IfErr, IfNone, OnOk, vec_len, vec_capacity};

use held_slots::Held;
use std::alloc::{AllocError, Global};
use std::collections::VecDeque;
use std::marker::Model;

/// The slots of a drive that wait. Contracts see them in the order of arrival.
pub(crate) struct Queue<S> {
    slots: VecDeque<Held<S>>,
}

impl<S> Model for Queue<S> {
    ghost use Rattle.std.specs.Prelude.{List};

    ghost Value = { List S };

    ghost view = { λ q. q.slots.items };
}

impl<S> Queue<S> {
    pub(crate) fn new(alloc: Global) -> Queue<S>
        ensures { result ≡ [] }
    {
        Queue {
            slots: VecDeque::new(alloc),
        }
    }

    /// Puts a slot at the end. An `Err` hands it back.
    pub(crate) fn push(&mut self, held: Held<S>) -> Result<(), (AllocError, Held<S>)>
        ensures ok { OnOk result (self.new ≡ self.old ++ held ∷ []) }
        ensures kept { IfErr result (λ refused. (self.new ≡ self.old) × (refused.1 ≡ held)) }
    {
        self.slots
            .push_back(held)
            .map_err(|failed| (AllocError, failed.value))
    }

    /// Takes the first slot.
    pub(crate) fn pop(&mut self) -> Option<Held<S>>
        ensures popped { self.old ≡ option_to_list result ++ self.new }
        ensures empty { IfNone result (self.old ≡ []) }
    {
        self.slots.pop_front()
    }

    pub(crate) fn len(&self) -> usize
        ensures { result ≡ length self.now }
    {
        self.slots.len()
    }

    /// Moves all slots, in their order, to the end of a vector that has room for them.
    pub(crate) fn move_to(&mut self, to: &mut Vec<Held<S>>)
        requires room { vec_len to.old + length self.old ≤ vec_capacity to.old }
        ensures moved { to.new.items ≡ to.old.items ++ self.old }
        ensures room { vec_capacity to.new ≡ vec_capacity to.old }
        ensures empty { self.new ≡ [] }
    {
        while let Some(held) = self.slots.pop_front() {
            to.push_reserved(held);
        }
    }

    /// Ends a queue in which no slot waits.
    pub(crate) fn destroy_empty(self)
        requires { self ≡ [] }
    {
        let Queue { slots } = self;
        slots.destroy_empty();
    }
}
