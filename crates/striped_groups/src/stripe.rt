//! A group with its slots.

ghost use Rattle.std.specs.Prelude.{◌≡◌, ◌++◌, IfErr, IfOk, OnOk};
ghost use Rattle.std.specs.List.{AllByRecursion};
ghost use Rattle.domains.specs.Place.{IsPlace};
ghost use Rattle.held_slots.specs.Slots.{places_from};

use domains::{Group, Place};
use flex_io::Slot;
use held_slots::Held;
use lists::List;
use std::alloc::{AllocError, Global};
use std::marker::Model;

/// A group, and its slots by position. Contracts see a `GroupSlots`.
pub struct Stripe<S> {
    pub group: Group,
    pub slots: Vec<Held<S>>,
}

impl<S> Model for Stripe<S> {
    ghost use Rattle.striped_groups.specs.StoredGroups.{GroupSlots};

    ghost Value = { GroupSlots S };

    ghost view = { λ s. record { group = s.group; slots = s.slots.items } };
}

impl<S> Stripe<S> {
    /// The group.
    pub fn group(&self) -> &Group
        ensures { result.now ≡ self.now.group }
    {
        &self.group
    }

    /// The slots, by position.
    pub fn into_slots(self) -> List<Held<S>>
        ensures { result ≡ self.slots }
    {
        let Stripe { group: _, slots } = self;
        List::from_vec(slots)
    }

    /// The number of the group within its file.
    pub fn generation(&self) -> u32
        ensures { result ≡ self.now.group.generation }
    {
        self.group.generation
    }

    /// The group on its slots, with this generation.
    pub fn with_generation(self, generation: u32) -> Stripe<S>
        ensures { result ≡ record { group = record self.group { generation = generation }; slots = self.slots } }
    {
        let Stripe { mut group, slots } = self;
        group.generation = generation;
        Stripe { group, slots }
    }
}

impl<S: Slot> Stripe<S> {
    /// A group of `n` data and `m` correction units on these slots, by position, which no file holds yet. An error hands the slots
    /// back.
    pub fn new(
        alloc: Global,
        n: u8,
        m: u8,
        slots: List<Held<S>>,
    ) -> Result<Stripe<S>, (AllocError, List<Held<S>>)>
        requires places { AllByRecursion IsPlace (places_from S.place_of slots) }
        ensures made { IfOk result (λ made. made ≡ record { group = record { generation = 0; n = n; m = m; places = places_from S.place_of slots }; slots = slots }) }
        ensures back { IfErr result (λ refused. refused.1 ≡ slots) }
    {
        let slots = slots.into_vec();
        let mut places = Vec::new(alloc);
        if push_places(&slots, &mut places).is_err() {
            return Err((AllocError, List::from_vec(slots)));
        }
        Ok(Stripe {
            group: Group {
                generation: 0,
                n,
                m,
                places: List::from_vec(places),
            },
            slots,
        })
    }
}

/// Puts the places of the slots behind others.
pub fn push_places<S: Slot>(slots: &[Held<S>], places: &mut Vec<Place>) -> Result<(), AllocError>
    requires { AllByRecursion IsPlace (places_from S.place_of slots.now) }
    ensures { OnOk result (places.new.items ≡ places.old.items ++ places_from S.place_of slots.now) }
{
    let [first, rest @ ..] = slots else {
        return Ok(());
    };
    places.push(first.place())?;
    push_places(rest, places)
}
