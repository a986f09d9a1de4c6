//! A group of which some units stay in their slots.

ghost use Rattle.std.specs.Prelude.{◌≡◌, ◌≤◌, ◌<◌, ◌+◌, ◌++◌, [], ◌∷◌, length, reverse, vec_len, vec_capacity, IfOk, OnOk};
ghost use Rattle.std.specs.List.{AllByRecursion};
ghost use Rattle.domains.specs.Place.{IsPlace};
ghost use Rattle.map_switches.specs.RepairedUnits.{added_places, place_with, places_with, repaired_group, slot_freed, slot_with, slots_freed, slots_with};

use crate::change::FreshUnit;
use crate::fresh_groups::{checked, push_copies};
use domains::{Group, Place};
use held_slots::Held;
use lists::List;
use std::alloc::{AllocError, Global};
use std::mem;
use striped_groups::Stripe;

/// The group with these units, and this generation.
pub fn repaired_group<S>(
    alloc: Global,
    group: &Group,
    units: &[FreshUnit<S>],
    generation: u32,
) -> Result<Group, AllocError>
    ensures { IfOk result (λ repaired. repaired ≡ record (repaired_group units.now group.now) { generation = generation }) }
{
    let mut places = Vec::new(alloc);
    push_places_with(group.places.as_slice(), units, &mut places)?;
    Ok(Group {
        generation,
        n: group.n,
        m: group.m,
        places: List::from_vec(places),
    })
}

/// Puts the places of a group with these units, which had the old ones, behind others.
fn push_places_with<S>(
    old: &[Place],
    units: &[FreshUnit<S>],
    places: &mut Vec<Place>,
) -> Result<(), AllocError>
    ensures { OnOk result (places.new.items ≡ places.old.items ++ places_with old.now units.now) }
{
    let [place, rest @ ..] = old else {
        return Ok(());
    };
    let [unit, later @ ..] = units else {
        return push_copies(old, places);
    };
    places.push(place_with(*place, unit))?;
    push_places_with(rest, later, places)
}

/// The place of a unit that stood there.
fn place_with<S>(place: Place, unit: &FreshUnit<S>) -> Place
    ensures { result ≡ place_with place unit.now }
{
    match unit {
        FreshUnit::Kept { .. } => place,
        FreshUnit::New { place: new, .. } => *new,
    }
}

/// Puts the places of the new ones of these units behind others.
pub fn push_added<S>(units: &[FreshUnit<S>], places: &mut Vec<Place>) -> Result<(), AllocError>
    ensures pushed { OnOk result (places.new.items ≡ places.old.items ++ added_places units.now) }
    ensures places { OnOk result (AllByRecursion IsPlace (added_places units.now)) }
{
    let [unit, rest @ ..] = units else {
        return Ok(());
    };
    if let FreshUnit::New { place, .. } = unit {
        places.push(checked(*place))?;
    }
    push_added(rest, places)
}

/// Gives the stripe this group and these units, and answers what it was, with the slots that are not kept. It takes no memory.
pub fn exchange_units<S>(
    stripe: &mut Stripe<S>,
    group: Group,
    units: List<FreshUnit<S>>,
    freed: Vec<Held<S>>,
) -> Stripe<S>
    requires whole { length units ≡ length stripe.old.slots }
    requires room { length units ≤ vec_capacity freed }
    requires none { freed.items ≡ [] }
    ensures new { stripe.new ≡ record { group = group; slots = slots_with stripe.old.slots units } }
    ensures old { result ≡ record { group = stripe.old.group; slots = slots_freed stripe.old.slots units } }
{
    let (mut units, mut freed) = (units.into_vec(), freed);
    units.reverse();
    exchange_slots(&mut stripe.slots, &mut units, &mut freed);
    units.destroy_empty();
    let group = mem::replace(&mut stripe.group, group);
    Stripe {
        group,
        slots: freed,
    }
}

/// Puts the slots of new units in the place of old ones, by the units from the last on, and the old ones behind others.
fn exchange_slots<S>(slots: &mut [Held<S>], units: &mut Vec<FreshUnit<S>>, freed: &mut Vec<Held<S>>)
    requires whole { vec_len units.old ≡ length slots.old }
    requires room { vec_len freed.old + length slots.old ≤ vec_capacity freed.old }
    ensures slots { slots.new ≡ slots_with slots.old (reverse units.old.items) }
    ensures freed { freed.new.items ≡ freed.old.items ++ slots_freed slots.old (reverse units.old.items) }
    ensures units { units.new.items ≡ [] }
{
    let Some((slot, rest)) = slots.split_first_mut() else {
        return;
    };
    let Some(unit) = units.pop() else {
        unreachable!()
    };
    exchange_slot(slot, unit, freed);
    exchange_slots(rest, units, freed);
}

/// Puts the slot of a new unit in the place of an old one, which goes behind others.
fn exchange_slot<S>(slot: &mut Held<S>, unit: FreshUnit<S>, freed: &mut Vec<Held<S>>)
    requires room { vec_len freed.old < vec_capacity freed.old }
    ensures slot { slot.new ≡ slot_with slot.old unit }
    ensures freed { freed.new.items ≡ freed.old.items ++ slot_freed slot.old unit }
    ensures capacity { vec_capacity freed.new ≡ vec_capacity freed.old }
{
    match unit {
        FreshUnit::Kept {
            generation: _,
            position: _,
        } => {}
        FreshUnit::New {
            place: _,
            slot: new,
        } => freed.push_reserved(mem::replace(slot, new)),
    }
}
