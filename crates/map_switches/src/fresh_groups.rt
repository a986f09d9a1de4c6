//! The new groups of a change: their generations, for the log and for the map.

ghost use Rattle.std.specs.Prelude.{◌≡◌, ◌≤◌, ◌<◌, ◌+◌, ◌++◌, ◌*◌, ◌^◌, [], length, take, drop, vec_len, vec_capacity, IfOk, OnOk};
ghost use Rattle.std.specs.List.{AllByRecursion};
ghost use Rattle.domains.specs.Place.{IsPlace};
ghost use Rattle.file_history.specs.Layout.{places_of};
ghost use Rattle.striped_groups.specs.StoredGroups.{list_of};
ghost use Rattle.map_changes.specs.ChangedMaps.{first_of, spliced};
ghost use Rattle.map_switches.specs.Switches.{AreForRun, brought_groups, fresh_places, groups_of, numbered, repaired_among, run_in, stripes_from};

use crate::change::Fresh;
use crate::repaired_units::{push_added, repaired_group};
use domains::{DriveId, Group, Place};
use lists::List;
use map_changes::replace_run;
use stale_changes::is_among;
use std::alloc::{AllocError, Global};
use striped_groups::Stripe;

/// The groups that a change brings in the place of a run, with the generations from this one on.
pub fn brought_groups<S>(
    alloc: Global,
    run: &[Stripe<S>],
    fresh: &Fresh<S>,
    next: u32,
) -> Result<Vec<Group>, AllocError>
    requires units { AreForRun run.now fresh.now }
    requires small { next + length (brought_groups (groups_of run.now) fresh.now) < 2 ^ 32 }
    ensures { IfOk result (λ groups. groups.items ≡ numbered (brought_groups (groups_of run.now) fresh.now) next) }
{
    match fresh {
        Fresh::Groups(stripes) => numbered(alloc, stripes.as_slice(), next),
        Fresh::Units(units) => {
            let [stripe] = run else { unreachable!() };
            let mut groups = Vec::new(alloc);
            groups.push(repaired_group(alloc, stripe.group(), units.as_slice(), next)?)?;
            Ok(groups)
        }
    }
}

/// The group of a repair, which the map takes: a copy of the one that the log takes.
pub fn repaired_among<S>(
    alloc: Global,
    fresh: &Fresh<S>,
    groups: &[Group],
) -> Result<Option<Group>, AllocError>
    requires { length (repaired_among fresh.now groups.now) ≤ 1 }
    ensures { IfOk result (λ repaired. list_of repaired ≡ repaired_among fresh.now groups.now) }
{
    let (Fresh::Units(_), [group]) = (fresh, groups) else {
        return Ok(None);
    };
    Ok(Some(copy_as(alloc, group, group.generation)?))
}

/// The groups of these slots, with the generations from this one on.
fn numbered<S>(alloc: Global, stripes: &[Stripe<S>], next: u32) -> Result<Vec<Group>, AllocError>
    requires { next + length stripes.now < 2 ^ 32 }
    ensures { IfOk result (λ groups. groups.items ≡ numbered (groups_of stripes.now) next) }
{
    let mut groups = Vec::new(alloc);
    push_numbered(alloc, stripes, next, &mut groups)?;
    Ok(groups)
}

/// Puts the groups of these slots behind others, with the generations from this one on.
fn push_numbered<S>(
    alloc: Global,
    stripes: &[Stripe<S>],
    next: u32,
    groups: &mut Vec<Group>,
) -> Result<(), AllocError>
    requires { next + length stripes.now < 2 ^ 32 }
    ensures { OnOk result (groups.new.items ≡ groups.old.items ++ numbered (groups_of stripes.now) next) }
{
    let [stripe, rest @ ..] = stripes else {
        return Ok(());
    };
    groups.push(copy_as(alloc, stripe.group(), next)?)?;
    push_numbered(alloc, rest, next + 1, groups)
}

/// A copy of a group, with this generation.
pub fn copy_as(alloc: Global, group: &Group, generation: u32) -> Result<Group, AllocError>
    ensures { IfOk result (λ copy. copy ≡ record group.now { generation = generation }) }
{
    Ok(Group {
        generation,
        n: group.n,
        m: group.m,
        places: List::from_vec(Vec::from_slice(alloc, group.places.as_slice())?),
    })
}

/// Gives the groups the generations from this one on.
pub fn give_generations<S>(stripes: &mut [Stripe<S>], next: u32)
    requires { next + length stripes.old < 2 ^ 32 }
    ensures { stripes.new ≡ stripes_from stripes.old next }
{
    let Some((stripe, rest)) = stripes.split_first_mut() else {
        return;
    };
    stripe.group.generation = next;
    give_generations(rest, next + 1);
}

/// Puts the places of the new units of a change, but for the inode's, behind others.
pub fn push_fresh_places<S>(fresh: &Fresh<S>, places: &mut Vec<Place>) -> Result<(), AllocError>
    ensures pushed { OnOk result (places.new.items ≡ places.old.items ++ fresh_places fresh.now) }
    ensures places { OnOk result (AllByRecursion IsPlace (fresh_places fresh.now)) }
{
    match fresh {
        Fresh::Groups(stripes) => push_group_places(stripes.as_slice(), places),
        Fresh::Units(units) => push_added(units.as_slice(), places),
    }
}

/// Puts the places of the groups behind others.
fn push_group_places<S>(stripes: &[Stripe<S>], places: &mut Vec<Place>) -> Result<(), AllocError>
    ensures pushed { OnOk result (places.new.items ≡ places.old.items ++ places_of (groups_of stripes.now)) }
    ensures places { OnOk result (AllByRecursion IsPlace (places_of (groups_of stripes.now))) }
{
    let [stripe, rest @ ..] = stripes else {
        return Ok(());
    };
    push_copies(stripe.group().places.as_slice(), places)?;
    push_group_places(rest, places)
}

/// Puts copies of places behind others.
pub fn push_copies(copied: &[Place], places: &mut Vec<Place>) -> Result<(), AllocError>
    ensures pushed { OnOk result (places.new.items ≡ places.old.items ++ copied.now) }
    ensures places { OnOk result (AllByRecursion IsPlace copied.now) }
{
    let [place, rest @ ..] = copied else {
        return Ok(());
    };
    places.push(checked(*place))?;
    push_copies(rest, places)
}

/// The place itself, which keeps within the limits of its numbers.
pub fn checked(place: Place) -> Place
    ensures same { result ≡ place }
    ensures limits { IsPlace result }
{
    let drive = place.drive();
    Place::new(DriveId::new(drive.node(), drive.drive()), place.slot())
}

/// How many units the groups have.
pub fn count_units<S>(stripes: &[Stripe<S>]) -> u32
    requires few { 255 * length stripes.now < 2 ^ 31 }
    requires places { AllByRecursion (λ g. length g.group.places ≤ 255) stripes.now }
    ensures value { result ≡ length (places_of (groups_of stripes.now)) }
    ensures most { result ≤ 255 * length stripes.now }
{
    let [stripe, rest @ ..] = stripes else {
        return 0;
    };
    stripe.group().places.len() as u32 + count_units(rest)
}

/// How many groups stand before the first of these generations.
pub fn first_of<S>(stripes: &[Stripe<S>], old: &[u32]) -> usize
    ensures value { result ≡ first_of old.now (groups_of stripes.now) }
    ensures most { result ≤ length stripes.now }
{
    let [stripe, rest @ ..] = stripes else {
        return 0;
    };
    if is_among(old, stripe.generation()) {
        return 0;
    }
    1 + first_of(rest, old)
}

/// The groups with these generations.
pub fn run_in<'a, S>(stripes: &'a [Stripe<S>], old: &[u32]) -> &'a [Stripe<S>]
    requires { first_of old.now (groups_of stripes.now) + length old.now ≤ length stripes.now }
    ensures { result.now ≡ run_in old.now stripes.now }
{
    let first = first_of(stripes, old);
    &stripes[first..first + old.len()]
}

/// Puts the groups in the place of those with these generations, which it answers in map order. The new ones get the generations
/// from `next` on.
pub fn replace_groups<S>(
    groups: &mut Vec<Stripe<S>>,
    old: &List<u32>,
    fresh: List<Stripe<S>>,
    next: u32,
    gone: Vec<Stripe<S>>,
) -> List<Stripe<S>>
    requires within { first_of old.now (groups_of groups.old.items) + length old.now ≤ length groups.old.items }
    requires small { next + length fresh < 2 ^ 32 }
    requires room { vec_len groups.old + length fresh ≤ vec_capacity groups.old }
    requires gone_room { length old.now ≤ vec_capacity gone }
    requires none { gone.items ≡ [] }
    ensures groups { groups.new.items ≡ spliced groups.old.items (first_of old.now (groups_of groups.old.items)) (length old.now) (stripes_from fresh next) }
    ensures gone { result ≡ take (length old.now) (drop (first_of old.now (groups_of groups.old.items)) groups.old.items) }
{
    let (mut fresh, mut gone) = (fresh.into_vec(), gone);
    let first = first_of(groups, old.as_slice());
    give_generations(&mut fresh, next);
    replace_run(groups, first, old.len(), &mut fresh, &mut gone);
    fresh.destroy_empty();
    gone.reverse();
    List::from_vec(gone)
}
