//! The groups of a run and an inode.

ghost use Rattle.std.specs.Prelude.{◌≡◌, ◌+◌, ◌*◌, ◌<◌, ◌≤◌, ◌^◌, ◌++◌, [], ◌∷◌, IfOk, IfErr, length, reverse, vec_capacity};
ghost use Rattle.std.specs.List.{AllByRecursion};
ghost use Rattle.domains.specs.Shape.{IsShape};
ghost use Rattle.rs_codes.specs.Codes.{IsCodeSize};
ghost use Rattle.fabric.specs.Views.{IsHandOf, fabric_view};
ghost use Rattle.slot_search.specs.Searches.{KeepsHand};
ghost use Rattle.placement.specs.Draws.{IfNoRoom, IsSameDesk};
ghost use Rattle.write_rule.specs.NewBytes.{bytes_of};
ghost use Rattle.placed_runs.specs.PlacedRuns.{DrawsInode, FindsNoInode, FindsNoRun, HoldsLess, MayGoBack, PlacesRun};

use crate::group::place_group;
use crate::inode::draw_inode;
use crate::returned::give_group_back;
use crate::terms::RunTerms;
use fabric::Desk;
use flex_io::{Gate, Slot};
use lists::List;
use placement::PlaceRefusal;
use std::alloc::{AllocError, Global};
use std::sync::Wait;
use striped_groups::Stripe;
use write_rule::NewBytes;

/// New groups in map order, and an inode.
pub struct PlacedRun<S> {
    pub groups: List<Stripe<S>>,
    pub inode: Stripe<S>,
}

/// The same on the way, the first group the last.
struct Stack<S> {
    groups: Vec<Stripe<S>>,
    inode: Stripe<S>,
}

/// Places new groups, of these numbers of data units, one after the other, and then draws the inode's slots. The data are the bytes, with
/// zeros behind them. The first group has this spin, each further one and the inode one more. If one finds no room, the slots go
/// back in the reverse order.
pub fn place_run<S: Slot + Send + Drop, G: Gate, R: Wait>(
    rt: &R,
    alloc: Global,
    desk: &mut Desk<'_, S, G>,
    terms: &RunTerms,
    spin: u32,
    bytes: &NewBytes<'_>,
    chunks: &[u8],
) -> Result<PlacedRun<S>, PlaceRefusal>
    requires hand { IsHandOf (fabric_view desk.old.fabric.now) desk.old.hand.now }
    requires cluster { IsShape (fabric_view desk.old.fabric.now).shape }
    requires sizes { AllByRecursion (λ n. IsCodeSize n terms.now.level.m) chunks.now }
    requires wide { terms.now.unit ≤ 131072 }
    requires few { length chunks.now ≤ 2 ^ 28 }
    requires spins { spin + length chunks.now < 2 ^ 32 }
    ensures keeps { KeepsHand (fabric_view desk.old.fabric.now) desk.old.hand.now desk.new.hand.now }
    ensures same { IsSameDesk desk.old desk.new }
    ensures placed { IfOk result (λ r. PlacesRun S.place_of S.content S.len_of S.faults terms.now (fabric_view desk.old.fabric.now).shape spin
        (bytes_of bytes.now) 0 chunks.now r.groups r.inode desk.old.hand.now desk.new.hand.now) }
    ensures no_room { IfErr result (λ e. IfNoRoom e (λ told. FindsNoRun S.place_of S.content S.len_of S.faults terms.now (fabric_view desk.old.fabric.now).shape spin
        (bytes_of bytes.now) 0 chunks.now told desk.old.hand.now desk.new.hand.now)) }
{
    match place_from(rt, alloc, desk, terms, spin, bytes, 0, chunks, chunks.len()) {
        Ok(Stack { mut groups, inode }) => {
            groups.reverse();
            Ok(PlacedRun {
                groups: List::from_vec(groups),
                inode,
            })
        }
        Err(refusal) => Err(refusal),
    }
}

/// Places the groups that are left, from this place of the bytes on, and then the inode. There is to be memory for `count` groups.
fn place_from<S: Slot + Send + Drop, G: Gate, R: Wait>(
    rt: &R,
    alloc: Global,
    desk: &mut Desk<'_, S, G>,
    terms: &RunTerms,
    spin: u32,
    bytes: &NewBytes<'_>,
    from: usize,
    chunks: &[u8],
    count: usize,
) -> Result<Stack<S>, PlaceRefusal>
    requires hand { IsHandOf (fabric_view desk.old.fabric.now) desk.old.hand.now }
    requires cluster { IsShape (fabric_view desk.old.fabric.now).shape }
    requires sizes { AllByRecursion (λ n. IsCodeSize n terms.now.level.m) chunks.now }
    requires wide { terms.now.unit ≤ 131072 }
    requires small { from + 2 ^ 25 * length chunks.now ≤ 2 ^ 60 }
    requires spins { spin + length chunks.now < 2 ^ 32 }
    requires counted { length chunks.now ≤ count }
    ensures keeps { KeepsHand (fabric_view desk.old.fabric.now) desk.old.hand.now desk.new.hand.now }
    ensures same { IsSameDesk desk.old desk.new }
    ensures placed { IfOk result (λ r. PlacesRun S.place_of S.content S.len_of S.faults terms.now (fabric_view desk.old.fabric.now).shape spin
        (bytes_of bytes.now) from chunks.now (reverse r.groups.items) r.inode desk.old.hand.now desk.new.hand.now) }
    ensures many { IfOk result (λ r. length r.groups.items ≡ length chunks.now) }
    ensures room { IfOk result (λ r. count ≤ vec_capacity r.groups) }
    ensures no_room { IfErr result (λ e. IfNoRoom e (λ told. FindsNoRun S.place_of S.content S.len_of S.faults terms.now (fabric_view desk.old.fabric.now).shape spin
        (bytes_of bytes.now) from chunks.now told desk.old.hand.now desk.new.hand.now)) }
{
    let [n, rest @ ..] = chunks else {
        return draw_last(rt, alloc, desk, terms, spin, count);
    };
    let group = match place_group(rt, alloc, desk, terms, spin, bytes, from, *n) {
        Ok(group) => group,
        Err(refusal) => return Err(refusal),
    };
    let next = from + usize::from(*n) * terms.unit as usize;
    match place_from(rt, alloc, desk, terms, spin + 1, bytes, next, rest, count) {
        Ok(stack) => Ok(with_group(stack, group)),
        Err(refusal) => Err(give_back_or(rt, desk, terms, group, refusal)),
    }
}

/// Draws the inode's slots, behind all groups.
fn draw_last<S: Slot + Send + Drop, G: Gate, R: Wait>(
    rt: &R,
    alloc: Global,
    desk: &mut Desk<'_, S, G>,
    terms: &RunTerms,
    spin: u32,
    count: usize,
) -> Result<Stack<S>, PlaceRefusal>
    requires hand { IsHandOf (fabric_view desk.old.fabric.now) desk.old.hand.now }
    requires cluster { IsShape (fabric_view desk.old.fabric.now).shape }
    ensures keeps { KeepsHand (fabric_view desk.old.fabric.now) desk.old.hand.now desk.new.hand.now }
    ensures same { IsSameDesk desk.old desk.new }
    ensures drawn { IfOk result (λ r. DrawsInode S.place_of terms.now (fabric_view desk.old.fabric.now).shape spin r.inode desk.old.hand.now desk.new.hand.now) }
    ensures none { IfOk result (λ r. r.groups.items ≡ []) }
    ensures room { IfOk result (λ r. count ≤ vec_capacity r.groups) }
    ensures no_room { IfErr result (λ e. IfNoRoom e (λ told. FindsNoInode S.place_of terms.now (fabric_view desk.old.fabric.now).shape spin told
        desk.old.hand.now desk.new.hand.now)) }
{
    let Ok(groups) = Vec::with_capacity(alloc, count) else {
        return Err(PlaceRefusal::NoMemory);
    };
    match draw_inode(rt, alloc, desk, terms, spin) {
        Ok(inode) => Ok(Stack { groups, inode }),
        Err(refusal) => {
            groups.destroy_empty();
            Err(refusal)
        }
    }
}

/// The stack with one group more, before those that it has.
fn with_group<S>(stack: Stack<S>, group: Stripe<S>) -> Stack<S>
    requires { length stack.groups.items < vec_capacity stack.groups }
    ensures groups { result.groups.items ≡ stack.groups.items ++ group ∷ [] }
    ensures capacity { vec_capacity result.groups ≡ vec_capacity stack.groups }
    ensures inode { result.inode ≡ stack.inode }
{
    let Stack { mut groups, inode } = stack;
    groups.push_reserved(group);
    Stack { groups, inode }
}

/// Gives the slots of a group back, and answers the refusal, or want of memory if one is lost.
fn give_back_or<S: Slot + Send + Drop, G: Gate, R: Wait>(
    rt: &R,
    desk: &mut Desk<'_, S, G>,
    terms: &RunTerms,
    group: Stripe<S>,
    refusal: PlaceRefusal,
) -> PlaceRefusal
    requires hand { IsHandOf (fabric_view desk.old.fabric.now) desk.old.hand.now }
    requires back { MayGoBack S.place_of (fabric_view desk.old.fabric.now).shape terms.now.view group.slots }
    ensures keeps { KeepsHand (fabric_view desk.old.fabric.now) desk.old.hand.now desk.new.hand.now }
    ensures same { IsSameDesk desk.old desk.new }
    ensures no_room { IfNoRoom result (λ told. (refusal ≡ PlaceRefusal.NoRoom told)
        × HoldsLess S.place_of (fabric_view desk.old.fabric.now).shape group.slots desk.old.hand.now desk.new.hand.now) }
{
    if give_group_back(rt, desk.fabric, desk.hand, &terms.view, group) {
        return refusal;
    }
    PlaceRefusal::NoMemory
}
