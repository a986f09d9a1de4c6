//! A search for slots, drive by drive in the order of placement.

ghost use Rattle.std.specs.Prelude.{◌≡◌, ℕ, List, [], ◌∷◌, ◌++◌, true, false, not, ◌&&◌, ◌<◌, ◌≤◌, length, IfOk};
ghost use Rattle.domains.specs.Drive.{Drive};
ghost use Rattle.domains.specs.DriveSet.{has};
ghost use Rattle.fabric.specs.Views.{IsHandOf, fabric_view};
ghost use Rattle.placement_order.specs.Order.{nodes_of, visits_in, visits_of};
ghost use Rattle.slot_search.specs.Searches.{DrawsFirst, GivesSlot, IsBefore, IsNew, IsSearch, IsSpentNow, KeepsSearch, MayTry, is_closed, request_of};

use crate::empty_at::EmptyAt;
use crate::request::{Request, drives_on};
use domains::{DriveId, DriveSet};
use fabric::{Fabric, Hand};
use flex_io::Slot;
use held_slots::{Empty, Held};
use std::alloc::{AllocError, Global};
use std::sync::Wait;

/// What a search has found so far.
pub struct Search<S: Slot + Send + Drop> {
    /// The drives that the group uses, with those of the slots.
    pub taken: DriveSet,
    /// The drives that are barred or were found empty.
    pub spent: DriveSet,
    pub slots: Vec<Held<S>>,
    pub empty: Vec<EmptyAt>,
}

impl<S: Slot + Send + Drop> Search<S> {
    /// A search that has found nothing yet, with room for all that it may find.
    pub fn new(alloc: Global, request: &Request) -> Result<Search<S>, AllocError>
        requires { (d : Drive) → has request.now.barred d ≡ false }
        ensures { IfOk result (λ search. IsNew S.place_of request.now search) }
    {
        let drives = usize::from(request.shape.nodes()) * usize::from(request.shape.drives());
        let empty = Vec::with_capacity(alloc, drives)?;
        let slots = Vec::with_capacity(alloc, usize::from(request.count))?;
        Ok(Search {
            taken: request.used,
            spent: request.barred,
            slots,
            empty,
        })
    }
}

/// Makes all visits, round by round.
pub fn draw_all<S: Slot + Send + Drop, R: Wait>(
    rt: &R,
    fabric: &Fabric<S>,
    hand: &mut Hand<S>,
    request: &Request,
    search: &mut Search<S>,
)
    requires shape { (fabric_view fabric.now).shape ≡ request.now.shape }
    requires hand { IsHandOf (fabric_view fabric.now) hand.old }
    requires search { IsSearch S.place_of request.now search.old }
    ensures keeps { KeepsSearch S.place_of (fabric_view fabric.now) request.now search.old search.new hand.old hand.new }
    ensures order { (before : List Drive) → IsBefore S.place_of request.now before (visits_of (request_of request.now)) search.old
        → IsBefore S.place_of request.now before [] search.new }
{
    for round in 0..request.level.k() {
        draw_round(rt, fabric, hand, request, search, round + 1);
    }
}

/// Visits all nodes once, from the one that the spin falls on.
fn draw_round<S: Slot + Send + Drop, R: Wait>(
    rt: &R,
    fabric: &Fabric<S>,
    hand: &mut Hand<S>,
    request: &Request,
    search: &mut Search<S>,
    round: u8,
)
    requires shape { (fabric_view fabric.now).shape ≡ request.now.shape }
    requires hand { IsHandOf (fabric_view fabric.now) hand.old }
    requires search { IsSearch S.place_of request.now search.old }
    ensures keeps { KeepsSearch S.place_of (fabric_view fabric.now) request.now search.old search.new hand.old hand.new }
    ensures order { (before : List Drive) (rest : List (ℕ × ℕ)) → IsBefore S.place_of request.now before (visits_in round (nodes_of (request_of request.now)) ++ rest) search.old
        → IsBefore S.place_of request.now before rest search.new }
{
    for step in 0..request.shape.nodes() {
        visit(rt, fabric, hand, request, search, round, request.node(step));
    }
}

/// Visits a node: its first open drive whose pool has a free slot gives one, where the node has fewer units than the
/// number of the round.
fn visit<S: Slot + Send + Drop, R: Wait>(
    rt: &R,
    fabric: &Fabric<S>,
    hand: &mut Hand<S>,
    request: &Request,
    search: &mut Search<S>,
    round: u8,
    node: u8,
)
    requires shape { (fabric_view fabric.now).shape ≡ request.now.shape }
    requires some { 1 ≤ node }
    requires within { node ≤ request.now.shape.nodes }
    requires hand { IsHandOf (fabric_view fabric.now) hand.old }
    requires search { IsSearch S.place_of request.now search.old }
    ensures keeps { KeepsSearch S.place_of (fabric_view fabric.now) request.now search.old search.new hand.old hand.new }
    ensures order { (before : List Drive) (rest : List (ℕ × ℕ)) → IsBefore S.place_of request.now before ((round, node) ∷ rest) search.old
        → IsBefore S.place_of request.now before rest search.new }
{
    if search.slots.len() >= usize::from(request.count) {
        return;
    }
    if drives_on(request.shape, node, &search.taken) >= round {
        return;
    }
    draw_on_node(rt, fabric, hand, request, search, node);
}

/// Draws a slot of the node's first open drive whose pool has a free one.
fn draw_on_node<S: Slot + Send + Drop, R: Wait>(
    rt: &R,
    fabric: &Fabric<S>,
    hand: &mut Hand<S>,
    request: &Request,
    search: &mut Search<S>,
    node: u8,
)
    requires shape { (fabric_view fabric.now).shape ≡ request.now.shape }
    requires some { 1 ≤ node }
    requires within { node ≤ request.now.shape.nodes }
    requires hand { IsHandOf (fabric_view fabric.now) hand.old }
    requires search { IsSearch S.place_of request.now search.old }
    requires wanted { length search.old.slots.items < request.now.count }
    ensures keeps { KeepsSearch S.place_of (fabric_view fabric.now) request.now search.old search.new hand.old hand.new }
    ensures first { DrawsFirst S.place_of request.now node search.old search.new }
{
    for step in 0..request.shape.drives() {
        let drive = request.drive(node, step);
        if is_open(request, search, drive) && draw_on(rt, fabric, hand, request, search, drive) {
            return;
        }
    }
}

/// Whether the drive may give the group a slot, as far as is known.
fn is_open<S: Slot + Send + Drop>(request: &Request, search: &Search<S>, drive: DriveId) -> bool
    ensures { result ≡ ((has request.now.allowed drive && has request.now.up drive) && not (is_closed search.now drive)) }
{
    let closed = search.taken.has(drive) || search.spent.has(drive);
    request.allowed.has(drive) && request.up.has(drive) && !closed
}

/// Draws a slot of a drive, if its pool has a free one.
fn draw_on<S: Slot + Send + Drop, R: Wait>(
    rt: &R,
    fabric: &Fabric<S>,
    hand: &mut Hand<S>,
    request: &Request,
    search: &mut Search<S>,
    drive: DriveId,
) -> bool
    requires shape { (fabric_view fabric.now).shape ≡ request.now.shape }
    requires hand { IsHandOf (fabric_view fabric.now) hand.old }
    requires search { IsSearch S.place_of request.now search.old }
    requires may { MayTry S.place_of request.now search.old drive }
    ensures keeps { KeepsSearch S.place_of (fabric_view fabric.now) request.now search.old search.new hand.old hand.new }
    ensures given { result ≡ true → GivesSlot S.place_of drive search.old search.new }
    ensures none { result ≡ false → IsSpentNow request.now.shape drive search.old search.new }
{
    match fabric.draw(rt, hand, drive) {
        Ok(held) => {
            search.taken.add(drive);
            search.slots.push_reserved(held);
            true
        }
        Err(Empty { turn }) => {
            search.spent.add(drive);
            search.empty.push_reserved(EmptyAt { drive, turn });
            false
        }
    }
}
