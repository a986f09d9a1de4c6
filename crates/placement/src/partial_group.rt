//! A group whose units are being written.

ghost use Rattle.std.specs.Prelude.{◌≡◌, ℕ, List, true, false, IfOk, IfErr, ◌+◌, ◌<◌, ◌≤◌, length, vec_capacity};
ghost use Rattle.flex_io.specs.Faults.{HasRisen};
ghost use Rattle.flex_io.specs.Slots.{Holds, StaysTold};
ghost use Rattle.domains.specs.Drive.{Drive};
ghost use Rattle.domains.specs.DriveSet.{has};
ghost use Rattle.fabric.specs.Views.{IsHandOf, fabric_view};
ghost use Rattle.placement_order.specs.OrderLaws.{NoneIsLeft};
ghost use Rattle.slot_search.specs.HandSeats.{drives_of_all};
ghost use Rattle.placement.specs.PlacedGroups.{spent_by};
ghost use Rattle.slot_search.specs.Searches.{AsksClosed, KeepsHand, request_of};
ghost use Rattle.placement.specs.PartialGroups.{GoesOn, GoesOnWith, IsAtStage, IsBetweenStages, IsInOrder, IsNewGroup, LosesOnTheWay, NotesFailure, slots_of, slots_with};

use domains::Place;
use fabric::{Fabric, Hand};
use flex_io::{Fault, Slot};
use held_slots::Held;
use slot_search::{Request, Search, draw_all};
use std::alloc::{AllocError, Global};
use std::sync::Wait;

/// The slots of a group by position, as far as they are written, and those that have failed.
pub(crate) struct PartialGroup<S: Slot + Send + Drop> {
    /// Draws the slots. Between draws it has none.
    pub(crate) search: Search<S>,
    /// The slots that are not written yet, the next one last.
    pub(crate) waiting: Vec<Held<S>>,
    pub(crate) written: Vec<Held<S>>,
    pub(crate) failed: Vec<Place>,
}

impl<S: Slot + Send + Drop> PartialGroup<S> {
    /// A group of which nothing is drawn yet, with room for all that may come.
    pub(crate) fn new(alloc: Global, request: &Request) -> Result<PartialGroup<S>, AllocError>
        requires { (d : Drive) → has request.now.barred d ≡ false }
        ensures { IfOk result (λ group. IsNewGroup S.place_of request.now group) }
    {
        let drives = usize::from(request.shape.nodes()) * usize::from(request.shape.drives());
        let failed = Vec::with_capacity(alloc, drives)?;
        let waiting = Vec::with_capacity(alloc, usize::from(request.count))?;
        let Ok(written) = Vec::with_capacity(alloc, usize::from(request.count)) else {
            waiting.destroy_empty();
            return Err(AllocError);
        };
        let Ok(search) = Search::new(alloc, request) else {
            waiting.destroy_empty();
            written.destroy_empty();
            return Err(AllocError);
        };
        Ok(PartialGroup {
            search,
            waiting,
            written,
            failed,
        })
    }

    /// Notes that the slot of this place failed: its drive is none of the group's any more, and spent.
    fn note_failure(&mut self, place: Place)
        requires room { length self.old.failed.items < vec_capacity self.old.failed }
        ensures { NotesFailure place self.old self.new }
    {
        self.search.taken.remove(place.drive());
        self.search.spent.add(place.drive());
        self.failed.push_reserved(place);
    }
}

/// Why a group is not placed.
#[derive(Clone, Copy, Debug, PartialEq, Eq)]
pub(crate) enum PlaceStop {
    NoRoom,
    NoMemory,
}

/// Writes a unit to a slot. A refusal hands the slot back.
pub(crate) fn write<S: Slot>(mut held: Held<S>, unit: &[u8]) -> Result<Held<S>, (Fault, Held<S>)>
    requires { length unit.now ≤ 262144 }
    ensures holds { IfOk result (λ written. Holds (S.content written) unit.now) }
    ensures told { IfOk result (λ written. StaysTold (S.content held) (S.content written)) }
    ensures len { IfOk result (λ written. S.len_of written ≡ length unit.now) }
    ensures place { IfOk result (λ written. S.place_of written ≡ S.place_of held) }
    ensures kept { IfErr result (λ refused. S.place_of refused.1 ≡ S.place_of held) }
    ensures failed { IfErr result (λ refused. refused.0 ≡ Fault.Failed → 0 < S.faults refused.1) }
    ensures rose { IfErr result (λ refused. refused.0 ≡ Fault.Failed → HasRisen (S.faults held) (S.faults refused.1)) }
{
    match held.slot().write(unit) {
        Ok(()) => Ok(held),
        Err(fault) => Err((fault, held)),
    }
}

/// Retires a slot that has failed, and bars its drive. Answers whether it was retired. If that is refused, it is lost.
pub(crate) fn set_aside<S: Slot + Send + Drop, R: Wait>(
    rt: &R,
    fabric: &Fabric<S>,
    hand: &mut Hand<S>,
    request: &Request,
    group: &mut PartialGroup<S>,
    held: Held<S>,
) -> bool
    requires shape { (fabric_view fabric.now).shape ≡ request.now.shape }
    requires hand { IsHandOf (fabric_view fabric.now) hand.old }
    requires in_order { IsInOrder S.place_of request.now group.old (slots_with group.old held) }
    requires stage { IsAtStage S.place_of request.now group.old (slots_with group.old held) }
    requires failed { 0 < S.faults held }
    ensures keeps { KeepsHand (fabric_view fabric.now) hand.old hand.new }
    ensures in_order { IsInOrder S.place_of request.now group.new (slots_of group.new) }
    ensures once { (start : Hand S) → AsksClosed S.place_of request.now.shape group.old.search start hand.old
        → AsksClosed S.place_of request.now.shape group.new.search start hand.new }
    ensures waiting { group.new.waiting.items ≡ group.old.waiting.items }
    ensures written { group.new.written.items ≡ group.old.written.items }
    ensures failed { length group.new.failed.items ≡ length group.old.failed.items + 1 }
    ensures between { IsBetweenStages S.place_of request.now group.new }
    ensures placed { result ≡ true → (units : List (List ℕ))
        → GoesOnWith S.place_of S.content S.len_of S.faults request.now units held group.old group.new hand.old hand.new }
    ensures lost { result ≡ false → (units : List (List ℕ))
        → LosesOnTheWay S.place_of S.content S.len_of S.faults request.now units group.old (slots_with group.old held) group.new hand.old hand.new }
{
    group.note_failure(held.place());
    match fabric.retire(rt, hand, held) {
        Ok(()) => true,
        Err((_error, held)) => {
            held.spend();
            false
        }
    }
}

/// Draws a slot in place of one that failed: of the first drive of the order, where the group's other slots count as used.
/// Answers whether there is one.
pub(crate) fn draw_one<S: Slot + Send + Drop, R: Wait>(
    rt: &R,
    fabric: &Fabric<S>,
    hand: &mut Hand<S>,
    request: &Request,
    group: &mut PartialGroup<S>,
) -> bool
    requires shape { (fabric_view fabric.now).shape ≡ request.now.shape }
    requires hand { IsHandOf (fabric_view fabric.now) hand.old }
    requires in_order { IsInOrder S.place_of request.now group.old (slots_of group.old) }
    requires wanted { length (slots_of group.old) < request.now.count }
    requires between { IsBetweenStages S.place_of request.now group.old }
    ensures keeps { KeepsHand (fabric_view fabric.now) hand.old hand.new }
    ensures in_order { IsInOrder S.place_of request.now group.new (slots_of group.new) }
    ensures once { (start : Hand S) → AsksClosed S.place_of request.now.shape group.old.search start hand.old
        → AsksClosed S.place_of request.now.shape group.new.search start hand.new }
    ensures stage { IsAtStage S.place_of request.now group.new (slots_of group.new) }
    ensures written { group.new.written.items ≡ group.old.written.items }
    ensures failed { group.new.failed.items ≡ group.old.failed.items }
    ensures given { result ≡ true → length group.new.waiting.items ≡ length group.old.waiting.items + 1 }
    ensures none { result ≡ false → (group.new.waiting.items ≡ group.old.waiting.items)
        × NoneIsLeft (request_of request.now) (spent_by group.new.failed.items group.new.search.empty.items) (drives_of_all S.place_of (slots_of group.new)) }
    ensures placed { (units : List (List ℕ))
        → GoesOn S.place_of S.content S.len_of S.faults request.now units group.old group.new hand.old hand.new }
{
    let one = Request {
        used: group.search.taken,
        barred: group.search.spent,
        count: 1,
        ..*request
    };
    draw_all(rt, fabric, hand, &one, &mut group.search);
    let Some(held) = group.search.slots.pop() else {
        return false;
    };
    group.waiting.push_reserved(held);
    true
}
