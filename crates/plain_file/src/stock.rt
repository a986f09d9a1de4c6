//! The slots of a cluster that no file holds, and the states of its drives.

ghost use Rattle.std.specs.Prelude.{◌≡◌, [], ◌∷◌, ◌++◌, ◌<◌, ◌≤◌, ◌^◌, ℕ, Bool, ◌+◌, true, if◌then◌else◌, length, count_by, vec_len, vec_capacity, IfOk, IfErr, OnOk, OnErr};
ghost use Rattle.std.specs.Result.{IsErrOf};
ghost use Rattle.domains.specs.Shape.{IsShape, is_of};
ghost use Rattle.domains.specs.Drive.{Drive, IsDrive};
ghost use Rattle.domains.specs.Place.{Place, is_place_of};
ghost use Rattle.domains.specs.Level.{two_copies};
ghost use Rattle.domains.specs.Room.{room_of};
ghost use Rattle.domains.specs.DriveSet.{has};
ghost use Rattle.board_history.specs.Board.{effect_of, up_after};
ghost use Rattle.domains.specs.Counts.{one_if};
ghost use Rattle.held_slots.specs.Slots.{place_from, count_at};
ghost use Rattle.plain_file.specs.Slots.{AreOf};
ghost use Rattle.plain_file.specs.FreeOrder.{StandInOrder, HasLowerNumber};
ghost use Rattle.plain_file.specs.Plain.{HasRoom, SortsSlots, HasFailed};
ghost use Rattle.plain_file.specs.Draws.{Draws, SameFree, SameBeside, Releases};
ghost use Rattle.plain_file.specs.Mirrors.{IsMirror};

use crate::drives::mirror_drives;
use crate::op::PlainFault;
use crate::pair::{Pair, write_both};
use crate::pools::{put_on_top, take_top};
use board_history::{BoardEntry, Effect, Order, State};
use domains::{By, DriveId, DriveSet, Level, Shape, TooFew, width};
use flex_io::Slot;
use lists::List;
use std::alloc::{AllocError, Global};
use std::marker::Model;

/// The slots of a cluster that no file holds. Contracts see the board's log, the free slots and the retired ones.
#[derive(Drop)]
pub struct Stock<S: Slot + Drop> {
    shape: Shape,
    board: Vec<BoardEntry>,
    up: DriveSet,
    free: Vec<S>,
    retired: Vec<S>,
}

/// What a stock leaves: the board's log, the retired slots, and the free ones.
#[derive(Drop)]
pub struct StockParts<S: Slot + Drop> {
    pub log: List<BoardEntry>,
    pub retired: List<S>,
    pub free: List<S>,
}

impl<S: Slot + Drop> Model for Stock<S> {
    ghost use Rattle.std.specs.Prelude.{◌-◌, vec_len, vec_capacity};
    ghost use Rattle.plain_file.specs.Plain.{StockView};

    ghost Value = { StockView S };

    ghost use Rattle.plain_file.specs.StockParts.{KeepsStock};

    ghost view = { λ s. record {
      shape = s.shape;
      board = s.board.items;
      free = s.free.items;
      retired = s.retired.items;
      room = vec_capacity s.free - vec_len s.free;
      spare = vec_capacity s.retired - vec_len s.retired;
    } };

    ghost invariant = { λ s. KeepsStock S.place_of s.shape s.board.items s.up s.free.items s.retired.items };
}

impl<S: Slot + Drop> Stock<S> {
    /// The stock of a cluster whose drives are all up. The slots come in drive order, each drive's from the bottom of its
    /// stack to the top, which is given out first.
    pub fn new(alloc: Global, shape: Shape, slots: List<S>) -> Stock<S>
        requires { AreOf S.place_of shape slots }
        ensures { result ≡ record { shape = shape; board = []; free = slots; retired = []; room = result.room; spare = result.spare } }
    {
        Stock {
            shape,
            board: Vec::new(alloc),
            up: DriveSet::all(shape),
            free: slots.into_vec(),
            retired: Vec::new(alloc),
        }
    }

    /// Takes a drive away for good, and writes the order at the end of the board's log.
    pub fn fail(&mut self, by: By, drive: DriveId) -> Result<Effect, AllocError>
        requires { is_of self.old.shape drive ≡ true }
        ensures effect { IfOk result (λ e. e ≡ effect_of self.old.shape self.old.board (Order.Fail drive)) }
        ensures entry { IfOk result (λ e. self.new ≡ record self.old {
          board = self.old.board ++ record { by = by; order = Order.Fail drive; effect = e } ∷ [];
        }) }
        ensures kept { OnErr result (self.new ≡ self.old) }
    {
        let effect = effect_of_loss(self.up, drive);
        self.board.push(BoardEntry {
            by,
            order: Order::Fail(drive),
            effect,
        })?;
        self.up.remove(drive);
        Ok(effect)
    }

    /// The drives that are up.
    pub(crate) fn up(&self) -> DriveSet
        ensures { (d : Drive) → IsDrive d → has result d ≡ up_after self.now.shape self.now.board (length self.now.board) d }
    {
        self.up
    }

    /// How many entries the board's log has.
    pub(crate) fn epoch(&self) -> u32
        requires { length self.now.board < 2 ^ 32 }
        ensures { result ≡ length self.now.board }
    {
        self.board.len() as u32
    }

    /// Whether two nodes have a drive that is up, as a mirror wants.
    pub(crate) fn mirror_room(&self) -> Result<(), TooFew>
        ensures room { OnOk result (2 ≤ room_of two_copies self.now.shape
            (up_after self.now.shape self.now.board (length self.now.board))) }
        ensures too_few { IfErr result (λ e. (e.have ≡ room_of two_copies self.now.shape
            (up_after self.now.shape self.now.board (length self.now.board))) × (e.need ≡ 2) × (e.have < 2)) }
        ensures within { IsShape self.now.shape }
    {
        let _nodes = self.shape.nodes();
        match width(&Level::two_copies(), &self.shape, &self.up) {
            Ok(_) => Ok(()),
            Err(fault) => Err(fault),
        }
    }

    /// Puts the slots of a mirror that was drawn back on top of their drives' stacks.
    pub(crate) fn give_back(&mut self, pair: Pair<S>)
        requires room { 2 ≤ self.old.room }
        requires first { is_place_of self.old.shape (place_from (S.place_of pair.first)) ≡ true }
        requires second { is_place_of self.old.shape (place_from (S.place_of pair.second)) ≡ true }
        ensures moved { (p : S → Bool) → count_by p self.new.free
            ≡ count_by p self.old.free + (one_if (p pair.first) + one_if (p pair.second)) }
        ensures same { SameBeside self.old self.new }
    {
        put_back(&mut self.free, pair);
    }

    /// Makes room for the slots of a mirror among the retired ones.
    pub(crate) fn prepare(&mut self) -> Result<(), AllocError>
        ensures ok { OnOk result (2 ≤ self.new.spare) }
        ensures same { (self.new.shape ≡ self.old.shape) × (self.new.board ≡ self.old.board) × (self.new.free ≡ self.old.free)
            × (self.new.retired ≡ self.old.retired) × (self.new.room ≡ self.old.room) }
    {
        self.retired.reserve(2)
    }

    /// Takes the slots of a mirror back: on top of a drive's stack where it is up, else among the retired ones.
    pub(crate) fn release(&mut self, pair: Pair<S>)
        requires room { 2 ≤ self.old.room }
        requires spare { 2 ≤ self.old.spare }
        requires mirror { IsMirror S.place_of self.old.shape pair }
        ensures { Releases S.place_of self.old self.new pair }
    {
        let Pair { first, second } = pair;
        self.release_slot(first);
        self.release_slot(second);
    }

    fn release_slot(&mut self, slot: S)
        requires room { 1 ≤ self.old.room }
        requires spare { 1 ≤ self.old.spare }
        requires place { is_place_of self.old.shape (place_from (S.place_of slot)) ≡ true }
        ensures moved { (p : S → Bool) → count_by p self.new.free + count_by p self.new.retired
            ≡ (count_by p self.old.free + count_by p self.old.retired) + one_if (p slot) }
        ensures more { (p : S → Bool) → count_by p self.old.free ≤ count_by p self.new.free }
        ensures added { (p : S → Bool) → count_by p self.new.free ≤ count_by p self.old.free + one_if (p slot) }
        ensures sorted { SortsSlots S.place_of self.old self.new }
        ensures ordered { StandInOrder S.place_of self.old.free → HasLowerNumber S.place_of self.old.free slot
            → StandInOrder S.place_of self.new.free }
        ensures shape { self.new.shape ≡ self.old.shape }
        ensures board { self.new.board ≡ self.old.board }
        ensures room_left { self.old.room ≤ self.new.room + 1 }
        ensures spare_left { self.old.spare ≤ self.new.spare + 1 }
    {
        if self.is_live(&slot) {
            put_on_top(&mut self.free, slot);
        } else {
            self.retired.push_reserved(slot);
        }
    }

    /// Whether the drive of a slot is up.
    pub(crate) fn is_live(&self, slot: &S) -> bool
        requires { is_place_of self.now.shape (place_from (S.place_of slot.now)) ≡ true }
        ensures { result ≡ up_after self.now.shape self.now.board (length self.now.board) (place_from (S.place_of slot.now)).drive }
    {
        is_up(self.up, self.shape, slot)
    }

    /// Draws the two slots of a group with this spin, and writes the bytes to both. At an `Err` the slots went back.
    pub(crate) fn draw_mirror(&mut self, spin: u32, bytes: &[u8]) -> Result<Pair<S>, PlainFault>
        requires short { length bytes.now ≤ 262144 }
        requires usable { 2 ≤ room_of two_copies self.old.shape
            (up_after self.old.shape self.old.board (length self.old.board)) }
        requires room { HasRoom S.place_of 1 self.old }
        ensures ok { IfOk result (Draws S.place_of S.content self.old self.new bytes.now) }
        ensures kept { OnErr result (SameFree S.place_of self.old self.new × (self.old.room ≤ self.new.room)) }
        ensures fault { IsErrOf result PlainFault.Slot → HasFailed S.place_of S.faults self.old }
        ensures same { SameBeside self.old self.new }
    {
        let Some((one, two)) = mirror_drives(&self.up, self.shape, spin) else {
            unreachable!()
        };
        let first = take_top(&mut self.free, one);
        let second = take_top(&mut self.free, two);
        let mut pair = Pair { first, second };
        match write_both(&mut pair, bytes) {
            Ok(()) => Ok(pair),
            Err(fault) => {
                put_back(&mut self.free, pair);
                Err(PlainFault::from(fault))
            }
        }
    }

    /// The board's log, the retired slots, and the free ones, which are in drive order, each drive's from the bottom of its
    /// stack.
    pub fn close(self) -> StockParts<S>
        ensures log { result.log ≡ self.board }
        ensures retired { result.retired ≡ self.retired }
        ensures free { result.free ≡ self.free }
    {
        let Stock {
            shape: _,
            board,
            up: _,
            free,
            retired,
        } = self;
        StockParts {
            log: List::from_vec(board),
            retired: List::from_vec(retired),
            free: List::from_vec(free),
        }
    }
}

/// What the loss of a drive does: it changes a drive that is up, and no other.
fn effect_of_loss(up: DriveSet, drive: DriveId) -> Effect
    ensures value { result ≡ (if has up drive then Effect.Changed else Effect.NoChange State.Gone) }
    ensures within { IsDrive drive }
{
    if up.has(drive) {
        Effect::Changed
    } else {
        Effect::NoChange { is: State::Gone }
    }
}

/// Whether the drive of a slot of the cluster is in the set.
fn is_up<S: Slot>(up: DriveSet, shape: Shape, slot: &S) -> bool
    requires { is_place_of shape (place_from (S.place_of slot.now)) ≡ true }
    ensures value { result ≡ has up (place_from (S.place_of slot.now)).drive }
    ensures within { IsDrive (place_from (S.place_of slot.now)).drive }
{
    let _slots = shape.slots();
    let place = slot.place();
    up.has(DriveId::new(place.node, place.drive))
}

/// Puts both slots of a mirror back on top of their drives' stacks. There is memory for them.
fn put_back<S: Slot + Drop>(free: &mut Vec<S>, pair: Pair<S>)
    requires { vec_len free.old + 2 ≤ vec_capacity free.old }
    ensures moved { (p : S → Bool) → count_by p free.new.items
        ≡ count_by p free.old.items + (one_if (p pair.first) + one_if (p pair.second)) }
    ensures len { vec_len free.new ≡ vec_len free.old + 2 }
    ensures capacity { vec_capacity free.old ≤ vec_capacity free.new }
{
    let Pair { first, second } = pair;
    put_on_top(free, second);
    put_on_top(free, first);
}
