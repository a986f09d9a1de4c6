//! The present states of a cluster's drives, kept beside the log that makes them.

ghost use Rattle.std.specs.Prelude.{◌≡◌, ℕ, ◌<◌, ◌≤◌, Bool, true, false, IsTrue, ◌&&◌, ◌||◌, List, [], ◌∷◌, ◌++◌, if◌then◌else◌, ◌==◌, nat_le};
ghost use Rattle.domains.specs.Drive.{Drive, IsDrive, same_drive};
ghost use Rattle.domains.specs.Shape.{IsShape};
ghost use Rattle.domains.specs.DriveSet.{has};
ghost use Rattle.board_history.specs.Board.{IsWithin, change_of, effect_of, is_gone, is_up, lowered, raised};
ghost use Rattle.board.specs.DriveStates.{HasStates, all_in, state_in};

use crate::transitions::{change, lowered, raised};
use board_history::{BoardEntry, Effect, Order, State};
use domains::{DriveId, DriveSet, NodeId, Shape};

/// The drives that are up and those that are gone. Each other drive of the cluster is down.
#[derive(Clone, Copy)]
pub struct DriveStates {
    pub up: DriveSet,
    pub gone: DriveSet,
}

impl DriveStates {
    pub fn of(&self, drive: DriveId) -> State
        ensures value { result ≡ state_in self.now drive }
        ensures within { IsDrive drive }
    {
        if self.gone.has(drive) {
            State::Gone
        } else if self.up.has(drive) {
            State::Up
        } else {
            State::Down
        }
    }

    /// Carries out an order.
    pub fn give(&mut self, shape: Shape, order: &Order) -> Effect
        requires within { IsWithin shape order.now }
        ensures effect { (log : List BoardEntry) → HasStates shape log self.old → result ≡ effect_of shape log order.now }
        ensures states { (log : List BoardEntry) (entry : BoardEntry) → entry.order ≡ order.now → HasStates shape log self.old
            → HasStates shape (log ++ entry ∷ []) self.new }
    {
        match *order {
            Order::Fail(drive) => self.put(drive, State::Gone),
            Order::FailNode(node) => self.lose(node, shape),
            Order::Down(drive) => self.put(drive, lowered(self.of(drive))),
            Order::Up(drive) => self.put(drive, raised(self.of(drive))),
        }
    }

    /// Gives the drive this state.
    fn put(&mut self, drive: DriveId, now: State) -> Effect
        ensures effect { result ≡ change_of (state_in self.old drive) now }
        ensures up { (d : Drive) → IsDrive d → has self.new.up d ≡ (if same_drive d drive then is_up now else has self.old.up d) }
        ensures gone { (d : Drive) → IsDrive d → has self.new.gone d ≡ (if same_drive d drive then is_gone now else has self.old.gone d) }
        ensures within { IsDrive drive }
    {
        let was = self.of(drive);
        match now {
            State::Up => {
                self.up.add(drive);
                self.gone.remove(drive);
            }
            State::Down => {
                self.up.remove(drive);
                self.gone.remove(drive);
            }
            State::Gone => {
                self.up.remove(drive);
                self.gone.add(drive);
            }
        }
        change(was, now)
    }

    /// All drives of the node are gone.
    fn lose(&mut self, node: NodeId, shape: Shape) -> Effect
        ensures effect { result ≡ (if all_in shape.drives node self.old.gone then Effect.NoChange State.Gone else Effect.Changed) }
        ensures up { (d : Drive) → IsDrive d → has self.new.up d ≡ (if (d.node == node) && nat_le d.drive shape.drives then false else has self.old.up d) }
        ensures gone { (d : Drive) → IsDrive d → has self.new.gone d ≡ (if (d.node == node) && nat_le d.drive shape.drives then true else has self.old.gone d) }
        ensures cluster { IsShape shape }
    {
        let all = all_gone(node, shape.drives(), &self.gone);
        for drive in 0..shape.drives() {
            let lost = DriveId::new(node.number(), drive + 1);
            self.up.remove(lost);
            self.gone.add(lost);
        }
        if all {
            Effect::NoChange { is: State::Gone }
        } else {
            Effect::Changed
        }
    }
}

/// Whether the node's first `drives` drives are all gone.
fn all_gone(node: NodeId, drives: u8, gone: &DriveSet) -> bool
    requires { drives ≤ 16 }
    ensures { result ≡ all_in drives node gone.now }
{
    for drive in 0..drives {
        if !gone.has(DriveId::new(node.number(), drive + 1)) {
            return false;
        }
    }
    true
}
