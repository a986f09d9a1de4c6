//! The ghost state of a cell: what each seat knows, the rule that ties it to the value, and what each step tells.

ghost use Rattle.std.specs.Prelude.{ℕ};

use crate::chronicle::Chronicle;
use atomic_table::{Join, Play, Split, TableRule};
use std::collections::LinkedList;
use std::marker::PhantomData;
use std::snapshot::Snapshot;

/// A seat is in no turn, waits with a ticket, or has the value that it found at its ticket.
pub enum Hold<S> {
    Free,
    Waits(u64),
    Has(u64, S),
}

/// What a seat knows. It exists in proofs alone.
pub struct Known<S> {
    pub number: u8,
    pub seats: u8,
    /// For seat 0: how many seats were made.
    pub dealt: u64,
    /// How many turns it knows to have passed.
    pub turns: u64,
    /// The state that its last turn left; before its first turn, the cell's first state.
    pub last: S,
    pub hold: Hold<S>,
    /// The seats that it took in at the close, each with its last state.
    pub joined: LinkedList<(u64, S)>,
}

/// A seat's view. Once another seat has taken it in, its view is spent.
pub enum View<S> {
    Active(Known<S>),
    Spent,
}

/// What a cell is made from: the number of its seats and its first state.
#[derive(Drop)]
pub struct Origin<S> {
    pub seats: u8,
    pub state: Snapshot<S>,
}

/// The rule of the cell (`specs/CellRule.antt`).
pub struct InTurns<S> {
    state: PhantomData<S>,
}

impl<S: Chronicle> TableRule<Option<S>, View<S>, Origin<S>> for InTurns<S> {
    ghost use Rattle.turn_cell.specs.CellRule.{MeetsRule, first_view};

    ghost holds = { λ key. MeetsRule S.turns_of S.notes_of S.tally_of S.fixed_of key.seats key.state.value };

    ghost first = { λ key. first_view key.seats key.state.value };
}

/// The seat draws a ticket, and the next ticket is one more.
pub struct Draw;

impl<S> Play<Option<S>, View<S>> for Draw {
    ghost use Rattle.turn_cell.specs.StepOutcomes.{drew};

    ghost then = { drew };
}

/// If the seat's ticket is served, the seat takes the value.
pub struct Take;

impl<S: Chronicle> Play<Option<S>, View<S>> for Take {
    ghost use Rattle.turn_cell.specs.StepOutcomes.{took};

    ghost then = { took S.turns_of S.notes_of S.tally_of S.fixed_of };
}

/// The seat puts the value back, and the next ticket is served.
pub struct Advance;

impl<S: Chronicle> Play<Option<S>, View<S>> for Advance {
    ghost use Rattle.turn_cell.specs.StepOutcomes.{advanced};

    ghost then = { advanced };
}

/// The seat learns how many turns have passed.
pub struct Look;

impl<S> Play<Option<S>, View<S>> for Look {
    ghost use Rattle.turn_cell.specs.StepOutcomes.{looked};

    ghost then = { looked };
}

/// Seat 0 makes the seat with the next number.
pub struct Deal;

impl<S> Split<View<S>> for Deal {
    ghost use Rattle.turn_cell.specs.CellRule.{dealer, newcomer};

    ghost left = { dealer };

    ghost right = { newcomer };
}

/// Seat 0 takes in another seat at the close.
pub struct TakeIn;

impl<S> Join<View<S>> for TakeIn {
    ghost use Rattle.turn_cell.specs.declared.view.View.TheVariants.{Spent};
    ghost use Rattle.turn_cell.specs.CellRule.{taken_in};

    ghost both = { taken_in };

    ghost spent = { Spent };
}
