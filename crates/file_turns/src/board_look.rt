//! What an actor sees of the board.

ghost use Rattle.std.specs.Prelude.{◌≡◌, ◌≤◌};
ghost use Rattle.fabric.specs.Views.{IsHandOf, fabric_view, number_of};
ghost use Rattle.file_turns.specs.Paths.{SeesBoard};

use board::{View, view};
use fabric::{Fabric, Hand};
use flex_io::Slot;
use std::sync::Wait;

/// What the board shows the hand, of no earlier epoch than this one.
pub fn look_at_board<S: Slot + Send + Drop, R: Wait>(
    rt: &R,
    fabric: &Fabric<S>,
    hand: &mut Hand<S>,
    at_least: u32,
) -> View
    requires { IsHandOf (fabric_view fabric.now) hand.old }
    ensures hand { IsHandOf (fabric_view fabric.now) hand.new }
    ensures number { number_of hand.new ≡ number_of hand.old }
    ensures later { at_least ≤ result.epoch }
    ensures sees { SeesBoard (fabric_view fabric.now) at_least result hand.old hand.new }
{
    view(fabric.board(), rt, &mut hand.board, at_least)
}
