//! What an order does to the state of one drive.

ghost use Rattle.std.specs.Prelude.{◌≡◌};
ghost use Rattle.domains.specs.Drive.{same_drive};
ghost use Rattle.board_history.specs.Board.{after_order, change_of, lowered, raised};

use board_history::{Effect, Order, State};
use domains::DriveId;

/// The state of the drive after an order, which was `was` before.
pub fn after_order(order: Order, drive: DriveId, was: State) -> State
    ensures { result ≡ after_order order drive was }
{
    match order {
        Order::Fail(lost) if is_same(lost, drive) => State::Gone,
        Order::FailNode(lost) if lost.number() == drive.node() => State::Gone,
        Order::Down(named) if is_same(named, drive) => lowered(was),
        Order::Up(named) if is_same(named, drive) => raised(was),
        Order::Fail(_) | Order::FailNode(_) | Order::Down(_) | Order::Up(_) => was,
    }
}

fn is_same(one: DriveId, other: DriveId) -> bool
    ensures { result ≡ same_drive one other }
{
    one.node() == other.node() && one.drive() == other.drive()
}

/// A drive that is up goes down.
pub fn lowered(was: State) -> State
    ensures { result ≡ lowered was }
{
    match was {
        State::Up | State::Down => State::Down,
        State::Gone => State::Gone,
    }
}

/// A drive that is down comes up.
pub fn raised(was: State) -> State
    ensures { result ≡ raised was }
{
    match was {
        State::Up | State::Down => State::Up,
        State::Gone => State::Gone,
    }
}

/// The effect of an order that finds the state `was` and leaves `now`.
pub fn change(was: State, now: State) -> Effect
    ensures { result ≡ change_of was now }
{
    if was == now {
        Effect::NoChange { is: was }
    } else {
        Effect::Changed
    }
}
