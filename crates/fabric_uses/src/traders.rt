//! Hands that trade, each on a thread of its own.

ghost use Rattle.std.specs.Prelude.{◌≡◌, ℕ, ◌≤◌, All, [], Some, length, map, slice_get, vec_capacity, IsOk, OnOk};
ghost use Rattle.fabric.specs.ClosedFabric.{AreHandsOf};
ghost use Rattle.fabric.specs.Views.{IsHandOf, fabric_view};
ghost use Rattle.fabric_uses.specs.Traders.{AllDone, AllTraded, Traded};

use crate::trade::trade_each;
use board::View;
use fabric::{Fabric, Hand};
use flex_io::Slot;
use lists::List;
use std::alloc::AllocError;
use std::sync::Wait;
use std::thread::Threads;
use thread_map::map_each;

/// A hand, and whether all its trades went well.
#[derive(Drop)]
pub struct Trader<S: Slot + Send + Drop> {
    pub hand: Hand<S>,
    pub done: Result<(), AllocError>,
}

/// Trades `rounds` times at each drive. At an `Err` a slot is gone.
fn trade_all<S: Slot + Send + Drop, R: Wait>(
    rt: &R,
    fabric: &Fabric<S>,
    view: &View,
    rounds: u32,
    mut trader: Trader<S>,
) -> Trader<S>
    requires { IsHandOf (fabric_view fabric.now) trader.hand }
    ensures { Traded (fabric_view fabric.now) trader result }
{
    for _done in 0..rounds {
        match trade_each(rt, fabric, &mut trader.hand, view) {
            Ok(()) => {}
            Err(error) => {
                let Trader { hand, done: _ } = trader;
                return Trader {
                    hand,
                    done: Err(error),
                };
            }
        }
    }
    let Trader { hand, done: _ } = trader;
    Trader { hand, done: Ok(()) }
}

/// Each trader trades on a thread of its own, `rounds` times at each drive, and all release by one view.
pub fn trade_apart<S: Slot + Send + Drop, R: Threads + Wait + Sync>(
    rt: &R,
    fabric: &Fabric<S>,
    view: &View,
    rounds: u32,
    traders: Vec<Trader<S>>,
) -> Vec<Trader<S>>
    requires { All (λ trader. IsHandOf (fabric_view fabric.now) trader.hand) traders.items }
    ensures traded { AllTraded (fabric_view fabric.now) traders.items result.items }
    ensures hands { AreHandsOf (fabric_view fabric.now) (map (λ trader. trader.hand) traders.items) → AreHandsOf (fabric_view fabric.now) (map (λ trader. trader.hand) result.items) }
{
    map_each(
        rt,
        &move |trader: Trader<S>| -> Trader<S>
            requires { IsHandOf (fabric_view fabric.now) trader.hand }
            ensures { Traded (fabric_view fabric.entry.now) trader result }
        { trade_all(rt, fabric, view, rounds, trader) },
        traders,
    )
}

/// A trader for each hand, in the room of `traders`.
pub(crate) fn into_traders<S: Slot + Send + Drop>(
    hands: List<Hand<S>>,
    mut traders: Vec<Trader<S>>,
) -> Vec<Trader<S>>
    requires none { traders.items ≡ [] }
    requires room { length hands ≤ vec_capacity traders }
    ensures { map (λ trader. trader.hand) result.items ≡ hands }
{
    for hand in hands.into_vec() {
        traders.push_reserved(Trader { hand, done: Ok(()) });
    }
    traders
}

/// The traders' hands, in the room of `hands`, and whether all their trades went well.
pub(crate) fn into_hands<S: Slot + Send + Drop>(
    traders: Vec<Trader<S>>,
    mut hands: Vec<Hand<S>>,
) -> (Vec<Hand<S>>, Result<(), AllocError>)
    requires none { hands.items ≡ [] }
    requires room { length traders.items ≤ vec_capacity hands }
    ensures hands { result.0.items ≡ map (λ trader. trader.hand) traders.items }
    ensures done { OnOk result.1 (AllDone traders.items) }
{
    let mut all = Ok(());
    for trader in traders {
        let Trader { hand, done } = trader;
        hands.push_reserved(hand);
        all = both(all, done);
    }
    (hands, all)
}

/// The first error of the two.
fn both(first: Result<(), AllocError>, second: Result<(), AllocError>) -> Result<(), AllocError>
    ensures { IsOk result → IsOk first × IsOk second }
{
    first?;
    second
}
