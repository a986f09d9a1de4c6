//! Tests.

use crate::first_illegal_order;
use board::{BoardEntry, Effect, Order, State};
use domains::{By, DriveId, Shape};
use lists::List;
use operation_text::DriveOrder;
use std::alloc::{AllocError, Global};
use whole_scenario::{Op, Scenario};

/// A cluster of two drives, whose one client orders the first of them down twice.
fn two_orders(alloc: Global) -> Result<Scenario, AllocError> {
    let mut script = Vec::with_capacity(alloc, 2)?;
    script.push(down()).map_err(|_| AllocError)?;
    script.push(down()).map_err(|_| AllocError)?;
    let mut actors = Vec::with_capacity(alloc, 1)?;
    actors.push(List::from_vec(script)).map_err(|_| AllocError)?;
    Ok(Scenario {
        shape: Shape::new(2, 1, 16, 8),
        workers: 1,
        files: List::new(alloc),
        jobs: List::new(alloc),
        actors: List::from_vec(actors),
    })
}

fn down() -> Op {
    Op::OnDrive {
        order: DriveOrder::Down,
        drive: DriveId::new(1, 1),
    }
}

fn entry(call: u32, effect: Effect) -> BoardEntry {
    BoardEntry {
        by: By { actor: 1, call },
        order: Order::Down(DriveId::new(1, 1)),
        effect,
    }
}

#[test]
fn an_order_that_changes_nothing_says_so(rt: HostRuntime) -> Result<(), AllocError> {
    let scenario = two_orders(rt.alloc())?;
    let same = Effect::NoChange { is: State::Down };
    let legal = [entry(1, Effect::Changed), entry(2, same)];
    assert!(rt; first_illegal_order(rt.alloc(), &scenario, &legal)?.is_none());
    let broken = [entry(1, Effect::Changed), entry(2, Effect::Changed)];
    assert!(rt; first_illegal_order(rt.alloc(), &scenario, &broken)? == Some(2));
    let foreign = [entry(3, Effect::Changed)];
    assert!(rt; first_illegal_order(rt.alloc(), &scenario, &foreign)? == Some(1));
    Ok(())
}
