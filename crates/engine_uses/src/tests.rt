//! Two threads, each with an item of its own.

ghost use Rattle.std.specs.Prelude.{◌≡◌, IfOk};
ghost use Rattle.turn_cell.specs.Seats.{AreNewSeats, IsIdleOf, cell_view, seat_view};
ghost use Rattle.engine_core.specs.EngineTurns.{ChangesEngine};
ghost use Rattle.engine_core.specs.EngineView.{EngineView};

use crate::{begin, end, look};
use domains::{By, DriveSet, Shape};
use engine_core::{End, Engine, Task};
use job_rules::{JobId, JobKind};
use std::alloc::{AllocError, Global};
use std::sync::Wait;
use std::test::Fail;
use std::thread::{Threads, join};
use turn_cell::{Seat, TurnCell};

const JOB: JobId = JobId { number: 1 };

fn by(actor: u8) -> By {
    By { actor, call: 1 }
}

/// Starts a job, in one turn.
fn start<R: Wait>(rt: &R, cell: &TurnCell<Engine>, seat: &mut Seat<Engine>)
    requires { IsIdleOf (cell_view cell.now) (seat_view seat.old) }
    ensures idle { IsIdleOf (cell_view cell.now) (seat_view seat.new) }
    ensures number { (seat_view seat.new).number ≡ (seat_view seat.old).number }
{
    let mut turn = cell.enter(rt, seat);
    start_in(turn.state());
    turn.leave();
}

fn start_in(engine: &mut Engine)
    ensures { ChangesEngine engine.old.log.seat engine.old engine.new }
{
    if engine.reserve(1).is_err() {
        return;
    }
    if engine.is_started(JOB) {
        return;
    }
    let none = DriveSet::new();
    let _started = engine.start(by(0), JOB, JobKind::SyncCopy, 5, 0, none);
}

/// Hands two items out, in one turn.
fn hand_out<R: Wait>(rt: &R, cell: &TurnCell<Engine>, seat: &mut Seat<Engine>) -> Option<Task>
    requires { IsIdleOf (cell_view cell.now) (seat_view seat.old) }
    ensures idle { IsIdleOf (cell_view cell.now) (seat_view seat.new) }
    ensures number { (seat_view seat.new).number ≡ (seat_view seat.old).number }
{
    let mut turn = cell.enter(rt, seat);
    let task = hand_out_in(turn.state());
    turn.leave();
    task
}

fn hand_out_in(engine: &mut Engine) -> Option<Task>
    ensures { ChangesEngine engine.old.log.seat engine.old engine.new }
{
    if engine.reserve(1).is_err() {
        return None;
    }
    engine.hand_out(by(0), 2).ok()
}

/// Begins the item of the task, looks a hundred times, and ends it; whether it ended.
fn work<R: Wait>(
    rt: &R,
    cell: &TurnCell<Engine>,
    mut seat: Seat<Engine>,
    task: &Task,
    item: u16,
    actor: u8,
) -> (bool, Seat<Engine>)
    requires idle { IsIdleOf (cell_view cell.now) (seat_view seat) }
    ensures idle { IsIdleOf (cell_view cell.now) (seat_view result.1) }
    ensures number { (seat_view result.1).number ≡ (seat_view seat).number }
{
    if item < task.first || u32::from(item) >= u32::from(task.first) + u32::from(task.count) {
        return (false, seat);
    }
    let Some(own) = begin(rt, cell, &mut seat, task, item) else {
        return (false, seat);
    };
    for _look in 0..100 {
        let _entries = look(rt, cell, &mut seat, &own);
    }
    match end(rt, cell, &mut seat, by(actor), &own, End::Whole) {
        Ok(()) => (true, seat),
        Err(_no_room) => (false, seat),
    }
}

/// A cell of an engine with room for its entries, and two seats.
fn open(alloc: Global) -> Result<(TurnCell<Engine>, Vec<Seat<Engine>>), AllocError>
    ensures { IfOk result (λ made. ((cell_view made.0).seats ≡ 2) × ((state : EngineView) × AreNewSeats (cell_view made.0) state made.1.items)) }
{
    let engine = Engine::new(alloc, Shape::new(2, 2, 1, 8), 2, 100)?;
    match TurnCell::new(alloc, engine, 2) {
        Ok(made) => Ok(made),
        Err((error, _engine)) => Err(error),
    }
}

/// Two threads work on an item each: whether each ended, and how many entries there are.
fn work_on_both<R: Threads + Wait + Sync>(
    rt: &R,
    alloc: Global,
) -> Result<(bool, bool, usize), AllocError> {
    let (cell, mut seats) = open(alloc)?;
    let Some(one) = seats.pop() else {
        unreachable!()
    };
    let Some(mut zero) = seats.pop() else {
        unreachable!()
    };
    start(rt, &cell, &mut zero);
    let Some(task) = hand_out(rt, &cell, &mut zero) else {
        return Ok((false, false, 0));
    };
    let shared = &cell;
    let tasked = &task;
    let ((first, zero), (second, one)) = join(
        rt,
        move || -> (bool, Seat<Engine>)
            requires idle { IsIdleOf (cell_view shared.now) (seat_view zero) }
            ensures idle { IsIdleOf (cell_view shared.entry.now) (seat_view result.1) }
            ensures number { (seat_view result.1).number ≡ (seat_view zero).number }
        { work(rt, shared, zero, tasked, 0, 1) },
        move || -> (bool, Seat<Engine>)
            requires idle { IsIdleOf (cell_view shared.now) (seat_view one) }
            ensures idle { IsIdleOf (cell_view shared.entry.now) (seat_view result.1) }
            ensures number { (seat_view result.1).number ≡ (seat_view one).number }
        { work(rt, shared, one, tasked, 1, 2) },
    );
    seats.push_reserved(zero);
    seats.push_reserved(one);
    let engine = cell.close(seats);
    Ok((first, second, engine.close().len()))
}

#[test]
fn two_threads_end_an_item_each(rt: HostRuntime) -> Result<(), Fail> {
    let (first, second, entries) = work_on_both(&rt, rt.alloc())?;
    assert!(rt; first && second);
    // a start, a hand-out, two ends, the end of the phase and the finish
    assert_eq!(rt; entries, 6);
    Ok(())
}
