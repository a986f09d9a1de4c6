//! An item of a seat, from the turn that begins it to the turn that ends it.

ghost use Rattle.std.specs.Prelude.{◌≡◌, ◌≤◌, ◌<◌, ◌+◌, IfSome, true};
ghost use Rattle.turn_cell.specs.Seats.{IsIdleOf, cell_view, seat_view};
ghost use Rattle.engine_history.specs.Steps.{is_item_out};
ghost use Rattle.engine_core.specs.EngineTurns.{ChangesEngine, HasBegun, IsUntouched};
ghost use Rattle.engine_core.specs.EngineView.{NoOtherBegan, jobs_now};
ghost use Rattle.engine_uses.specs.ItemTurns.{BeginsItem, EndsIn, EndsItem, with_ended};

use domains::By;
use engine_core::{End, Engine, Grow, NotOut, Task, Work};
use std::sync::Wait;
use turn_cell::{Seat, TurnCell};

/// Begins an item of the task, in one turn of the seat. `None` if it is not out, or a seat has begun it.
pub fn begin<R: Wait>(
    rt: &R,
    cell: &TurnCell<Engine>,
    seat: &mut Seat<Engine>,
    task: &Task,
    item: u16,
) -> Option<Work>
    requires idle { IsIdleOf (cell_view cell.now) (seat_view seat.old) }
    requires from { task.now.first ≤ item }
    requires to { item < task.now.first + task.now.count }
    ensures idle { IsIdleOf (cell_view cell.now) (seat_view seat.new) }
    ensures number { (seat_view seat.new).number ≡ (seat_view seat.old).number }
    ensures item { IfSome result (λ work. (work.job ≡ task.now.job) × (work.item ≡ item)) }
    ensures exact { BeginsItem (seat_view seat.old) (seat_view seat.new) task.now item result }
    ensures begun { IfSome result (λ work. HasBegun (seat_view seat.new).number (seat_view seat.new).last work.job work.item) }
{
    let mut turn = cell.enter(rt, seat);
    let work = turn.state().begin(task, item);
    turn.leave();
    work
}

/// Looks at the engine in a further turn of a seat that has begun the item. Between the two turns no note has handed it out,
/// progressed it, ended it or given it back, whatever other seats did, and the seat has begun it still.
pub fn look<R: Wait>(rt: &R, cell: &TurnCell<Engine>, seat: &mut Seat<Engine>, work: &Work) -> u32
    requires idle { IsIdleOf (cell_view cell.now) (seat_view seat.old) }
    requires begun { HasBegun (seat_view seat.old).number (seat_view seat.old).last work.now.job work.now.item }
    ensures idle { IsIdleOf (cell_view cell.now) (seat_view seat.new) }
    ensures number { (seat_view seat.new).number ≡ (seat_view seat.old).number }
    ensures begun { HasBegun (seat_view seat.new).number (seat_view seat.new).last work.now.job work.now.item }
    ensures untouched { IsUntouched (seat_view seat.old).last (seat_view seat.new).last work.now.job work.now.item }
{
    let mut turn = cell.enter(rt, seat);
    let entries = turn.state().entries();
    turn.leave();
    entries
}

/// Ends the item in a turn of the seat that has begun it. Until then it is out, whatever other seats do, so the end is
/// refused for want of room alone.
pub fn end<R: Wait>(
    rt: &R,
    cell: &TurnCell<Engine>,
    seat: &mut Seat<Engine>,
    by: By,
    work: &Work,
    end: End,
) -> Result<(), Grow>
    requires idle { IsIdleOf (cell_view cell.now) (seat_view seat.old) }
    requires begun { HasBegun (seat_view seat.old).number (seat_view seat.old).last work.now.job work.now.item }
    ensures idle { IsIdleOf (cell_view cell.now) (seat_view seat.new) }
    ensures number { (seat_view seat.new).number ≡ (seat_view seat.old).number }
    ensures exact { EndsItem (seat_view seat.old) (seat_view seat.new) by work.now.job work.now.item end result }
{
    let mut turn = cell.enter(rt, seat);
    let engine = turn.state();
    let _entries = engine.entries();
    let ended = end_in(engine, by, work, end);
    turn.leave();
    ended
}

/// Ends the item in the turn of a seat that has begun it.
fn end_in(engine: &mut Engine, by: By, work: &Work, end: End) -> Result<(), Grow>
    requires own { NoOtherBegan engine.old work.now.job work.now.item }
    requires out { is_item_out (jobs_now engine.old) work.now.job work.now.item ≡ true }
    ensures changed { ChangesEngine engine.old.log.seat engine.old engine.new }
    ensures ended { EndsIn engine.old engine.new by work.now.job work.now.item end result }
{
    engine.reserve(4)?;
    end_with_room(engine, by, work, end);
    Ok(())
}

/// Ends the item, which is out.
fn end_with_room(engine: &mut Engine, by: By, work: &Work, end: End)
    requires spare { 4 ≤ engine.old.log.spare }
    requires own { NoOtherBegan engine.old work.now.job work.now.item }
    requires out { is_item_out (jobs_now engine.old) work.now.job work.now.item ≡ true }
    ensures { engine.new ≡ with_ended engine.old by work.now.job work.now.item end }
{
    match engine.done(by, work, end) {
        Ok(()) => {}
        Err(NotOut) => unreachable!(),
    }
}
