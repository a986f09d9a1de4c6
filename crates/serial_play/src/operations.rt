//! The operations of all scripts, one after the other.

ghost use Rattle.std.specs.Prelude.{◌≡◌, true, List, [], Some, length, map, OnOk};
ghost use Rattle.std.specs.List.{AllByRecursion};
ghost use Rattle.std.specs.Result.{IsErrOf};
ghost use Rattle.actor_operations.specs.Operations.{IsOpenIn};
ghost use Rattle.actor_operations.specs.declared.stop.Stop.TheVariants.{LogFull};
ghost use Rattle.domains.specs.declared.by.By.{By};
ghost use Rattle.fabric.specs.Views.{IsHandOf, fabric_view, number_of};
ghost use Rattle.legal_runs.specs.Operations.{op_at};
ghost use Rattle.serial_order.specs.SerialOrder.{IsOperation, is_earlier, serial_order};
ghost use Rattle.serial_play.specs.PlayedRuns.{IsPlayableScenario, IsPlayed, IsStoppedFull, KeepsCells, PlaysNext};
ghost use Rattle.whole_scenario.specs.declared.op.Op.{Op};

use actor_operations::{Stop, play_operation};
use domains::By;
use fabric::{Desk, Fabric, Hand};
use file_cells::OpenFile;
use flex_io::{Gate, Point, Slot, Steady};
use std::alloc::Global;
use std::sync::Wait;
use whole_scenario::{Op, Scenario};

/// Does the operations of all scripts in the serial order, by the hand, the only one of its fabric, on the files of the scenario, each
/// alone at its cell. It stops at the first operation that has no entry.
pub(crate) fn play_operations<S: Slot + Steady + Send + Drop, G: Gate, R: Wait>(
    rt: &R,
    alloc: Global,
    scenario: &Scenario,
    order: &[By],
    files: &mut [OpenFile<S>],
    fabric: &Fabric<S>,
    hand: &mut Hand<S>,
    gate: &G,
) -> Result<(), Stop>
    requires order { order.now ≡ serial_order (map length scenario.now.actors) }
    requires playable { IsPlayableScenario scenario.now }
    requires shape { (fabric_view fabric.now).shape ≡ scenario.now.shape }
    requires hand { IsHandOf (fabric_view fabric.now) hand.old }
    requires one { (fabric_view fabric.now).board.seats ≡ 1 }
    requires begins { IsPlayed S.place_of S.content S.len_of scenario.now [] files.old hand.old }
    ensures hand { IsHandOf (fabric_view fabric.now) hand.new }
    ensures number { number_of hand.new ≡ number_of hand.old }
    ensures open { AllByRecursion (IsOpenIn scenario.now.shape) files.new }
    ensures many { length files.new ≡ length files.old }
    ensures played { OnOk result (IsPlayed S.place_of S.content S.len_of scenario.now order.now files.new hand.new) }
    ensures full { IsErrOf result LogFull → IsStoppedFull S.place_of S.content S.len_of scenario.now order.now files.new hand.new }
{
    let mut desk = Desk {
        fabric,
        hand,
        gate,
        by: By { actor: 1, call: 1 },
    };
    play_in_order(rt, alloc, scenario, order, files, &mut desk)
}

/// Does the operations at a desk, each under its own number.
fn play_in_order<S: Slot + Steady + Send + Drop, G: Gate, R: Wait>(
    rt: &R,
    alloc: Global,
    scenario: &Scenario,
    order: &[By],
    files: &mut [OpenFile<S>],
    desk: &mut Desk<'_, S, G>,
) -> Result<(), Stop>
    requires order { order.now ≡ serial_order (map length scenario.now.actors) }
    requires playable { IsPlayableScenario scenario.now }
    requires shape { (fabric_view desk.old.fabric.now).shape ≡ scenario.now.shape }
    requires hand { IsHandOf (fabric_view desk.old.fabric.now) desk.old.hand.now }
    requires one { (fabric_view desk.old.fabric.now).board.seats ≡ 1 }
    requires begins { IsPlayed S.place_of S.content S.len_of scenario.now [] files.old desk.old.hand.now }
    ensures hand { IsHandOf (fabric_view desk.old.fabric.now) desk.new.hand.now }
    ensures number { number_of desk.new.hand.now ≡ number_of desk.old.hand.now }
    ensures same { KeepsCells desk.old desk.new }
    ensures open { AllByRecursion (IsOpenIn scenario.now.shape) files.new }
    ensures many { length files.new ≡ length files.old }
    ensures played { OnOk result (IsPlayed S.place_of S.content S.len_of scenario.now order.now files.new desk.new.hand.now) }
    ensures full { IsErrOf result LogFull → IsStoppedFull S.place_of S.content S.len_of scenario.now order.now files.new desk.new.hand.now }
{
    for by in order {
        play_next(rt, alloc, scenario, *by, files, desk)?;
        desk.gate.pass(Point::AfterDone, by.actor);
    }
    Ok(())
}

/// Does one operation of a script.
fn play_next<S: Slot + Steady + Send + Drop, G: Gate, R: Wait>(
    rt: &R,
    alloc: Global,
    scenario: &Scenario,
    by: By,
    files: &mut [OpenFile<S>],
    desk: &mut Desk<'_, S, G>,
) -> Result<(), Stop>
    requires operation { IsOperation (map length scenario.now.actors) by }
    requires playable { IsPlayableScenario scenario.now }
    requires shape { (fabric_view desk.old.fabric.now).shape ≡ scenario.now.shape }
    requires hand { IsHandOf (fabric_view desk.old.fabric.now) desk.old.hand.now }
    requires one { (fabric_view desk.old.fabric.now).board.seats ≡ 1 }
    requires open { AllByRecursion (IsOpenIn scenario.now.shape) files.old }
    requires many { length files.old ≡ length scenario.now.files }
    ensures hand { IsHandOf (fabric_view desk.old.fabric.now) desk.new.hand.now }
    ensures number { number_of desk.new.hand.now ≡ number_of desk.old.hand.now }
    ensures same { KeepsCells desk.old desk.new }
    ensures open { AllByRecursion (IsOpenIn scenario.now.shape) files.new }
    ensures many { length files.new ≡ length files.old }
    ensures next { (done : List By) (operation : Op) → op_at scenario.now by ≡ Some operation → AllByRecursion (λ (x : By). is_earlier x by ≡ true) done
        → IsPlayed S.place_of S.content S.len_of scenario.now done files.old desk.old.hand.now
        → PlaysNext S.place_of S.content S.len_of result scenario.now done by operation files.new desk.new.hand.now }
{
    desk.by = by;
    play_operation(rt, alloc, op_at(scenario, by), files, desk)
}

/// The operation of this number of a script.
fn op_at(scenario: &Scenario, by: By) -> &Op
    requires { IsOperation (map length scenario.now.actors) by }
    ensures { op_at scenario.now by ≡ Some result.now }
{
    let script = &scenario.actors.as_slice()[usize::from(by.actor) - 1];
    &script.as_slice()[by.call as usize - 1]
}
