//! The play of a whole scenario: the cells are opened, the operations done, and the cells closed.

ghost use Rattle.std.specs.Prelude.{◌≡◌, ◌≤◌, ◌<◌, ◌^◌, ℕ, [], Some, length, map, slice_get, vec_capacity};
ghost use Rattle.std.specs.List.{AllByRecursion};
ghost use Rattle.fabric.specs.ClosedFabric.{AreHandsOf};
ghost use Rattle.fabric.specs.NewFabric.{IsNewHand};
ghost use Rattle.fabric.specs.Views.{fabric_view};
ghost use Rattle.fabric.specs.declared.hand.Hand.{Hand};
ghost use Rattle.file_cells.specs.OpenFiles.{AreNew};
ghost use Rattle.flex_io.specs.Faults.{HasRisen};
ghost use Rattle.returned_slots.specs.RackStates.{rack_state};
ghost use Rattle.serial_order.specs.SerialOrder.{serial_order};
ghost use Rattle.serial_play.specs.Outcomes.{PlayTells, outcome_of};
ghost use Rattle.serial_play.specs.PlayedRuns.{IsPlayableScenario, log_room};
ghost use Rattle.serial_play.specs.RunEnds.{LeavesRack, ReturnsSlots};
ghost use Rattle.serial_play.specs.declared.logs.RunLogs.{RunLogs};
ghost use Rattle.striped_groups.specs.StoredGroups.{AllTell};

use crate::cells::{Cells, close_cells};
use crate::logs::{PlayFault, RunLogs, fault_of};
use crate::operations::play_operations;
use actor_operations::Stop;
use domains::By;
use fabric::Fabric;
use file_cells::open_files;
use flex_io::{Fault, Gate, Rack, Steady};
use lists::List;
use returned_slots::close_fabric;
use serial_order::serial_order;
use std::alloc::{AllocError, Global};
use std::sync::Wait;
use whole_scenario::Scenario;

/// The most entries of a log (docs/FORMATS.md, "Limits").
const LOG_ROOM: u32 = 4_194_304;

/// Plays the scenario on one thread, by one hand, and puts all slots back to the rack.
pub fn play_serial<R: Rack, G: Gate, W: Wait>(
    rt: &W,
    alloc: Global,
    scenario: &Scenario,
    rack: &mut R,
    gate: &G,
) -> Result<RunLogs, PlayFault>
where
    R::Piece: Steady,
    requires playable { IsPlayableScenario scenario.now }
    requires files { length scenario.now.files ≤ 65535 }
    requires actors { length scenario.now.actors ≤ 255 }
    requires calls { AllByRecursion (λ script. length script < 2 ^ 32) scenario.now.actors }
    ensures tells { PlayTells (AllTell R.Piece.content)
        (λ (logs : RunLogs). LeavesRack R.Piece.place_of R.Piece.content scenario.now logs.board logs.files
        (rack_state R.back R.takes R.puts R.faults rack.old) (rack_state R.back R.takes R.puts R.faults rack.new))
        (HasRisen (R.faults rack.old) (R.faults rack.new)) scenario.now result }
    ensures never_falls { R.faults rack.old ≤ R.faults rack.new }
{
    let order = serial_order(alloc, scenario.actors.as_slice())?;
    let logs = Vec::with_capacity(alloc, scenario.files.len())?;
    let (fabric, hands) = Fabric::open(alloc, scenario.shape, rack, 1, LOG_ROOM)?;
    match open_files(alloc, scenario.shape, scenario.files.as_slice(), LOG_ROOM) {
        Ok(files) => {
            let cells = Cells {
                fabric,
                hands,
                files,
                logs,
            };
            play_on(rt, alloc, scenario, order.as_slice(), cells, rack, gate)
        }
        Err(AllocError) => {
            let _closed = close_fabric(fabric, hands, rack);
            Err(PlayFault::NoMemory)
        }
    }
}

/// Does the operations on the open cells, and closes these.
fn play_on<R: Rack, G: Gate, W: Wait>(
    rt: &W,
    alloc: Global,
    scenario: &Scenario,
    order: &[By],
    cells: Cells<R::Piece>,
    rack: &mut R,
    gate: &G,
) -> Result<RunLogs, PlayFault>
where
    R::Piece: Steady,
    requires order { order.now ≡ serial_order (map length scenario.now.actors) }
    requires playable { IsPlayableScenario scenario.now }
    requires few { length scenario.now.files ≤ 65535 }
    requires shape { (fabric_view cells.fabric).shape ≡ scenario.now.shape }
    requires one { (fabric_view cells.fabric).hands ≡ 1 }
    requires hands { AreHandsOf (fabric_view cells.fabric) cells.hands }
    requires hand { (k : ℕ) (hand : Hand R.Piece) → slice_get cells.hands k ≡ Some hand → IsNewHand R.Piece.place_of scenario.now.shape log_room hand }
    requires files { AreNew R.Piece.place_of R.Piece.content R.Piece.len_of scenario.now.shape log_room scenario.now.files 0 cells.files }
    requires none { cells.logs.items ≡ [] }
    requires space { length cells.files ≤ vec_capacity cells.logs }
    ensures tells { PlayTells (AllTell R.Piece.content)
        (λ (logs : RunLogs). ReturnsSlots R.Piece.place_of R.Piece.content scenario.now logs.board logs.files
        (rack_state R.back R.takes R.puts R.faults rack.old) (rack_state R.back R.takes R.puts R.faults rack.new))
        (HasRisen (R.faults rack.old) (R.faults rack.new)) scenario.now result }
    ensures never_falls { R.faults rack.old ≤ R.faults rack.new }
{
    let Cells {
        fabric,
        hands,
        files,
        logs,
    } = cells;
    let mut hands = hands.into_vec();
    let Some(mut hand) = hands.pop() else {
        unreachable!()
    };
    let mut files = files.into_vec();
    let played = play_operations(
        rt, alloc, scenario, order, &mut files, &fabric, &mut hand, gate,
    );
    hands.push_reserved(hand);
    let cells = Cells {
        fabric,
        hands: List::from_vec(hands),
        files: List::from_vec(files),
        logs,
    };
    let (logs, put) = close_cells(cells, rack);
    outcome(played, put, logs)
}

/// What the run answers.
fn outcome(
    played: Result<(), Stop>,
    put: Result<(), Fault>,
    logs: RunLogs,
) -> Result<RunLogs, PlayFault>
    ensures { result ≡ outcome_of played put logs }
{
    put.map_err(fault_of)?;
    match played {
        Ok(()) => Ok(logs),
        Err(Stop::LogFull) => Err(PlayFault::LogFull { logs }),
        Err(Stop::NoMemory) => Err(PlayFault::NoMemory),
    }
}
