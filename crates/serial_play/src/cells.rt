//! The cells of a run, and their close.

ghost use Rattle.std.specs.Prelude.{◌≡◌, ◌≤◌, [], ◌∷◌, length, vec_capacity};
ghost use Rattle.std.specs.List.{AllByRecursion};
ghost use Rattle.fabric.specs.ClosedFabric.{AreHandsOf};
ghost use Rattle.fabric.specs.Views.{fabric_view};
ghost use Rattle.fabric.specs.declared.hand.Hand.{Hand};
ghost use Rattle.file_cells.specs.OpenFiles.{IsOpen};
ghost use Rattle.returned_slots.specs.RackStates.{rack_state};
ghost use Rattle.serial_play.specs.Outcomes.{EndsCells};

use crate::logs::RunLogs;
use fabric::{Fabric, Hand};
use file_cells::{OpenFile, close_files};
use file_history::FileLog;
use flex_io::{Fault, Rack, Slot};
use lists::List;
use returned_slots::close_fabric;

/// The open cells of a run, with the one hand of the fabric, and the room for the logs of the files.
pub(crate) struct Cells<S: Slot + Send + Drop> {
    pub fabric: Fabric<S>,
    pub hands: List<Hand<S>>,
    pub files: List<OpenFile<S>>,
    pub logs: Vec<FileLog>,
}

/// Closes the cells, and puts all slots back: file by file, and then those of the fabric. It waits for nobody.
pub(crate) fn close_cells<S: Slot + Send + Drop, R: Rack<Piece = S>>(
    cells: Cells<S>,
    rack: &mut R,
) -> (RunLogs, Result<(), Fault>)
    requires hands { AreHandsOf (fabric_view cells.fabric) cells.hands }
    requires open { AllByRecursion IsOpen cells.files }
    requires none { cells.logs.items ≡ [] }
    requires space { length cells.files ≤ vec_capacity cells.logs }
    ensures { (hand : Hand S) → cells.hands ≡ hand ∷ []
        → EndsCells S.place_of S.content (fabric_view cells.fabric).shape hand cells.files result.0.board result.0.files result.1
        (rack_state R.back R.takes R.puts R.faults rack.old) (rack_state R.back R.takes R.puts R.faults rack.new) }
{
    let Cells {
        fabric,
        hands,
        files,
        logs,
    } = cells;
    let (files, returned) = close_files(files, logs, rack);
    let (board, freed) = close_fabric(fabric, hands, rack);
    let board = board.close();
    (RunLogs { board, files }, returned.and(freed))
}
