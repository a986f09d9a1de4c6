//! The play of a scenario by its one actor, over slots from a rack.

ghost use Rattle.std.specs.Prelude.{List, ◌≡◌, ◌<◌, ◌≤◌, ◌^◌, ◌+◌, [], ◌∷◌, length, ◌++◌, IsSome, IfOk, OnOk};
ghost use Rattle.std.specs.Result.{IsErrOf};
ghost use Rattle.flex_io.specs.Faults.{HasRisen};
ghost use Rattle.domains.specs.Level.{two_copies};
ghost use Rattle.board_history.specs.declared.entry.BoardEntry.{BoardEntry};
ghost use Rattle.plain_file.specs.Plain.{AllTell, OneEach, HasRoom};
ghost use Rattle.scenario.specs.declared.op.Op.{Op};
ghost use Rattle.first_form.specs.FirstForm.{IsFirstForm};
ghost use Rattle.report.specs.Script.{HasSerialEpochs};
ghost use Rattle.report.specs.Legal.{IsLegalRunWhere};
ghost use Rattle.flex_run.specs.StockOrder.{PutsBack};
ghost use Rattle.flex_run.specs.RackStates.{rack_state, RisesBy};
ghost use Rattle.flex_run.specs.RunReport.{HasRoomThroughout, LeavesRack};
ghost use Rattle.flex_run.specs.RackFaults.{SlotFailed, RackFailed};
ghost use Rattle.flex_run.specs.Operations.{slots_taken, by_call, MayDo, Does};
ghost use Rattle.flex_run.specs.RunProgress.{EachTells, entries_of, HasLogs, MayGoOn, Leaves};

use crate::slots::{put_all, take_all};
use board_history::BoardEntry;
use domains::{By, Level};
use flex_io::{Fault, Gate, Point, Rack, Slot, Steady};
use lists::List;
use plain_file::{PlainFault, PlainFile, PlainOp, PlainParts, Stock, StockParts};
use report::Logs;
use scenario::{Op, Scenario, Text};
use std::alloc::{AllocError, Global};
use thiserror::Error;

/// Why a play gave up: the rack or a slot failed, or memory ran out.
#[derive(Clone, Copy, Debug, PartialEq, Eq, Error)]
pub enum PlayFault {
    #[error("the rack or a slot failed")]
    Rack,
    #[error("out of memory")]
    NoMemory,
}

impl From<Fault> for PlayFault {
    ghost use Rattle.std.specs.Prelude.{◌≡◌};
    ghost use Rattle.flex_io.specs.declared.fault.Fault.TheVariants.{Failed};
    ghost use Rattle.flex_run.specs.declared.play.PlayFault.TheVariants.{Rack};

    ghost from_gives = { λ fault told. told ≡ Rack → fault ≡ Failed };

    fn from(fault: Fault) -> PlayFault {
        match fault {
            Fault::Failed => PlayFault::Rack,
            Fault::NoMemory => PlayFault::NoMemory,
        }
    }
}

impl From<AllocError> for PlayFault {
    ghost use Rattle.std.specs.Prelude.{◌≡◌};
    ghost use Rattle.flex_run.specs.declared.play.PlayFault.TheVariants.{NoMemory};

    ghost from_gives = { λ _ told. told ≡ NoMemory };

    fn from(_fault: AllocError) -> PlayFault {
        PlayFault::NoMemory
    }
}

impl From<PlainFault> for PlayFault {
    ghost use Rattle.std.specs.Prelude.{◌≡◌};
    ghost use Rattle.plain_file.specs.declared.op.PlainFault.TheVariants.{Slot};
    ghost use Rattle.flex_run.specs.declared.play.PlayFault.TheVariants.{Rack};

    ghost from_gives = { λ fault told. told ≡ Rack → fault ≡ Slot };

    fn from(fault: PlainFault) -> PlayFault {
        match fault {
            PlainFault::Slot => PlayFault::Rack,
            PlainFault::NoMemory => PlayFault::NoMemory,
        }
    }
}

/// Plays a scenario of the first form, and puts all slots back to the rack (docs/ARCHITECTURE.md, "A run"). After a
/// fault of the rack, or out of memory, any number of slots came back.
pub fn play_serial<R: Rack, G: Gate>(
    alloc: Global,
    scenario: Scenario,
    rack: &mut R,
    gate: &G,
) -> Result<Logs, PlayFault>
where
    R::Piece: Steady,
    requires { IsFirstForm scenario }
    ensures scenario { IfOk result (λ logs. logs.scenario ≡ scenario) }
    ensures legal { IfOk result (IsLegalRunWhere (IsSome (R.back rack.old))) }
    ensures serial { IfOk result HasSerialEpochs }
    ensures roomy { IfOk result HasRoomThroughout }
    ensures rack { IfOk result (λ logs. LeavesRack logs (rack_state R.back R.takes R.puts R.faults rack.old) (rack_state R.back R.takes R.puts R.faults rack.new)) }
    ensures fault { IsErrOf result PlayFault.Rack → RackFailed R.Piece.place_of R.Piece.faults scenario.shape
        (rack_state R.back R.takes R.puts R.faults rack.old) (rack_state R.back R.takes R.puts R.faults rack.new) }
    ensures never_falls { R.faults rack.old ≤ R.faults rack.new }
{
    let slots = take_all(alloc, scenario.shape, rack)?;
    let mut stock = Stock::new(alloc, scenario.shape, slots);
    let mut file = PlainFile::new(alloc, scenario.shape, only_level(&scenario));
    play_script(alloc, &scenario, &mut file, &mut stock, gate)?;
    close(alloc, scenario, file, stock, rack)
}

/// Plays the script of the one actor from its begin.
fn play_script<S: Slot + Drop + Steady, G: Gate>(
    alloc: Global,
    scenario: &Scenario,
    file: &mut PlainFile<S>,
    stock: &mut Stock<S>,
    gate: &G,
) -> Result<(), PlainFault>
    requires form { IsFirstForm scenario.now }
    requires file { file.old ≡ record { shape = scenario.now.shape; log = []; units = []; inode = [] } }
    requires left { (script : List Op) → scenario.now.actors ≡ script ∷ [] → MayGoOn S.place_of scenario.now.shape script file.old stock.old }
    requires board { stock.old.board ≡ [] }
    requires begins { Leaves S.place_of S.content scenario.now.shape file.old stock.old file.old stock.old }
    ensures logs { OnOk result ((script : List Op) → scenario.now.actors ≡ script ∷ []
        → HasLogs (EachTells S.content) scenario.now script stock.new.board file.new.log) }
    ensures leaves { OnOk result (Leaves S.place_of S.content scenario.now.shape file.old stock.old file.new stock.new) }
    ensures fault { IsErrOf result PlainFault.Slot → SlotFailed S.place_of S.faults scenario.now.shape }
{
    let script = only_script(scenario);
    let mut call = 0;
    for op in script {
        call += 1;
        play_op(alloc, By { actor: 1, call }, op, file, stock)?;
        gate.pass(Point::AfterDone, 1);
    }
    Ok(())
}

/// The script of the one actor.
fn only_script(scenario: &Scenario) -> &[Op]
    requires { IsFirstForm scenario.now }
    ensures { scenario.now.actors ≡ result.now ∷ [] }
{
    scenario.actors.as_slice()[0].as_slice()
}

/// The level of the one file.
fn only_level(scenario: &Scenario) -> Level
    requires { IsFirstForm scenario.now }
    ensures { result ≡ two_copies }
{
    scenario.files.as_slice()[0].level
}

/// Plays one operation.
fn play_op<S: Slot + Drop + Steady>(
    alloc: Global,
    by: By,
    op: &Op,
    file: &mut PlainFile<S>,
    stock: &mut Stock<S>,
) -> Result<(), PlainFault>
    requires shape { stock.old.shape ≡ file.old.shape }
    requires within { length stock.old.board < 2 ^ 32 }
    requires may { MayDo op.now file.old stock.old }
    requires one_each { OneEach S.place_of file.old stock.old }
    requires room { HasRoom S.place_of (slots_taken op.now) stock.old }
    ensures does { OnOk result (Does op.now S.place_of S.content by (AllTell S.content file.old stock.old) file.old stock.old file.new stock.new) }
    ensures fault { IsErrOf result PlainFault.Slot → SlotFailed S.place_of S.faults stock.old.shape }
{
    match op {
        Op::Create { .. } => file.play(alloc, by, &PlainOp::Create, stock),
        Op::WriteText { text, .. } => {
            let bytes = bytes_of(alloc, text).map_err(|_| PlainFault::NoMemory)?;
            file.play(alloc, by, &PlainOp::Write { bytes }, stock)
        }
        Op::Read { offset, len, .. } => {
            let read = PlainOp::Read {
                offset: *offset,
                len: *len,
            };
            file.play(alloc, by, &read, stock)
        }
        Op::Fail { drive } => match stock.fail(by, *drive) {
            Ok(_effect) => Ok(()),
            Err(AllocError) => Err(PlainFault::NoMemory),
        },
    }
}

/// The bytes of a payload.
fn bytes_of(alloc: Global, text: &Text) -> Result<List<u8>, AllocError>
    ensures { IfOk result (λ bytes. bytes ≡ text.now) }
{
    Ok(List::from_vec(text.as_str().as_bytes().to_vec(alloc)?))
}

/// Puts all slots back, the file's group first, then its inode, the retired slots and the free ones, and returns the logs.
fn close<R: Rack>(
    alloc: Global,
    scenario: Scenario,
    file: PlainFile<R::Piece>,
    stock: Stock<R::Piece>,
    rack: &mut R,
) -> Result<Logs, PlayFault>
where
    R::Piece: Steady,
    ensures logs { IfOk result (λ logs. logs ≡ record { scenario = scenario; board = stock.board; files = entries_of file.log ∷ [] }) }
    ensures back { OnOk result (PutsBack (R.back rack.old) (R.back rack.new) R.Piece.place_of R.Piece.content
        (file.units ++ (file.inode ++ (stock.retired ++ stock.free)))) }
    ensures takes { R.takes rack.new ≡ R.takes rack.old }
    ensures puts { OnOk result (RisesBy (length file.units + (length file.inode + (length stock.retired + length stock.free)))
        (R.puts rack.old) (R.puts rack.new)) }
    ensures fault { IsErrOf result PlayFault.Rack → HasRisen (R.faults rack.old) (R.faults rack.new) }
    ensures never_falls { R.faults rack.old ≤ R.faults rack.new }
{
    let PlainParts { log, units, inode } = file.close(alloc)?;
    let StockParts {
        log: board,
        retired,
        free,
    } = stock.close();
    put_all(rack, units)?;
    put_all(rack, inode)?;
    put_all(rack, retired)?;
    put_all(rack, free)?;
    let mut files = List::new(alloc);
    files.push(log).map_err(|_| PlayFault::NoMemory)?;
    Ok(Logs {
        scenario,
        board,
        files,
    })
}
