//! A run without writes, of two actors on two files.

ghost use Rattle.std.specs.Prelude.{◌≡◌, ◌<◌, ◌≤◌, ◌^◌, IfOk, length};
ghost use Rattle.std.specs.List.{AllByRecursion};
ghost use Rattle.serial_play.specs.PlayedRuns.{IsPlayableScenario};
ghost use Rattle.whole_scenario.specs.declared.op.Op.TheVariants.{OnFile};

use domains::{DriveId, Level, Shape};
use flex_io::{OpenGate, RawPlace, SureRack};
use lists::List;
use operation_text::{DriveOrder, FileAction};
use report::{write_board, write_files};
use scenario::{FileDecl, Name};
use serial_play::play_serial;
use std::alloc::{AllocError, Global};
use std::test::Fail;
use whole_scenario::{Op, Scenario};

/// An action on the file of this number.
fn on(file: u16, action: FileAction) -> Op
    ensures { result ≡ OnFile file action }
{
    Op::OnFile { file, action }
}

/// Two actors on two files, over three nodes of one drive. The first requests this level.
fn two_actors(alloc: Global, files: List<FileDecl>, level: Level) -> Result<Scenario, AllocError>
    requires { length files ≡ 2 }
    ensures playable { IfOk result IsPlayableScenario }
    ensures files { IfOk result (λ s. length s.files ≡ 2) }
    ensures actors { IfOk result (λ s. length s.actors ≡ 2) }
    ensures calls { IfOk result (λ s. AllByRecursion (λ script. length script < 2 ^ 32) s.actors) }
{
    let first = vec![in alloc;
        on(0, FileAction::Create),
        on(0, FileAction::SetLevel { level }),
        Op::OnDrive {
            order: DriveOrder::Fail,
            drive: DriveId::new(1, 1),
        },
        on(0, FileAction::Delete),
    ]?;
    let second = vec![in alloc;
        on(0, FileAction::Read { offset: 0, len: 5 }),
        on(0, FileAction::Read { offset: 0, len: 5 }),
        on(1, FileAction::Delete),
    ]?;
    let actors = vec![in alloc; List::from_vec(first), List::from_vec(second)]?;
    Ok(Scenario {
        shape: Shape::new(3, 1, 16, 8),
        workers: 1,
        files,
        jobs: List::new(alloc),
        actors: List::from_vec(actors),
    })
}

/// The file of this name, with two copies.
fn declared(alloc: Global, name: &str) -> Result<FileDecl, Fail> {
    let name = Name::new(String::from_str(alloc, name)?).ok_or("a name")?;
    Ok(FileDecl {
        name,
        level: Level::two_copies(),
    })
}

const LOGS: &str =
    "board 1\n1.3 fail 1/1 changed\nfile a 5\n1.1 e0 create 2x inode 0=1+1@1/1:0,2/1:0\n2.1 e0 read 0 5 shown -\n1.2 e0 level 3x\n2.2 e0 read 0 5 shown -\n1.4 e1 delete\nfile b 1\n2.3 e1 delete refused absent\n";

#[test]
fn two_actors_act_in_rounds(rt: HostRuntime) -> Result<(), Fail> {
    let alloc = rt.alloc();
    let files = vec![in alloc; declared(alloc, "a")?, declared(alloc, "b")?]?;
    let level = Level::read("3x").ok().ok_or("a level")?;
    let scenario = two_actors(alloc, List::from_vec(files), level)?;
    let mut rack = SureRack::new(alloc);
    let played = play_serial(&rt, alloc, &scenario, &mut rack, &OpenGate);
    let logs = played.ok().ok_or("logs")?;
    let mut text = String::new(alloc);
    write_board(&mut text, logs.board.as_slice())?;
    write_files(&mut text, scenario.files.as_slice(), logs.files.as_slice())?;
    assert_eq!(rt; text.as_str(), LOGS);
    let back = rack.back();
    assert_eq!(rt; back.len(), 48);
    // The inode's slot on the lost drive is retired, and the drive's free slots come from the bottom of their stack.
    assert_eq!(rt;
        back[0].place,
        RawPlace {
            node: 1,
            drive: 1,
            slot: 0
        }
    );
    assert_eq!(rt;
        back[1].place,
        RawPlace {
            node: 1,
            drive: 1,
            slot: 15
        }
    );
    assert_eq!(rt;
        back[47].place,
        RawPlace {
            node: 3,
            drive: 1,
            slot: 0
        }
    );
    Ok(())
}
