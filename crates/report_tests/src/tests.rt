//! Reports against worked examples.

ghost use Rattle.std.specs.Prelude.{◌<◌};

use board_history::{BoardEntry, Effect, Order, State};
use domains::{By, DriveId, Group, Level, Lost, Place, Shape, TooFew};
use file_history::{Change, FileEntry, FileEvent, Refused};
use lists::List;
use report::{Logs, print, write_board_entry, write_file_entry};
use scenario::{FileDecl, Name, Op, Scenario, Text};
use std::alloc::{AllocError, Global};
use std::test::Fail;

/// The report of two nodes of one drive, where a mirrored file is created, written and read.
const FIRST: &str =
    "report 1\nunit = 8\nnodes = 2\ndrives = 1\nslots = 16\nworkers = 1\n[[file]]\nname = \"a\"\nlevel = \"2x\"\n[[actor]]\nops = [\n\"create a\",\n\"write a 0 text:hello\",\n\"read a 0 5\",\n]\nboard 0\nengine 0\nfile a 3\n1.1 e0 create 2x inode 0=1+1@1/1:0,2/1:0\n1.2 e0 write 0 5 size 5 old - new 1=1+1@2/1:1,1/1:1 inode 2=1+1@1/1:2,2/1:2\n1.3 e0 read 0 5 shown 68656c6c6f\nend\n";

fn first_scenario(alloc: Global) -> Result<Scenario, Fail> {
    let name = Name::new(String::from_str(alloc, "a")?).ok_or("a name")?;
    let text = Text::new(String::from_str(alloc, "hello")?).ok_or("a text")?;
    let file = FileDecl {
        name,
        level: Level::two_copies(),
    };
    let write = Op::WriteText {
        file: 0,
        offset: 0,
        text,
    };
    let read = Op::Read {
        file: 0,
        offset: 0,
        len: 5,
    };
    let script = List::from_vec(vec![in alloc; Op::Create { file: 0 }, write, read]?);
    Ok(Scenario {
        shape: Shape::new(2, 1, 16, 8),
        workers: 1,
        files: List::from_vec(vec![in alloc; file]?),
        actors: List::from_vec(vec![in alloc; script]?),
    })
}

/// Two copies: one on the first drive of this node, one on that of the other.
fn mirror(alloc: Global, generation: u32, node: bool, slot: u16) -> Result<Group, AllocError>
    requires { slot < 4096 }
{
    let one = Place::new(DriveId::new(1, 1), slot);
    let two = Place::new(DriveId::new(2, 1), slot);
    let places = if node {
        vec![in alloc; one, two]?
    } else {
        vec![in alloc; two, one]?
    };
    Ok(Group {
        generation,
        n: 1,
        m: 1,
        places: List::from_vec(places),
    })
}

fn entry(call: u32, epoch: u32, event: FileEvent) -> FileEntry {
    FileEntry {
        by: By { actor: 1, call },
        epoch,
        event,
    }
}

fn first_log(alloc: Global) -> Result<List<FileEntry>, AllocError> {
    let change = Change {
        old: List::new(alloc),
        new: List::from_vec(vec![in alloc; mirror(alloc, 1, false, 1)?]?),
        inode: mirror(alloc, 2, true, 2)?,
    };
    let created = FileEvent::Created {
        inode: mirror(alloc, 0, true, 0)?,
    };
    let written = FileEvent::Written {
        offset: 0,
        len: 5,
        size: 5,
        change,
    };
    let shown = FileEvent::Shown {
        offset: 0,
        len: 5,
        bytes: List::from_vec(vec![in alloc; 104, 101, 108, 108, 111]?),
    };
    let log = vec![in alloc;
        entry(1, 0, created),
        entry(2, 0, written),
        entry(3, 0, shown),
    ]?;
    Ok(List::from_vec(log))
}

#[test]
fn prints_the_first_scenario(rt: HostRuntime) -> Result<(), Fail> {
    let alloc = rt.alloc();
    let logs = Logs {
        scenario: first_scenario(alloc)?,
        board: List::new(alloc),
        files: List::from_vec(vec![in alloc; first_log(alloc)?]?),
    };
    let text = print(alloc, &logs)?;
    assert_eq!(rt; text.as_str(), FIRST);
    Ok(())
}

/// The first drive of node 1 fails.
fn failure(actor: u8, call: u32, effect: Effect) -> BoardEntry {
    BoardEntry {
        by: By { actor, call },
        order: Order::Fail(DriveId::new(1, 1)),
        effect,
    }
}

#[test]
fn prints_losses(rt: HostRuntime) -> Result<(), Fail> {
    let mut text = String::new(rt.alloc());
    let board = [
        failure(1, 3, Effect::Changed),
        failure(2, 1, Effect::NoChange { is: State::Gone }),
    ];
    for entry in &board {
        write_board_entry(&mut text, entry)?;
    }
    assert_eq!(rt;
        text.as_str(),
        "1.3 fail 1/1 changed\n2.1 fail 1/1 nochange gone\n"
    );
    Ok(())
}

#[test]
fn prints_refusals(rt: HostRuntime) -> Result<(), Fail> {
    let mut text = String::new(rt.alloc());
    let too_few = Refused::CreateTooFew(TooFew { have: 1, need: 2 });
    let absent = Refused::WriteAbsent { offset: 0, len: 5 };
    let lost = Refused::ReadLost {
        offset: 0,
        len: 5,
        lost: Lost {
            generation: 2,
            have: 0,
            need: 1,
        },
    };
    let log = [
        entry(1, 0, FileEvent::Refused(too_few)),
        entry(2, 0, FileEvent::Refused(absent)),
        entry(6, 2, FileEvent::Refused(lost)),
    ];
    for entry in &log {
        write_file_entry(&mut text, Level::two_copies(), entry)?;
    }
    assert_eq!(rt;
        text.as_str(),
        "1.1 e0 create 2x refused toofew 1 2\n1.2 e0 write 0 5 refused absent\n1.6 e2 read 0 5 refused lost 2 0 1\n"
    );
    Ok(())
}
