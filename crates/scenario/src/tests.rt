use crate::{FileDecl, Name, Op, Scenario, Text, print, write_op};
use domains::{DriveId, Level, Shape};
use lists::List;
use std::alloc::Global;
use std::test::Fail;

fn first_scenario(alloc: Global) -> Result<Scenario, Fail> {
    let name = Name::new(String::from_str(alloc, "a")?).ok_or("a name")?;
    let text = Text::new(String::from_str(alloc, "hello")?).ok_or("a payload")?;
    let file = FileDecl {
        name,
        level: Level::two_copies(),
    };
    let mut script = List::new(alloc);
    script.push(Op::Create { file: 0 })?;
    script.push(Op::WriteText {
        file: 0,
        offset: 0,
        text,
    })?;
    script.push(Op::Read {
        file: 0,
        offset: 0,
        len: 5,
    })?;
    Ok(Scenario {
        shape: Shape::new(2, 1, 16, 8),
        workers: 1,
        files: List::from_vec(vec![in alloc; file]?),
        actors: List::from_vec(vec![in alloc; script]?),
    })
}

// The lines are those of docs/FORMATS.md, "Scenario".
#[test]
fn the_first_scenario_prints_as_documented(rt: HostRuntime) -> Result<(), Fail> {
    let alloc = rt.alloc();
    let scenario = first_scenario(alloc)?;
    let text = print(alloc, &scenario)?;
    let lines =
        "unit = 8\nnodes = 2\ndrives = 1\nslots = 16\nworkers = 1\n[[file]]\nname = \"a\"\nlevel = \"2x\"\n[[actor]]\nops = [\n\"create a\",\n\"write a 0 text:hello\",\n\"read a 0 5\",\n]\n";
    assert_eq!(rt; text.as_str(), lines);
    Ok(())
}

#[test]
fn a_failing_drive_is_node_and_number(rt: HostRuntime) -> Result<(), Fail> {
    let mut text = String::new(rt.alloc());
    let drive = DriveId::new(32, 16);
    write_op(&mut text, &[], &Op::Fail { drive })?;
    assert_eq!(rt; text.as_str(), "fail 32/16");
    Ok(())
}
