//! Reports against docs/FORMATS.md, "Report".

use crate::{ReportFault, read_logs};
use domains::{Level, Shape};
use lists::List;
use report::print;
use scenario::{FileDecl, Name, Op, Scenario, Text};
use std::alloc::Global;
use std::test::Fail;

const HEAD: &str =
    "report 1\nunit = 8\nnodes = 2\ndrives = 1\nslots = 16\nworkers = 1\n[[file]]\nname = \"a\"\nlevel = \"2x\"\n[[actor]]\nops = [\n\"create a\",\n\"write a 0 text:hello\",\n\"read a 0 5\",\n]\n";

const BLOCKS: &str =
    "board 0\nengine 0\nfile a 3\n1.1 e0 create 2x inode 0=1+1@1/1:0,2/1:0\n1.2 e0 write 0 5 size 5 old - new 1=1+1@2/1:1,1/1:1 inode 2=1+1@1/1:2,2/1:2\n1.3 e0 read 0 5 shown 68656c6c6f\nend\n";

/// Two nodes of one drive, where a mirrored file is created, written and read.
fn first_scenario(alloc: Global) -> Result<Scenario, Fail> {
    let name = Name::new(String::from_str(alloc, "a")?).ok_or("a name")?;
    let text = Text::new(String::from_str(alloc, "hello")?).ok_or("a text")?;
    let file = FileDecl {
        name,
        level: Level::two_copies(),
    };
    let write = Op::WriteText {
        file: 0,
        offset: 0,
        text,
    };
    let read = Op::Read {
        file: 0,
        offset: 0,
        len: 5,
    };
    let script = List::from_vec(vec![in alloc; Op::Create { file: 0 }, write, read]?);
    Ok(Scenario {
        shape: Shape::new(2, 1, 16, 8),
        workers: 1,
        files: List::from_vec(vec![in alloc; file]?),
        actors: List::from_vec(vec![in alloc; script]?),
    })
}

/// The wrong line of a report of the first scenario: 0 if there is none.
fn wrong_line(alloc: Global, text: &str) -> Result<usize, Fail> {
    match read_logs(alloc, first_scenario(alloc)?, text) {
        Ok(logs) => {
            let again = print(alloc, &logs)?;
            if again.as_str() == text {
                Ok(0)
            } else {
                Ok(9999)
            }
        }
        Err(ReportFault::Bad { line }) => Ok(line),
        Err(ReportFault::NoMemory) => Ok(8888),
    }
}

#[test]
fn a_worked_report_is_read_back(rt: HostRuntime) -> Result<(), Fail> {
    let alloc = rt.alloc();
    let text = format!(in alloc; "{HEAD}{BLOCKS}")?;
    assert_eq!(rt; wrong_line(alloc, text.as_str())?, 0);
    Ok(())
}

#[test]
fn the_first_wrong_line_is_named(rt: HostRuntime) -> Result<(), Fail> {
    let alloc = rt.alloc();
    for (from, to, line) in [
        ("report 1\n", "report 2\n", 1),
        ("report 1\n", "report 1 \n", 1),
        ("unit = 8\n", "unit = 9\n", 2),
        ("\"read a 0 5\",\n", "\"read a 00 5\",\n", 2),
        ("]\n", "]\nfoo\n", 2),
        ("board 0\n", "", 2),
        ("board 0\n", "board 00\n", 16),
        ("board 0\n", "board 1\n", 17),
        ("board 0\n", "board 1\n1.3 fail 1/1 changed\n", 0),
        ("board 0\n", "board 2\n1.3 fail 1/1 changed\n", 18),
        ("board 0\n", "board 1\n1.3 fail 1/1  changed\n", 17),
        ("board 0\n", "board 18446744073709551616\n", 16),
        ("board 0\n", "board 18446744073709551615\n", 17),
        ("engine 0\n", "", 17),
        ("engine 0\n", "engine 1\n", 17),
        ("file a 3\n", "file a 4\n", 22),
        ("file a 3\n", "file a 2\n", 21),
        ("file a 3\n", "file b 3\n", 18),
        ("file a 3\n", "file a 03\n", 18),
        ("file a 3\n", "file a 3 \n", 18),
        ("1.3 e0 read", "1.3 e00 read", 21),
        ("68656c6c6f", "68656C6C6F", 21),
        ("create 2x", "create 3x", 19),
        ("write 0 5", "write  0 5", 20),
        ("end\n", "", 22),
        ("end\n", "end", 22),
        ("end\n", "end\n\n", 23),
        ("end\n", "end\nend\n", 23),
        ("end\n", "end\nx", 23),
    ] {
        let text = format!(in alloc; "{HEAD}{BLOCKS}")?;
        let broken = text.as_str().replacen(alloc, from, to, 1)?;
        assert_eq!(rt; wrong_line(alloc, broken.as_str())?, line, "{from} {to}");
    }
    Ok(())
}
