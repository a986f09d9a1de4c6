use crate::{Op, Scenario, payload_bytes, print};
use domains::{DriveId, Level, Shape};
use job_rules::{JobId, JobKind};
use lists::List;
use operation_text::{DriveOrder, FileAction, JobName, JobOrder, Payload};
use scenario::{FileDecl, Name, Text};
use std::alloc::Global;
use std::test::Fail;

fn files(alloc: Global) -> Result<List<FileDecl>, Fail> {
    let name = Name::new(String::from_str(alloc, "a")?).ok_or("a name")?;
    let file = FileDecl {
        name,
        level: Level::two_copies(),
    };
    Ok(List::from_vec(vec![in alloc; file]?))
}

fn words(alloc: Global) -> Result<Payload, Fail> {
    let text = Text::new(String::from_str(alloc, "hello")?).ok_or("a payload")?;
    Ok(Payload::Text { text })
}

fn file_ops(alloc: Global) -> Result<List<Op>, Fail> {
    let level = Level::two_copies();
    let mut ops = List::new(alloc);
    for action in [
        FileAction::Create,
        FileAction::Write {
            offset: 0,
            payload: words(alloc)?,
        },
        FileAction::Write {
            offset: 5,
            payload: Payload::Fill { start: 1, len: 32 },
        },
        FileAction::Read { offset: 0, len: 5 },
        FileAction::SetLevel { level },
        FileAction::Delete,
    ] {
        ops.push(Op::OnFile { file: 0, action })?;
    }
    Ok(ops)
}

fn other_ops(alloc: Global) -> Result<List<Op>, Fail> {
    let job = JobId { number: 1 };
    let drive = DriveId::new(2, 1);
    let mut ops = List::new(alloc);
    for op in [
        Op::OnDrive {
            order: DriveOrder::Down,
            drive,
        },
        Op::FailNode { node: 2 },
        Op::Start {
            kind: JobKind::FlexProtect,
            job,
            priority: 1,
        },
        Op::OnJob {
            order: JobOrder::Pause,
            job,
        },
        Op::Start {
            kind: JobKind::Collect,
            job: JobId { number: 2 },
            priority: 9,
        },
        Op::Work { steps: 65536 },
        Op::Drain,
        Op::RestartEngine,
    ] {
        ops.push(op)?;
    }
    Ok(ops)
}

fn jobs(alloc: Global) -> Result<List<JobName>, Fail> {
    let mut jobs = List::new(alloc);
    for text in ["j", "k"] {
        let name = JobName::new(String::from_str(alloc, text)?).ok_or("a name")?;
        jobs.push(name)?;
    }
    Ok(jobs)
}

// The lines are those of docs/FORMATS.md, "Scenario".
#[test]
fn each_operation_prints_as_documented(rt: HostRuntime) -> Result<(), Fail> {
    let alloc = rt.alloc();
    let mut actors = List::new(alloc);
    actors.push(file_ops(alloc)?)?;
    actors.push(other_ops(alloc)?)?;
    let scenario = Scenario {
        shape: Shape::new(2, 1, 16, 8),
        workers: 4,
        files: files(alloc)?,
        jobs: jobs(alloc)?,
        actors,
    };
    let text = print(alloc, &scenario)?;
    let head =
        "unit = 8\nnodes = 2\ndrives = 1\nslots = 16\nworkers = 4\n[[file]]\nname = \"a\"\nlevel = \"2x\"\n";
    let first =
        "[[actor]]\nops = [\n\"create a\",\n\"write a 0 text:hello\",\n\"write a 5 fill:1:32\",\n\"read a 0 5\",\n\"level a 2x\",\n\"delete a\",\n]\n";
    let second =
        "[[actor]]\nops = [\n\"down 2/1\",\n\"failnode 2\",\n\"start FlexProtect as j\",\n\"pause j\",\n\"start Collect as k 9\",\n\"work 65536\",\n\"drain\",\n\"restart-engine\",\n]\n";
    let lines = format!(in alloc; "{head}{first}{second}")?;
    assert_eq!(rt; text.as_str(), lines.as_str());
    Ok(())
}

#[test]
fn a_pattern_wraps_and_shifts(rt: HostRuntime) -> Result<(), Fail> {
    let alloc = rt.alloc();
    let bytes = payload_bytes(
        alloc,
        &Payload::Fill {
            start: 250,
            len: 503,
        },
    )?;
    let bytes = bytes.as_slice();
    assert_eq!(rt; bytes.len(), 503);
    assert_eq!(rt; bytes[0], 250);
    assert_eq!(rt; bytes[1], 1);
    assert_eq!(rt; bytes[250], 208);
    assert_eq!(rt; bytes[251], 216);
    assert_eq!(rt; bytes[502], 182);
    Ok(())
}
