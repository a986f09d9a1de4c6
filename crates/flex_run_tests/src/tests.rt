//! Runs as they are seen from outside: the status, what the sink takes, and how often the gate is passed.

mod devices;
mod failing_rack;

use flex_io::{Gate, OpenGate, Point, Rack, Sink, Source, Steady, SureRack, SureSink, SureSource};
use flex_run::flex;
use std::alloc::{AllocError, Global};
use std::cell::Cell;
use std::test::Fail;

/// Two nodes of one drive, and a mirrored file that is created, written and read.
pub(crate) const FIRST: &str =
    "unit = 8\nnodes = 2\ndrives = 1\nslots = 16\n[[file]]\nname = \"a\"\nlevel = \"2x\"\n[[actor]]\nops = [\"create a\", \"write a 0 text:hello\", \"read a 0 5\"]\n";

/// Its report, as docs/FORMATS.md works it.
pub(crate) const FIRST_REPORT: &str =
    "report 1\nunit = 8\nnodes = 2\ndrives = 1\nslots = 16\nworkers = 1\n[[file]]\nname = \"a\"\nlevel = \"2x\"\n[[actor]]\nops = [\n\"create a\",\n\"write a 0 text:hello\",\n\"read a 0 5\",\n]\nboard 0\nengine 0\nfile a 3\n1.1 e0 create 2x inode 0=1+1@1/1:0,2/1:0\n1.2 e0 write 0 5 size 5 old - new 1=1+1@2/1:1,1/1:1 inode 2=1+1@1/1:2,2/1:2\n1.3 e0 read 0 5 shown 68656c6c6f\nend\n";

/// The same cluster, whose drives are lost one after the other: the first loss leaves a copy, the second none.
const LOSSES: &str =
    "unit = 8\nnodes = 2\ndrives = 1\nslots = 16\n[[file]]\nname = \"a\"\nlevel = \"2x\"\n[[actor]]\nops = [\"create a\", \"write a 0 text:hello\", \"fail 1/1\", \"read a 0 5\", \"fail 2/1\", \"read a 0 5\", \"fail 2/1\"]\n";

const LOSSES_REPORT: &str =
    "report 1\nunit = 8\nnodes = 2\ndrives = 1\nslots = 16\nworkers = 1\n[[file]]\nname = \"a\"\nlevel = \"2x\"\n[[actor]]\nops = [\n\"create a\",\n\"write a 0 text:hello\",\n\"fail 1/1\",\n\"read a 0 5\",\n\"fail 2/1\",\n\"read a 0 5\",\n\"fail 2/1\",\n]\nboard 3\n1.3 fail 1/1 changed\n1.5 fail 2/1 changed\n1.7 fail 2/1 nochange gone\nengine 0\nfile a 4\n1.1 e0 create 2x inode 0=1+1@1/1:0,2/1:0\n1.2 e0 write 0 5 size 5 old - new 1=1+1@2/1:1,1/1:1 inode 2=1+1@1/1:2,2/1:2\n1.4 e1 read 0 5 shown 68656c6c6f\n1.6 e2 read 0 5 refused lost 2 0 1\nend\n";

/// One node, which has no room for two copies.
const ONE_NODE: &str =
    "unit = 8\nnodes = 1\ndrives = 1\nslots = 16\n[[file]]\nname = \"a\"\nlevel = \"2x\"\n[[actor]]\nops = [\"create a\", \"write a 0 text:hello\", \"read a 0 5\"]\n";

const ONE_NODE_REPORT: &str =
    "report 1\nunit = 8\nnodes = 1\ndrives = 1\nslots = 16\nworkers = 1\n[[file]]\nname = \"a\"\nlevel = \"2x\"\n[[actor]]\nops = [\n\"create a\",\n\"write a 0 text:hello\",\n\"read a 0 5\",\n]\nboard 0\nengine 0\nfile a 3\n1.1 e0 create 2x refused toofew 1 2\n1.2 e0 write 0 5 refused absent\n1.3 e0 read 0 5 refused absent\nend\n";

/// Three nodes of two drives: reads past the end and of no bytes, after the loss of one copy.
const EDGES: &str =
    "unit = 8\nnodes = 3\ndrives = 2\nslots = 4\n[[file]]\nname = \"a\"\nlevel = \"2x\"\n[[actor]]\nops = [\"create a\", \"write a 0 text:hello\", \"fail 2/1\", \"read a 3 10\", \"read a 0 0\", \"read a 9 4\"]\n";

const EDGES_REPORT: &str =
    "report 1\nunit = 8\nnodes = 3\ndrives = 2\nslots = 4\nworkers = 1\n[[file]]\nname = \"a\"\nlevel = \"2x\"\n[[actor]]\nops = [\n\"create a\",\n\"write a 0 text:hello\",\n\"fail 2/1\",\n\"read a 3 10\",\n\"read a 0 0\",\n\"read a 9 4\",\n]\nboard 1\n1.3 fail 2/1 changed\nengine 0\nfile a 5\n1.1 e0 create 2x inode 0=1+1@1/1:0,2/1:0\n1.2 e0 write 0 5 size 5 old - new 1=1+1@2/1:1,3/1:0 inode 2=1+1@3/1:1,1/1:1\n1.4 e1 read 3 10 shown 6c6f\n1.5 e1 read 0 0 shown -\n1.6 e1 read 9 4 shown -\nend\n";

/// The status of a run with one argument, over these devices.
pub(crate) fn run<So: Source, Si: Sink, R: Rack>(
    alloc: Global,
    word: &str,
    source: &mut So,
    sink: &mut Si,
    rack: &mut R,
) -> Result<u8, Fail>
where
    R::Piece: Steady,
{
    let words = vec![in alloc; String::from_str(alloc, word)?]?;
    Ok(flex(alloc, words.as_slice(), source, sink, rack, &OpenGate))
}

/// The status of a run over devices that never fail, and what the sink took.
pub(crate) fn played(alloc: Global, word: &str, source: Vec<u8>) -> Result<(u8, SureSink), Fail> {
    let mut source = SureSource::new(source);
    let mut sink = SureSink::new(alloc);
    let status = run(
        alloc,
        word,
        &mut source,
        &mut sink,
        &mut SureRack::new(alloc),
    )?;
    Ok((status, sink))
}

#[test]
fn sources_run_as_documented(rt: HostRuntime) -> Result<(), Fail> {
    let alloc = rt.alloc();
    for (word, source, status, taken) in [
        ("run", FIRST, 0, FIRST_REPORT),
        ("run", LOSSES, 0, LOSSES_REPORT),
        ("run", ONE_NODE, 0, ONE_NODE_REPORT),
        ("run", EDGES, 0, EDGES_REPORT),
        ("run", "", 3, "fault scenario keys 0 0\n"),
        ("play", FIRST, 2, "fault words\n"),
    ] {
        let (answer, sink) = played(alloc, word, source.as_bytes().to_vec(alloc)?)?;
        assert_eq!(rt; answer, status);
        assert_eq!(rt; sink.as_slice(), taken.as_bytes());
    }
    Ok(())
}

/// The first scenario with something before it and behind it.
fn framed(alloc: Global, before: &[u8], behind: &[u8]) -> Result<Vec<u8>, AllocError> {
    let mut bytes = before.to_vec(alloc)?;
    bytes.extend_from_slice(FIRST.as_bytes())?;
    bytes.extend_from_slice(behind)?;
    Ok(bytes)
}

#[test]
fn a_refused_source_names_its_rule(rt: HostRuntime) -> Result<(), Fail> {
    let alloc = rt.alloc();
    let nothing = b"".as_slice();
    for (before, behind, line) in [
        (nothing, b"\xff".as_slice(), "fault scenario utf8 0 0\n"),
        (
            nothing,
            b"[[actor]\n".as_slice(),
            "fault scenario toml 0 0\n",
        ),
        (
            b"colour = 1\n".as_slice(),
            nothing,
            "fault scenario keys 0 0\n",
        ),
        (
            b"workers = 2\n".as_slice(),
            nothing,
            "fault scenario unbuilt 0 0\n",
        ),
        (
            nothing,
            b"[[file]]\nname = \"b\"\nlevel = \"2x\"\n".as_slice(),
            "fault scenario unbuilt 0 0\n",
        ),
        (
            nothing,
            b"[[actor]]\nops = [\"read a 0 5\"]\n".as_slice(),
            "fault scenario unbuilt 0 0\n",
        ),
        (
            nothing,
            b"[[actor]]\nops = [\"read a 0 5\", \"read b 0 5\"]\n".as_slice(),
            "fault scenario name 2 2\n",
        ),
    ] {
        let (answer, sink) = played(alloc, "run", framed(alloc, before, behind)?)?;
        assert_eq!(rt; answer, 3);
        assert_eq!(rt; sink.as_slice(), line.as_bytes());
    }
    Ok(())
}

/// Counts how often actor 1 passes it after an operation.
#[derive(Drop)]
struct CountingGate {
    passed: Cell<u32>,
}

impl Gate for CountingGate {
    fn pass(&self, point: Point, actor: u8) {
        if point == Point::AfterDone && actor == 1 {
            self.passed.set(self.passed.get().saturating_add(1));
        }
    }
}

#[test]
fn the_gate_is_passed_after_each_operation(rt: HostRuntime) -> Result<(), Fail> {
    let alloc = rt.alloc();
    let gate = CountingGate {
        passed: Cell::new(0),
    };
    let words = vec![in alloc; String::from_str(alloc, "run")?]?;
    let status = flex(
        alloc,
        words.as_slice(),
        &mut SureSource::new(LOSSES.as_bytes().to_vec(alloc)?),
        &mut SureSink::new(alloc),
        &mut SureRack::new(alloc),
        &gate,
    );
    assert_eq!(rt; status, 0);
    assert_eq!(rt; gate.passed.get(), 7);
    Ok(())
}
