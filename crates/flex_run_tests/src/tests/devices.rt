//! Devices that fail, and sources at their limit.

ghost use Rattle.std.specs.Prelude.{Some};

use crate::tests::failing_rack::{Failing, FailingRack};
use crate::tests::{FIRST, FIRST_REPORT, played, run};
use flex_io::{Fault, MemorySink, MemorySource, Sink, SureRack, SureSink, SureSource};
use lists::List;
use std::alloc::{AllocError, Global};
use std::test::Fail;

/// The most bytes of a scenario.
const LIMIT: usize = 1_048_576;

#[test]
fn a_source_or_sink_that_fails_has_its_status(rt: HostRuntime) -> Result<(), Fail> {
    let alloc = rt.alloc();
    for (source_fails, sink_fails, status, taken) in [
        (1, 9, 4, "fault read\n"),
        (2, 9, 4, "fault read\n"),
        (9, 1, 5, ""),
    ] {
        let source_fails = List::from_vec(vec![in alloc; source_fails]?);
        let sink_fails = List::from_vec(vec![in alloc; sink_fails]?);
        let mut source = MemorySource::new(FIRST.as_bytes().to_vec(alloc)?, source_fails);
        let mut sink = MemorySink::new(alloc, sink_fails);
        let answer = run(
            alloc,
            "run",
            &mut source,
            &mut sink,
            &mut SureRack::new(alloc),
        )?;
        assert_eq!(rt; answer, status);
        assert_eq!(rt; sink.as_slice(), taken.as_bytes());
    }
    Ok(())
}

/// Takes one byte at a call.
#[derive(Drop)]
struct Slow {
    inner: MemorySink,
}

impl Sink for Slow {
    ghost taken = { λ s. Some s.inner.bytes };

    ghost faults = { λ s. s.inner.calls.failed };

    fn write(&mut self, bytes: &[u8]) -> Result<usize, Fault> {
        if bytes.is_empty() {
            return Ok(0);
        }
        self.inner.write(&bytes[..1])
    }
}

#[test]
fn a_sink_that_fails_half_way_has_a_prefix(rt: HostRuntime) -> Result<(), Fail> {
    let alloc = rt.alloc();
    for (fails, status, taken) in [(100_000, 0, FIRST_REPORT), (10, 5, "report 1\n")] {
        let fails = List::from_vec(vec![in alloc; fails]?);
        let mut source = SureSource::new(FIRST.as_bytes().to_vec(alloc)?);
        let mut sink = Slow {
            inner: MemorySink::new(alloc, fails),
        };
        let answer = run(
            alloc,
            "run",
            &mut source,
            &mut sink,
            &mut SureRack::new(alloc),
        )?;
        assert_eq!(rt; answer, status);
        assert_eq!(rt; sink.inner.as_slice(), taken.as_bytes());
    }
    Ok(())
}

/// The first scenario with a comment behind it, `count` bytes in all.
fn commented(alloc: Global, count: usize) -> Result<Vec<u8>, AllocError> {
    let mut bytes = FIRST.as_bytes().to_vec(alloc)?;
    bytes.resize(count, b'#')?;
    Ok(bytes)
}

#[test]
fn a_source_at_its_limit_is_played(rt: HostRuntime) -> Result<(), Fail> {
    let alloc = rt.alloc();
    for (count, status, taken) in [(LIMIT, 0, FIRST_REPORT), (LIMIT + 1, 7, "fault long\n")] {
        let (answer, sink) = played(alloc, "run", commented(alloc, count)?)?;
        assert_eq!(rt; answer, status);
        assert_eq!(rt; sink.as_slice(), taken.as_bytes());
    }
    Ok(())
}

/// The status and what the sink took of the first scenario over a rack that fails so.
fn over(alloc: Global, failing: Failing) -> Result<(u8, SureSink), Fail> {
    let mut source = SureSource::new(FIRST.as_bytes().to_vec(alloc)?);
    let mut sink = SureSink::new(alloc);
    let mut rack = FailingRack::new(alloc, failing);
    let status = run(alloc, "run", &mut source, &mut sink, &mut rack)?;
    Ok((status, sink))
}

#[test]
fn a_rack_that_fails_at_any_call_has_its_status(rt: HostRuntime) -> Result<(), Fail> {
    let alloc = rt.alloc();
    for number in 1..33 {
        for failing in [Failing::Take(number), Failing::Put(number)] {
            let (status, sink) = over(alloc, failing)?;
            assert_eq!(rt; status, 8);
            assert_eq!(rt; sink.as_slice(), b"fault rack\n".as_slice());
        }
    }
    let (status, sink) = over(alloc, Failing::Take(33))?;
    assert_eq!(rt; status, 0);
    assert_eq!(rt; sink.as_slice(), FIRST_REPORT.as_bytes());
    Ok(())
}

#[test]
fn a_slot_that_fails_has_its_status(rt: HostRuntime) -> Result<(), Fail> {
    let alloc = rt.alloc();
    for (slot, status, taken) in [
        (0, 8, "fault rack\n"),
        (1, 8, "fault rack\n"),
        (2, 8, "fault rack\n"),
        (3, 0, FIRST_REPORT),
    ] {
        let (answer, sink) = over(alloc, Failing::Write(slot))?;
        assert_eq!(rt; answer, status);
        assert_eq!(rt; sink.as_slice(), taken.as_bytes());
    }
    Ok(())
}
