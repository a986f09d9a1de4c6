//! The devices as code above sees them, and faults in mid-stream.

ghost use Rattle.std.specs.Prelude.{◌≡◌, ℕ, List, Option, Some, ◌<◌, ◌≤◌, length, IsOk, IfOk};

use flex_io::{
    Fail as PlannedFail, Failed, Fault, Gate, Input, MemoryRack, MemorySink, MemorySource,
    OpenGate, Point, Rack, RackCall, RawPlace, Sink, Slot, Source, StdSink, StdSource, Steady,
    SureRack, SureSink, SureSource, read_up_to, write_all,
};
use lists::List;
use std::alloc::{AllocError, Global};
use std::io::{self, Error, ErrorKind, Read, Write};
use std::test::Fail;

/// More than two reads of one buffer.
const LONG: usize = 40_000;

fn letters(alloc: Global, count: usize) -> Result<Vec<u8>, AllocError> {
    let mut bytes = Vec::new(alloc);
    for at in 0..count {
        bytes.push(b'a' + (at % 26) as u8)?;
    }
    Ok(bytes)
}

fn numbers(alloc: Global, of: &[u32]) -> Result<List<u32>, AllocError> {
    Ok(List::from_vec(of.to_vec(alloc)?))
}

#[test]
fn a_source_is_read_whole_or_found_too_long(rt: HostRuntime) -> Result<(), Fail> {
    let alloc = rt.alloc();
    let cases = [
        (0, 0, true),
        (5, 5, true),
        (5, 4, false),
        (LONG, LONG as u32, true),
        (LONG, LONG as u32 - 1, false),
    ];
    for (count, limit, fits) in cases {
        let all = letters(alloc, count)?;
        let mut source = SureSource::new(letters(alloc, count)?);
        match read_up_to(alloc, &mut source, limit)? {
            Input::Whole(bytes) => {
                assert!(rt; fits, "{count} bytes, limit {limit}");
                assert_eq!(rt; bytes.as_slice(), all.as_slice());
            }
            Input::TooLong => assert!(rt; !fits, "{count} bytes, limit {limit}"),
        }
    }
    Ok(())
}

#[test]
fn a_read_that_fails_in_mid_stream_is_told(rt: HostRuntime) -> Result<(), Fail> {
    let alloc = rt.alloc();
    for (fails, fault) in [
        ([1].as_slice(), true),
        ([3].as_slice(), true),
        ([9].as_slice(), false),
    ] {
        let mut source = MemorySource::new(letters(alloc, LONG)?, numbers(alloc, fails)?);
        let answer = read_up_to(alloc, &mut source, LONG as u32);
        assert_eq!(rt; matches!(answer, Err(Fault::Failed)), fault);
        assert_eq!(rt; matches!(answer, Ok(Input::Whole(_))), !fault);
    }
    Ok(())
}

/// Takes one byte at a call.
#[derive(Drop)]
struct Slow {
    inner: MemorySink,
}

impl Sink for Slow {
    ghost taken = { λ s. Some s.inner.bytes };

    ghost faults = { λ s. s.inner.calls.failed };

    fn write(&mut self, bytes: &[u8]) -> Result<usize, Fault> {
        if bytes.is_empty() {
            return Ok(0);
        }
        self.inner.write(&bytes[..1])
    }
}

#[test]
fn a_write_that_fails_in_mid_stream_leaves_a_front(rt: HostRuntime) -> Result<(), Fail> {
    let alloc = rt.alloc();
    for (fails, taken, answer) in [
        ([9].as_slice(), "hello", Ok(())),
        ([1].as_slice(), "", Err(Fault::Failed)),
        ([4].as_slice(), "hel", Err(Fault::Failed)),
    ] {
        let mut sink = Slow {
            inner: MemorySink::new(alloc, numbers(alloc, fails)?),
        };
        assert_eq!(rt; write_all(&mut sink, b"hello"), answer);
        assert_eq!(rt; sink.inner.as_slice(), taken.as_bytes());
    }
    Ok(())
}

fn read_steady<S: Steady>(slot: &mut S, buf: &mut [u8]) -> Result<(), Failed>
    requires { length buf.old ≡ S.len_of slot.old }
    ensures { IsOk result }
{
    slot.read(buf)
}

fn crosses<T: Send>(value: T) -> T
    ensures { result ≡ value }
{
    value
}

fn pass<G: Gate + Sync>(gate: &G) {
    gate.pass(Point::AfterDone, 1)
}

#[test]
fn a_slot_comes_back_with_its_place_and_bytes(rt: HostRuntime) -> Result<(), Fail> {
    let mut rack = crosses(SureRack::new(rt.alloc()));
    let mut slot = crosses(rack.take((2, 1), 7)?);
    slot.write(b"hello\0\0\0")?;
    let mut buf = [0; 8];
    read_steady(&mut slot, &mut buf)?;
    assert_eq!(rt; buf.as_slice(), b"hello\0\0\0".as_slice());
    rack.put(slot)?;
    pass(&OpenGate);
    assert_eq!(rt; rack.back().len(), 1);
    let back = &rack.back()[0];
    assert_eq!(rt;
        (back.place.node, back.place.drive, back.place.slot),
        (2, 1, 7)
    );
    assert_eq!(rt; back.bytes.as_slice(), b"hello\0\0\0".as_slice());
    Ok(())
}

#[test]
fn the_second_write_of_a_slot_fails_as_planned(rt: HostRuntime) -> Result<(), Fail> {
    let alloc = rt.alloc();
    let place = RawPlace {
        node: 1,
        drive: 1,
        slot: 0,
    };
    let fails = [PlannedFail {
        place,
        call: RackCall::Write,
        nth: 2,
    }];
    let mut rack = MemoryRack::new(alloc, List::from_vec(fails.to_vec(alloc)?));
    let mut planned = rack.take((1, 1), 0)?;
    let mut other = rack.take((1, 1), 1)?;
    let answers = [
        planned.write(b"a"),
        other.write(b"a"),
        planned.write(b"b"),
        other.write(b"b"),
        planned.write(b"c"),
    ];
    assert_eq!(rt;
        answers,
        [Ok(()), Ok(()), Err(Fault::Failed), Ok(()), Ok(())]
    );
    rack.put(planned)?;
    assert_eq!(rt; rack.back()[0].bytes.as_slice(), b"c".as_slice());
    rack.put(other)?;
    Ok(())
}

#[test]
fn a_rack_in_memory_fails_at_the_planned_take(rt: HostRuntime) -> Result<(), Fail> {
    let alloc = rt.alloc();
    let fails = [PlannedFail {
        place: RawPlace {
            node: 1,
            drive: 2,
            slot: 0,
        },
        call: RackCall::Take,
        nth: 1,
    }];
    let mut rack = MemoryRack::new(alloc, List::from_vec(fails.to_vec(alloc)?));
    assert!(rt; rack.take((1, 1), 0).is_ok());
    assert!(rt; matches!(rack.take((1, 2), 0), Err(Fault::Failed)));
    assert!(rt; rack.take((1, 2), 0).is_ok());
    Ok(())
}

/// A stream of std over bytes in memory. It moves a byte at a call, is interrupted so often before
/// each, and is broken once it has moved `sound` bytes.
#[derive(Drop)]
struct Fickle {
    bytes: Vec<u8>,
    at: usize,
    interruptions: u32,
    left: u32,
    sound: usize,
}

impl Fickle {
    fn new(bytes: Vec<u8>, interruptions: u32, sound: usize) -> Self {
        Fickle {
            bytes,
            at: 0,
            interruptions,
            left: interruptions,
            sound,
        }
    }

    fn check(&mut self) -> io::Result<()> {
        if self.left > 0 {
            self.left -= 1;
            return Err(Error::from(ErrorKind::Interrupted));
        }
        self.left = self.interruptions;
        if self.at >= self.sound {
            return Err(Error::from(ErrorKind::BrokenPipe));
        }
        Ok(())
    }
}

impl Read for Fickle {
    fn read(&mut self, buf: &mut [u8]) -> io::Result<usize> {
        self.check()?;
        if self.at >= self.bytes.len() || buf.is_empty() {
            return Ok(0);
        }
        buf[0] = self.bytes[self.at];
        self.at += 1;
        Ok(1)
    }
}

impl Write for Fickle {
    fn write(&mut self, buf: &[u8]) -> io::Result<usize> {
        self.check()?;
        if buf.is_empty() {
            return Ok(0);
        }
        self.bytes.push(buf[0])?;
        self.at = self.at.saturating_add(1);
        Ok(1)
    }

    fn flush(&mut self) -> io::Result<()> {
        Ok(())
    }
}

#[test]
fn std_streams_are_tried_again_when_interrupted(rt: HostRuntime) -> Result<(), Fail> {
    let alloc = rt.alloc();
    for (interruptions, sound, moved, works) in [
        (0, 9, "hello", true),
        (999, 9, "hello", true),
        (1_000, 9, "", false),
        (1, 2, "he", false),
    ] {
        let reader = Fickle::new(b"hello".to_vec(alloc)?, interruptions, sound);
        let read = read_up_to(alloc, &mut StdSource::new(reader), 9);
        match read {
            Ok(Input::Whole(bytes)) => {
                assert!(rt; works, "{interruptions} interruptions, {sound} sound");
                assert_eq!(rt; bytes.as_slice(), b"hello".as_slice());
            }
            Ok(Input::TooLong) => assert!(rt; false, "five bytes are not too long"),
            Err(fault) => {
                assert_eq!(rt; fault, Fault::Failed);
                assert!(rt; !works, "{interruptions} interruptions, {sound} sound");
            }
        }
        let mut writer = Fickle::new(Vec::new(alloc), interruptions, sound);
        let written = write_all(&mut StdSink::new(&mut writer), b"hello");
        assert_eq!(rt; written.is_ok(), works);
        assert_eq!(rt; writer.bytes.as_slice(), moved.as_bytes());
    }
    Ok(())
}
