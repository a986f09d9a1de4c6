//! std's writers as sinks.

ghost use Rattle.std.specs.Prelude.{◌≡◌, ◌<◌, length, IfOk};
ghost use Rattle.std.specs.Io.{WritesAtMost};
ghost use Rattle.std.specs.Io.KnownBytes.{WriteAppends};

use crate::{Failed, Fault, Sink};
use std::io::{ErrorKind, Write};
use std::marker::Model;

/// How often a write is made that signals interrupt, before it counts as a fault.
const TRIES: u32 = 1_000;

/// A writer of std as a sink: one write of std for each write. What the writer tells of its bytes
/// is trusted. Contracts see the writer and the count of its faults.
#[derive(Drop)]
pub struct StdSink<Wr> {
    inner: Wr,
    faults: u64,
}

impl<Wr> Model for StdSink<Wr> {
    ghost use Rattle.std.specs.Prelude.{ℕ};

    ghost Value = { Wr × ℕ };

    ghost view = { λ s. (s.inner, s.faults) };
}

impl<Wr> StdSink<Wr> {
    /// A sink that writes to this writer.
    pub fn new(inner: Wr) -> Self
        ensures { result ≡ (inner, 0) }
    {
        StdSink { inner, faults: 0 }
    }
}

impl<Wr: Write> Sink for StdSink<Wr> {
    ghost taken = { λ s. Wr.contents s.0 };

    ghost faults = { λ s. s.1 };

    fn write(&mut self, bytes: &[u8]) -> Result<usize, Fault> {
        match write_once(&mut self.inner, bytes) {
            Ok(count) => Ok(count),
            Err(Failed) => {
                self.faults = self.faults.saturating_add(1);
                Err(Fault::Failed)
            }
        }
    }
}

/// One write of std. One that a signal interrupts has taken nothing, and is made again; one that
/// takes none of some bytes has failed.
fn write_once<Wr: Write>(writer: &mut Wr, bytes: &[u8]) -> Result<usize, Failed>
    ensures within { WritesAtMost result bytes.now }
    ensures written { WriteAppends (Wr.contents writer.old) (Wr.contents writer.new)
        result bytes.now }
    ensures some { IfOk result (λ count. 0 < length bytes.now → 0 < count) }
{
    for _turn in 0..TRIES {
        match writer.write(bytes) {
            Ok(0) if !bytes.is_empty() => return Err(Failed),
            Ok(count) => return Ok(count),
            Err(error) => {
                if error.kind() != ErrorKind::Interrupted {
                    return Err(Failed);
                }
            }
        }
    }
    Err(Failed)
}
