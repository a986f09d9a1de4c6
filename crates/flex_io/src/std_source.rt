//! std's readers as sources.

ghost use Rattle.std.specs.Prelude.{◌≡◌};
ghost use Rattle.std.specs.Io.{ReadsAtMost};
ghost use Rattle.std.specs.Io.KnownBytes.{ReadConsumes};

use crate::{Failed, Source};
use std::io::{ErrorKind, Read};
use std::marker::Model;

/// How often a read is made that signals interrupt, before it counts as a fault.
const TRIES: u32 = 1_000;

/// A reader of std as a source: one read of std for each read. What the reader tells of its bytes
/// is trusted. Contracts see the reader and the count of its faults.
#[derive(Drop)]
pub struct StdSource<Rd> {
    inner: Rd,
    faults: u64,
}

impl<Rd> Model for StdSource<Rd> {
    ghost use Rattle.std.specs.Prelude.{ℕ};

    ghost Value = { Rd × ℕ };

    ghost view = { λ s. (s.inner, s.faults) };
}

impl<Rd> StdSource<Rd> {
    /// A source that reads from this reader.
    pub fn new(inner: Rd) -> Self
        ensures { result ≡ (inner, 0) }
    {
        StdSource { inner, faults: 0 }
    }
}

impl<Rd: Read> Source for StdSource<Rd> {
    ghost remaining = { λ s. Rd.remaining s.0 };

    ghost faults = { λ s. s.1 };

    fn read(&mut self, buf: &mut [u8]) -> Result<usize, Failed> {
        match read_once(&mut self.inner, buf) {
            Ok(count) => Ok(count),
            Err(Failed) => {
                self.faults = self.faults.saturating_add(1);
                Err(Failed)
            }
        }
    }
}

/// One read of std. One that a signal interrupts has taken nothing, and is made again.
fn read_once<Rd: Read>(reader: &mut Rd, buf: &mut [u8]) -> Result<usize, Failed>
    ensures within { ReadsAtMost result buf.new }
    ensures consumed { ReadConsumes (Rd.remaining reader.old) (Rd.remaining reader.new)
        result buf.new }
{
    for _turn in 0..TRIES {
        match reader.read(buf) {
            Ok(count) => return Ok(count),
            Err(error) => {
                if error.kind() != ErrorKind::Interrupted {
                    return Err(Failed);
                }
            }
        }
    }
    Err(Failed)
}
