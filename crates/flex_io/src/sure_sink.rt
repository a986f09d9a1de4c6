//! A sink in memory that never fails.

ghost use Rattle.std.specs.Prelude.{◌≡◌, [], Some};

use crate::{Fault, Sink};
use std::alloc::Global;
use std::marker::Model;

/// A sink that keeps the bytes in memory, and never fails. Contracts see the bytes taken.
#[derive(Drop)]
pub struct SureSink {
    bytes: Vec<u8>,
}

impl Model for SureSink {
    ghost use Rattle.std.specs.Prelude.{ℕ, List};

    ghost Value = { List ℕ };

    ghost view = { λ s. s.bytes.items };
}

impl SureSink {
    /// A sink that has taken nothing. It takes no memory until a byte is written.
    pub fn new(alloc: Global) -> Self
        ensures { result ≡ [] }
    {
        SureSink {
            bytes: Vec::new(alloc),
        }
    }

    /// The bytes taken so far.
    pub fn as_slice(&self) -> &[u8]
        ensures { result.now ≡ self.now }
    {
        &self.bytes
    }
}

impl Sink for SureSink {
    ghost taken = { λ bytes. Some bytes };

    ghost faults = { λ _. 0 };

    fn write(&mut self, bytes: &[u8]) -> Result<usize, Fault> {
        self.bytes
            .extend_from_slice(bytes)
            .map_err(|_| Fault::NoMemory)?;
        Ok(bytes.len())
    }
}
