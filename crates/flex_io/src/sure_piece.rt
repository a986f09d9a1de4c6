//! A slot in memory that never fails.

ghost use Rattle.std.specs.Prelude.{◌≡◌, [], Some, length, ⊤};

use crate::{Failed, Fault, RawPlace, Slot, Steady};
use std::alloc::Global;
use std::marker::Model;

/// A slot in memory, which never fails. Contracts see its place, its bytes and its reads.
#[derive(Drop)]
pub struct SurePiece {
    at: RawPlace,
    bytes: Vec<u8>,
    reads: u64,
}

impl Model for SurePiece {
    ghost use Rattle.std.specs.Prelude.{◌≤◌, length};
    ghost use Rattle.flex_io.specs.SurePieces.{Piece};

    ghost Value = { Piece };

    ghost view = { λ p. record { place = p.at; bytes = p.bytes.items; reads = p.reads } };

    ghost invariant = { λ p. length p.bytes.items ≤ 262144 };
}

impl SurePiece {
    /// A slot at this place that was never written.
    pub(crate) fn new(alloc: Global, place: RawPlace) -> Self
        ensures { result ≡ record { place = place; bytes = []; reads = 0 } }
    {
        SurePiece {
            at: place,
            bytes: Vec::new(alloc),
            reads: 0,
        }
    }

    /// The bytes that the slot holds.
    pub(crate) fn into_bytes(self) -> Vec<u8>
        ensures { result.items ≡ self.bytes }
    {
        let SurePiece {
            at: _,
            bytes,
            reads: _,
        } = self;
        bytes
    }
}

impl Slot for SurePiece {
    ghost place_of = { λ p. p.place };

    ghost content = { λ p. Some p.bytes };

    ghost len_of = { λ p. length p.bytes };

    ghost reads = { λ p. p.reads };

    ghost is_steady = { λ _. ⊤ };

    ghost faults = { λ _. 0 };

    ghost alike = { λ _ _ told. told };

    fn place(&self) -> RawPlace {
        self.at
    }

    fn len(&self) -> u32 {
        self.bytes.len() as u32
    }

    fn write(&mut self, bytes: &[u8]) -> Result<(), Fault> {
        if self.bytes.len() == bytes.len() {
            self.bytes.copy_from_slice(bytes);
            return Ok(());
        }
        let fresh = bytes
            .to_vec(*self.bytes.allocator())
            .map_err(|_| Fault::NoMemory)?;
        self.bytes = fresh;
        Ok(())
    }

    fn read(&mut self, buf: &mut [u8]) -> Result<(), Failed> {
        buf.copy_from_slice(&self.bytes);
        self.reads = self.reads.wrapping_add(1);
        Ok(())
    }
}

impl Steady for SurePiece {
    ghost always = { λ _. tt };
}
