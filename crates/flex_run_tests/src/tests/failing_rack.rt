//! A rack in memory that fails at one call.

ghost use Rattle.std.specs.Prelude.{◌≡◌, ◌≤◌, ◌<◌, [], Some, length, ⊤, IsOk};
ghost use Rattle.std.proofs.Common.{refl};

use flex_io::{Failed, Fault, Rack, RawPlace, Slot, Steady, SurePiece, SureRack};
use std::alloc::Global;

/// Which call of the rack, or of its slots, fails: the one of this number, counted from 1.
#[derive(Clone, Copy, Debug, PartialEq, Eq)]
pub(crate) enum Failing {
    Take(u32),
    Put(u32),
    /// The first write of this slot of drive 1 of node 1.
    Write(u16),
}

/// A rack that fails at one call.
#[derive(Drop)]
pub(crate) struct FailingRack {
    inner: SureRack,
    failing: Failing,
    take_calls: u32,
    put_calls: u32,
    faults: u64,
}

impl FailingRack {
    pub(crate) fn new(alloc: Global, failing: Failing) -> FailingRack {
        FailingRack {
            inner: SureRack::new(alloc),
            failing,
            take_calls: 0,
            put_calls: 0,
            faults: 0,
        }
    }
}

impl Rack for FailingRack {
    type Piece = FailingPiece;

    ghost back = { λ r. Some r.inner.back };

    ghost takes = { λ r. r.inner.takes };

    ghost puts = { λ r. r.inner.puts };

    ghost faults = { λ r. r.faults };

    fn take(&mut self, drive: (u8, u8), slot: u16) -> Result<FailingPiece, Fault> {
        self.take_calls = self.take_calls.saturating_add(1);
        if self.failing == Failing::Take(self.take_calls) {
            self.faults = self.faults.saturating_add(1);
            return Err(Fault::Failed);
        }
        let inner = self.inner.take(drive, slot)?;
        let fails = drive == (1, 1) && self.failing == Failing::Write(slot);
        Ok(FailingPiece {
            inner,
            fails,
            faults: 0,
        })
    }

    fn put(&mut self, piece: FailingPiece) -> Result<(), Fault> {
        self.put_calls = self.put_calls.saturating_add(1);
        if self.failing == Failing::Put(self.put_calls) {
            self.faults = self.faults.saturating_add(1);
            return Err(Fault::Failed);
        }
        let FailingPiece { inner, .. } = piece;
        self.inner.put(inner)
    }

    ghost tells = { λ _ _ _. refl };
}

/// A slot of such a rack.
#[derive(Drop)]
pub(crate) struct FailingPiece {
    inner: SurePiece,
    fails: bool,
    faults: u64,
}

impl Slot for FailingPiece {
    ghost place_of = { λ p. p.inner.place };

    ghost content = { λ p. Some p.inner.bytes };

    ghost len_of = { λ p. length p.inner.bytes };

    ghost reads = { λ p. p.inner.reads };

    ghost is_steady = { λ _. ⊤ };

    ghost faults = { λ p. p.faults };

    ghost alike = { λ _ _ told. told };

    fn place(&self) -> RawPlace {
        self.inner.place()
    }

    fn len(&self) -> u32 {
        self.inner.len()
    }

    fn write(&mut self, bytes: &[u8]) -> Result<(), Fault> {
        if self.fails {
            self.faults = self.faults.saturating_add(1);
            return Err(Fault::Failed);
        }
        self.inner.write(bytes)
    }

    fn read(&mut self, buf: &mut [u8]) -> Result<(), Failed> {
        self.inner.read(buf)
    }
}

impl Steady for FailingPiece {
    ghost always = { λ _. tt };
}
