//! A slot in memory whose planned writes fail.

ghost use Rattle.std.specs.Prelude.{◌≡◌, ◌↔◌, ◌≤◌, Some, length, true, OnOk, OnErr, ⊤};
ghost use Rattle.std.specs.Result.{IsErrOf};
ghost use Rattle.flex_io.specs.Faults.{HasCause};
ghost use Rattle.flex_io.specs.Slots.{StaysTold, Holds};
ghost use Rattle.flex_io.specs.RackCalls.{any_due, after_call};
ghost use Rattle.flex_io.specs.declared.call_plan.RackCall.TheVariants.{Write};

use crate::call_plan::next_fails;
use crate::{Fail, Failed, Fault, RackCall, RawPlace, Slot, Steady, SurePiece};
use std::marker::Model;

/// A slot of a `MemoryRack`. Its reads never fail. Contracts see a `MemoryPieceView`.
#[derive(Drop)]
pub struct MemoryPiece {
    inner: SurePiece,
    plan: Vec<Fail>,
    failed: u64,
}

impl Model for MemoryPiece {
    ghost use Rattle.flex_io.specs.RackCalls.{MemoryPieceView};

    ghost Value = { MemoryPieceView };

    ghost view = { λ p. record { piece = p.inner; plan = p.plan.items; failed = p.failed } };
}

impl MemoryPiece {
    pub(crate) fn new(inner: SurePiece, plan: Vec<Fail>) -> Self
        ensures { result ≡ record { piece = inner; plan = plan.items; failed = 0 } }
    {
        MemoryPiece {
            inner,
            plan,
            failed: 0,
        }
    }

    /// The slot without its plan.
    pub(crate) fn into_inner(self) -> SurePiece
        ensures { result ≡ self.piece }
    {
        let MemoryPiece {
            inner,
            plan: _,
            failed: _,
        } = self;
        inner
    }
}

impl Slot for MemoryPiece {
    ghost place_of = { λ p. p.piece.place };

    ghost content = { λ p. Some p.piece.bytes };

    ghost len_of = { λ p. length p.piece.bytes };

    ghost reads = { λ p. p.piece.reads };

    ghost is_steady = { λ _. ⊤ };

    ghost faults = { λ p. p.failed };

    ghost alike = { λ _ _ told. told };

    fn place(&self) -> RawPlace {
        self.inner.place()
    }

    fn len(&self) -> u32 {
        self.inner.len()
    }

    fn write(&mut self, bytes: &[u8]) -> Result<(), Fault>
        requires { length bytes.now ≤ 262144 }

        // As each slot.
        ensures written { OnOk result (Holds (Some self.new.piece.bytes) bytes.now) }
        ensures told { OnOk result (StaysTold (Some self.old.piece.bytes) (Some self.new.piece.bytes)) }
        ensures len { OnOk result (length self.new.piece.bytes ≡ length bytes.now) }
        ensures kept { OnErr result (length self.new.piece.bytes ≡ length self.old.piece.bytes) }
        ensures place { self.new.piece.place ≡ self.old.piece.place }
        ensures reads { self.new.piece.reads ≡ self.old.piece.reads }
        ensures faults { HasCause result self.old.failed self.new.failed }
        ensures no_memory { IsErrOf result Fault.NoMemory
            → (Some self.new.piece.bytes ≡ Some self.old.piece.bytes) × (self.new.failed ≡ self.old.failed) }
        ensures never_falls { self.old.failed ≤ self.new.failed }

        // The planned writes fail, and no others.
        ensures failed { IsErrOf result Fault.Failed ↔ (any_due self.old.piece.place Write self.old.plan ≡ true) }
        ensures plan { self.new.plan ≡ after_call self.old.piece.place Write self.old.plan }
    {
        if next_fails(&mut self.plan, self.inner.place(), RackCall::Write) {
            self.failed = self.failed.saturating_add(1);
            return Err(Fault::Failed);
        }
        self.inner.write(bytes)
    }

    fn read(&mut self, buf: &mut [u8]) -> Result<(), Failed> {
        self.inner.read(buf)
    }
}

impl Steady for MemoryPiece {
    ghost always = { λ _. tt };
}
