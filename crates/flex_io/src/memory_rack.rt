//! A rack in memory whose planned calls fail.

ghost use Rattle.std.specs.Prelude.{◌≡◌, ◌↔◌, ◌≤◌, [], List, Option, Some, IsSome, true, length, IfOk, OnOk, OnErr};
ghost use Rattle.std.proofs.Common.{refl};
ghost use Rattle.std.specs.Result.{IsErrOf};
ghost use Rattle.flex_io.specs.Faults.{HasCause};
ghost use Rattle.flex_io.specs.Slots.{Holds, CountsOk};
ghost use Rattle.flex_io.specs.Racks.{new_rack, place_on, TakesBack};
ghost use Rattle.flex_io.specs.RackCalls.{any_due, after_call, writes_at};
ghost use Rattle.flex_io.specs.declared.call_plan.RackCall.TheVariants.{Take, Put};

use crate::call_plan::next_fails;
use crate::{Fail, Fault, MemoryPiece, Rack, RackCall, RawPlace, Returned, Slot, SureRack};
use lists::List;
use std::alloc::{AllocError, Global};
use std::marker::Model;

/// A rack in memory that fails at the planned calls of its own and of its slots. Contracts see a `MemoryRackView`.
#[derive(Drop)]
pub struct MemoryRack {
    alloc: Global,
    inner: SureRack,
    plan: Vec<Fail>,
    failed: u64,
}

impl Model for MemoryRack {
    ghost use Rattle.flex_io.specs.RackCalls.{MemoryRackView};

    ghost Value = { MemoryRackView };

    ghost view = { λ r. record { rack = r.inner; plan = r.plan.items; failed = r.failed } };
}

impl MemoryRack {
    /// A rack of which nothing was taken, and which fails at these calls.
    pub fn new(alloc: Global, fails: List<Fail>) -> Self
        ensures { result ≡ record { rack = new_rack; plan = fails; failed = 0 } }
    {
        MemoryRack {
            alloc,
            inner: SureRack::new(alloc),
            plan: fails.into_vec(),
            failed: 0,
        }
    }

    /// What came back, in order.
    pub fn back(&self) -> &[Returned]
        ensures { result.now ≡ self.now.rack.back }
    {
        self.inner.back()
    }
}

impl Rack for MemoryRack {
    type Piece = MemoryPiece;

    ghost back = { λ r. Some r.rack.back };

    ghost takes = { λ r. r.rack.takes };

    ghost puts = { λ r. r.rack.puts };

    ghost faults = { λ r. r.failed };

    fn take(&mut self, drive: (u8, u8), slot: u16) -> Result<MemoryPiece, Fault>
        // As each rack.
        ensures place { IfOk result (λ piece. piece.piece.place ≡ place_on drive slot) }
        ensures fresh { IfOk result (λ piece. Holds (Some piece.piece.bytes) []) }
        ensures len { IfOk result (λ piece. length piece.piece.bytes ≡ 0) }
        ensures back { Some self.new.rack.back ≡ Some self.old.rack.back }
        ensures takes { CountsOk result self.old.rack.takes self.new.rack.takes }
        ensures puts { self.new.rack.puts ≡ self.old.rack.puts }
        ensures faults { HasCause result self.old.failed self.new.failed }
        ensures no_memory { IsErrOf result Fault.NoMemory → self.new.failed ≡ self.old.failed }
        ensures never_falls { self.old.failed ≤ self.new.failed }

        // The planned calls fail, and no others.
        ensures failed { IsErrOf result Fault.Failed ↔ (any_due (place_on drive slot) Take self.old.plan ≡ true) }
        ensures plan { self.new.plan ≡ after_call (place_on drive slot) Take self.old.plan }
        ensures writes { IfOk result (λ piece. (piece.plan ≡ writes_at (place_on drive slot) self.new.plan) × (piece.failed ≡ 0)) }
    {
        let place = RawPlace {
            node: drive.0,
            drive: drive.1,
            slot,
        };
        if next_fails(&mut self.plan, place, RackCall::Take) {
            self.failed = self.failed.saturating_add(1);
            return Err(Fault::Failed);
        }
        let plan = writes_of(self.alloc, &self.plan, place).map_err(|_| Fault::NoMemory)?;
        Ok(MemoryPiece::new(self.inner.take(drive, slot)?, plan))
    }

    fn put(&mut self, piece: MemoryPiece) -> Result<(), Fault>
        // As each rack.
        ensures ok { OnOk result (TakesBack (Some self.old.rack.back) (Some self.new.rack.back)
            piece.piece.place (Some piece.piece.bytes)) }
        ensures kept { OnErr result (Some self.new.rack.back ≡ Some self.old.rack.back) }
        ensures takes { self.new.rack.takes ≡ self.old.rack.takes }
        ensures puts { CountsOk result self.old.rack.puts self.new.rack.puts }
        ensures faults { HasCause result self.old.failed self.new.failed }
        ensures no_memory { IsErrOf result Fault.NoMemory → self.new.failed ≡ self.old.failed }
        ensures never_falls { self.old.failed ≤ self.new.failed }

        // The planned calls fail, and no others.
        ensures failed { IsErrOf result Fault.Failed ↔ (any_due piece.piece.place Put self.old.plan ≡ true) }
        ensures plan { self.new.plan ≡ after_call piece.piece.place Put self.old.plan }
    {
        if next_fails(&mut self.plan, piece.place(), RackCall::Put) {
            self.failed = self.failed.saturating_add(1);
            return Err(Fault::Failed);
        }
        self.inner.put(piece.into_inner())
    }

    ghost tells = { λ _ _ _. refl };
}

// What is planned for the writes of the slot at this place.
fn writes_of(alloc: Global, plan: &[Fail], place: RawPlace) -> Result<Vec<Fail>, AllocError>
    ensures ok { IfOk result (λ writes. writes.items ≡ writes_at place plan.now) }
{
    let mut writes = Vec::new(alloc);
    for fail in plan {
        if fail.is_of(place, RackCall::Write) {
            writes.push(*fail)?;
        }
    }
    Ok(writes)
}
