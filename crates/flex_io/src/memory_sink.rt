//! A sink in memory whose calls fail as planned.

ghost use Rattle.std.specs.Prelude.{◌≡◌, ◌↔◌, ◌≤◌, ◌<◌, [], length, Some, true, IfOk};
ghost use Rattle.std.specs.Result.{IsErrOf};
ghost use Rattle.std.specs.Io.{WritesAtMost};
ghost use Rattle.std.specs.Io.KnownBytes.{WriteAppends};
ghost use Rattle.flex_io.specs.Faults.{HasCause};
ghost use Rattle.flex_io.specs.Calls.{planned, next_fails, after_next};

use crate::fail_plan::FailPlan;
use crate::{Fault, Sink};
use lists::List;
use std::alloc::Global;
use std::marker::Model;

/// A sink that keeps the bytes in memory. Contracts see the bytes taken and the calls.
#[derive(Drop)]
pub struct MemorySink {
    bytes: Vec<u8>,
    plan: FailPlan,
}

impl Model for MemorySink {
    ghost use Rattle.flex_io.specs.Calls.{Taking};

    ghost Value = { Taking };

    ghost view = { λ s. record { bytes = s.bytes.items; calls = s.plan } };
}

impl MemorySink {
    /// A sink that has taken nothing, and fails at the calls of these numbers, counted from 1.
    pub fn new(alloc: Global, fails: List<u32>) -> Self
        ensures { result ≡ record { bytes = []; calls = planned fails } }
    {
        MemorySink {
            bytes: Vec::new(alloc),
            plan: FailPlan::new(fails),
        }
    }

    /// The bytes taken so far.
    pub fn as_slice(&self) -> &[u8]
        ensures { result.now ≡ self.now.bytes }
    {
        &self.bytes
    }
}

impl Sink for MemorySink {
    ghost taken = { λ s. Some s.bytes };

    ghost faults = { λ s. s.calls.failed };

    fn write(&mut self, bytes: &[u8]) -> Result<usize, Fault>
        // As each sink.
        ensures within { WritesAtMost result bytes.now }
        ensures written { WriteAppends (Some self.old.bytes) (Some self.new.bytes)
            result bytes.now }
        ensures some { IfOk result (λ count. 0 < length bytes.now → 0 < count) }
        ensures faults { HasCause result self.old.calls.failed self.new.calls.failed }
        ensures no_memory { IsErrOf result Fault.NoMemory
            → (Some self.new.bytes ≡ Some self.old.bytes)
            × (self.new.calls.failed ≡ self.old.calls.failed) }
        ensures never_falls { self.old.calls.failed ≤ self.new.calls.failed }

        // Each call but the planned ones takes all bytes, if there is memory for them.
        ensures failed { IsErrOf result Fault.Failed ↔ (next_fails self.old.calls ≡ true) }
        ensures calls { self.new.calls ≡ after_next self.old.calls }
        ensures count { IfOk result (λ count. count ≡ length bytes.now) }
    {
        if self.plan.call() {
            return Err(Fault::Failed);
        }
        self.bytes
            .extend_from_slice(bytes)
            .map_err(|_| Fault::NoMemory)?;
        Ok(bytes.len())
    }
}
