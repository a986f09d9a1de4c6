//! Bytes in memory as a source whose calls fail as planned.

ghost use Rattle.std.specs.Prelude.{◌≡◌, ◌≤◌, min, length, Some, is_err, IfOk, OnErr};
ghost use Rattle.std.specs.Io.{ReadsAtMost};
ghost use Rattle.std.specs.Io.KnownBytes.{ReadConsumes};
ghost use Rattle.flex_io.specs.Faults.{HasRisen};
ghost use Rattle.flex_io.specs.Calls.{planned, next_fails, after_next};

use crate::fail_plan::FailPlan;
use crate::{Failed, Source, SureSource};
use lists::List;
use std::marker::Model;

/// A source over bytes in memory. Contracts see the bytes left and the calls.
#[derive(Drop)]
pub struct MemorySource {
    bytes: SureSource,
    plan: FailPlan,
}

impl Model for MemorySource {
    ghost use Rattle.flex_io.specs.Calls.{Giving};

    ghost Value = { Giving };

    ghost view = { λ s. record { left = s.bytes; calls = s.plan } };
}

impl MemorySource {
    /// A source that gives these bytes, and fails at the calls of these numbers, counted from 1.
    pub fn new(bytes: Vec<u8>, fails: List<u32>) -> Self
        ensures { result ≡ record { left = bytes.items; calls = planned fails } }
    {
        MemorySource {
            bytes: SureSource::new(bytes),
            plan: FailPlan::new(fails),
        }
    }
}

impl Source for MemorySource {
    ghost remaining = { λ s. Some s.left };

    ghost faults = { λ s. s.calls.failed };

    fn read(&mut self, buf: &mut [u8]) -> Result<usize, Failed>
        // As each source.
        ensures within { ReadsAtMost result buf.new }
        ensures consumed { ReadConsumes (Some self.old.left) (Some self.new.left) result buf.new }
        ensures faults { OnErr result (HasRisen self.old.calls.failed self.new.calls.failed) }
        ensures never_falls { self.old.calls.failed ≤ self.new.calls.failed }

        // Each call but the planned ones gives all that fits.
        ensures failed { is_err result ≡ next_fails self.old.calls }
        ensures calls { self.new.calls ≡ after_next self.old.calls }
        ensures count { IfOk result (λ count. count ≡ min (length self.old.left) (length buf.old)) }
    {
        if self.plan.call() {
            return Err(Failed);
        }
        self.bytes.read(buf)
    }
}
