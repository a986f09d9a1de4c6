//! The old bytes of a group that was pulled.

ghost use Rattle.std.specs.Prelude.{◌≡◌, ◌+◌, ◌*◌, ◌≤◌, ◌++◌, List, ℕ, IfOk, OnOk, length};
ghost use Rattle.std.specs.List.{AllByRecursion};
ghost use Rattle.pulled_groups.specs.PullAnswers.{CanDecode, ShowsGroup};
ghost use Rattle.write_rule.specs.NewBytes.{IsPartOf};
ghost use Rattle.write_units.specs.GroupUnits.{IsOfUnits, IsOldGroup, pulled_spans, spans_of};

use file_core::PulledGroup;
use groups::data_of;
use rs_codes::Units;
use std::alloc::{AllocError, Global};
use write_rule::OldBytes;

/// The data units of a group of the map, from one data unit of the file on.
#[derive(Drop)]
pub struct OldGroup {
    pub start: u32,
    pub units: Units,
}

/// The data of a group that was pulled.
pub fn old_group(alloc: Global, pulled: &PulledGroup) -> Result<OldGroup, AllocError>
    requires { CanDecode pulled.now.have.unit_length pulled.now }
    ensures start { IfOk result (λ old. old.start ≡ pulled.now.start) }
    ensures length { IfOk result (λ old. old.units.unit_length ≡ pulled.now.have.unit_length) }
    ensures count { IfOk result (λ old. length old.units.units ≡ pulled.now.group.n) }
    ensures shown { IfOk result (λ old. (bytes : List ℕ) → ShowsGroup pulled.now.have.unit_length bytes pulled.now → IsOldGroup bytes old) }
{
    let group = &pulled.group;
    let units = data_of(alloc, group.n, group.m, &pulled.have)?;
    Ok(OldGroup {
        start: pulled.start,
        units,
    })
}

/// The data of groups that were pulled, in their order.
pub fn old_groups(
    alloc: Global,
    unit: u32,
    pulled: &[PulledGroup],
) -> Result<Vec<OldGroup>, AllocError>
    requires { AllByRecursion (CanDecode unit) pulled.now }
    ensures spans { IfOk result (λ old. spans_of old.items ≡ pulled_spans pulled.now) }
    ensures units { IfOk result (λ old. AllByRecursion (IsOfUnits unit) old.items) }
    ensures shown { IfOk result (λ old. (bytes : List ℕ) → AllByRecursion (ShowsGroup unit bytes) pulled.now → AllByRecursion (IsOldGroup bytes) old.items) }
{
    let mut old = Vec::new(alloc);
    push_groups(alloc, unit, pulled, &mut old)?;
    Ok(old)
}

/// Puts the data of these groups behind others.
fn push_groups(
    alloc: Global,
    unit: u32,
    pulled: &[PulledGroup],
    old: &mut Vec<OldGroup>,
) -> Result<(), AllocError>
    requires decodes { AllByRecursion (CanDecode unit) pulled.now }
    requires units { AllByRecursion (IsOfUnits unit) old.old.items }
    ensures spans { OnOk result (spans_of old.new.items ≡ spans_of old.old.items ++ pulled_spans pulled.now) }
    ensures units { OnOk result (AllByRecursion (IsOfUnits unit) old.new.items) }
    ensures shown { OnOk result ((bytes : List ℕ) → AllByRecursion (ShowsGroup unit bytes) pulled.now → AllByRecursion (IsOldGroup bytes) old.old.items
        → AllByRecursion (IsOldGroup bytes) old.new.items) }
{
    let [first, rest @ ..] = pulled else {
        return Ok(());
    };
    old.push(old_group(alloc, first)?)?;
    push_groups(alloc, unit, rest, old)
}

impl OldGroup {
    /// The data unit behind its last.
    pub(crate) fn stop(&self) -> u64
        ensures { result ≡ self.now.start + length self.now.units.units }
    {
        u64::from(self.start) + u64::from(self.units.count())
    }

    /// Its bytes, as a part of the file.
    pub fn bytes(&self) -> OldBytes<'_>
        requires wide { self.now.units.unit_length ≤ 131072 }
        ensures from { result.from ≡ self.now.start * self.now.units.unit_length }
        ensures length { length result.bytes.now ≡ length self.now.units.units * self.now.units.unit_length }
        ensures part { (bytes : List ℕ) → IsOldGroup bytes self.now → IsPartOf bytes result }
    {
        OldBytes {
            from: self.start as usize * self.units.unit_length() as usize,
            bytes: self.units.bytes(),
        }
    }
}
