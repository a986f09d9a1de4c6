//! The bytes of the groups that a write brings.

ghost use Rattle.std.specs.Prelude.{◌≡◌, ◌+◌, ◌-◌, ◌*◌, ◌<◌, ◌≤◌, ◌^◌, List, ℕ, length};
ghost use Rattle.std.specs.List.{AllByRecursion};
ghost use Rattle.write_rule.specs.NewBytes.{IsPartOf, StaysAround};
ghost use Rattle.write_units.specs.GroupUnits.{IsOfUnits, IsOldGroup, spans_of};
ghost use Rattle.write_units.specs.Laws.{CoverRun, HoldsRange};
ghost use Rattle.write_units.specs.Spans.{units_from, units_up_to};

use crate::old_data::OldGroup;
use write_rule::{NewBytes, OldBytes, ReplacedRun};

/// The bytes of a run's new groups, from its first on: what stays of the old groups at hand around the payload, in a file of `size`
/// bytes.
pub fn bytes_around<'a>(
    old: &'a [OldGroup],
    run: &ReplacedRun,
    unit: u32,
    size: u64,
    offset: u64,
    payload: &'a [u8],
) -> NewBytes<'a>
    requires wide { unit ≤ 131072 }
    requires end { offset + length payload.now < 2 ^ 32 }
    requires few { run.now.start + run.now.new_units < 2 ^ 34 }
    requires most { run.now.start + run.now.units < 2 ^ 34 }
    requires units { AllByRecursion (IsOfUnits unit) old.now }
    requires holds { HoldsRange unit size offset (length payload.now) run.now }
    requires covers { CoverRun unit size offset (length payload.now) run.now (spans_of old.now) }
    ensures stays { (bytes : List ℕ) → length bytes ≡ size → AllByRecursion (IsOldGroup bytes) old.now
        → StaysAround bytes (run.now.start * unit) ((run.now.start + run.now.new_units) * unit) offset (length payload.now) result }
    ensures payload { result.payload.now ≡ payload.now }
{
    let unit = u64::from(unit);
    let end = offset + payload.len() as u64;
    let first = bytes_from(old, run.start, unit);
    let last = bytes_up_to(old, run.start + run.units, unit, end);
    let to = (run.start + run.new_units) * unit;
    NewBytes::around(
        first,
        last,
        to as usize,
        size as usize,
        offset as usize,
        payload,
    )
}

/// The bytes of the group that begins with this data unit, or none from there on.
fn bytes_from<'a>(old: &'a [OldGroup], start: u64, unit: u64) -> OldBytes<'a>
    requires wide { unit ≤ 131072 }
    requires small { start < 2 ^ 34 }
    requires units { AllByRecursion (IsOfUnits unit) old.now }
    ensures from { result.from ≡ start * unit }
    ensures length { length result.bytes.now ≡ units_from (spans_of old.now) start * unit }
    ensures part { (bytes : List ℕ) → AllByRecursion (IsOldGroup bytes) old.now → IsPartOf bytes result }
{
    let [first, rest @ ..] = old else {
        return OldBytes {
            from: (start * unit) as usize,
            bytes: &[],
        };
    };
    if u64::from(first.start) == start {
        return first.bytes();
    }
    bytes_from(rest, start, unit)
}

/// The bytes of the group that ends before this data unit, or none from the byte `end` on.
fn bytes_up_to<'a>(old: &'a [OldGroup], stop: u64, unit: u64, end: u64) -> OldBytes<'a>
    requires wide { unit ≤ 131072 }
    requires units { AllByRecursion (IsOfUnits unit) old.now }
    ensures length { length result.bytes.now ≡ units_up_to (spans_of old.now) stop * unit }
    ensures from { 1 ≤ units_up_to (spans_of old.now) stop → result.from ≡ (stop - units_up_to (spans_of old.now) stop) * unit }
    ensures none { units_up_to (spans_of old.now) stop ≡ 0 → result.from ≡ end }
    ensures part { (bytes : List ℕ) → AllByRecursion (IsOldGroup bytes) old.now → IsPartOf bytes result }
{
    let [last, rest @ ..] = old else {
        return OldBytes {
            from: end as usize,
            bytes: &[],
        };
    };
    if last.stop() == stop {
        return last.bytes();
    }
    bytes_up_to(rest, stop, unit, end)
}
