//! What a write does to the map of a file.

ghost use Rattle.std.specs.Prelude.{◌≡◌, ◌+◌, ◌<◌, ◌≤◌, ◌^◌, true};
ghost use Rattle.file_history.specs.Layout.{Layout};
ghost use Rattle.file_history.specs.World.{Moment};
ghost use Rattle.write_checks.specs.MapFacts.{AreMapFactsOf, IsKnown};
ghost use Rattle.write_checks.specs.Plans.{IsPlan, PlansWrite};

use crate::facts::MapFacts;
use domains::width;
use write_rule::{ReplacedRun, WriteRange, replaced_run};

/// What a write does: the most data units of a new group, the run of groups that it replaces, and how many groups the map has then.
#[derive(Clone, Copy)]
pub struct Plan {
    pub width: u8,
    pub run: ReplacedRun,
    pub groups: u64,
}

impl MapFacts<'_> {
    /// What a write of the range does to the map, if its drives have room for a group.
    pub fn plan(&self, offset: u64, len: u64) -> Option<Plan>
        requires known { IsKnown self.now }
        requires some { 1 ≤ len }
        requires within { offset + len < 2 ^ 32 }
        ensures { (now : Moment) (l : Layout) → AreMapFactsOf self.now now l → PlansWrite result now l offset len }
    {
        // A level that was read is one of the table, so a new group has a data unit.
        let _most = self.file.requested.w();
        // A shape that was read is within its limits.
        let _unit = self.file.shape.unit();
        match width(&self.file.requested, &self.file.shape, self.file.usable) {
            Ok(most) => Some(self.plan_of_width(most, offset, len)),
            Err(_) => None,
        }
    }

    /// What a write of the range does to the map, if a new group has at most `width` data units.
    fn plan_of_width(&self, width: u8, offset: u64, len: u64) -> Plan
        requires known { IsKnown self.now }
        requires wide { 1 ≤ width }
        requires some { 1 ≤ len }
        requires within { offset + len < 2 ^ 32 }
        ensures width { result.width ≡ width }
        ensures plan { (now : Moment) (l : Layout) → AreMapFactsOf self.now now l → IsPlan result now l offset len width }
    {
        let range = WriteRange {
            unit: self.file.sight.unit,
            size: self.file.sight.size,
            offset,
            len,
            width,
        };
        let run = replaced_run(self.widths, &range);
        let groups = run.groups_after(self.widths.len() as u32, width);
        Plan { width, run, groups }
    }
}
