//! The refusals of writes for what their plan says.

ghost use Rattle.std.specs.Prelude.{◌≡◌, ◌↔◌, ◌+◌, ◌<◌, ◌≤◌, ◌^◌, true, IsTrue};
ghost use Rattle.entry_checks.specs.Facts.{AreSound};
ghost use Rattle.file_history.specs.Layout.{Layout};
ghost use Rattle.file_history.specs.Refusals.{IsLegalRefusal};
ghost use Rattle.file_history.specs.World.{Moment};
ghost use Rattle.file_history.specs.declared.entry.Refused.TheVariants.{WriteLost, WriteTooLong};
ghost use Rattle.write_checks.specs.MapFacts.{AreMapFactsOf, IsKnown};

use crate::facts::MapFacts;
use domains::Lost;
use entry_causes::Asked;

/// The most groups that a map may have.
const GROUPS: u64 = 256;

impl MapFacts<'_> {
    /// Whether the refusal of a write, since the map would have this many groups, is legal.
    pub fn refuses_write_for_length(&self, offset: u64, len: u32, count: u64) -> bool
        requires known { self.now.file.present ≡ true → IsKnown self.now }
        requires some { 1 ≤ len }
        requires within { offset + len < 2 ^ 32 }
        ensures { (now : Moment) (l : Layout) → AreMapFactsOf self.now now l
            → IsTrue result ↔ IsLegalRefusal now l (WriteTooLong offset len count) }
    {
        if !self.file.present {
            return false;
        }
        match self.plan(offset, u64::from(len)) {
            Some(plan) => plan.groups == count && count > GROUPS,
            None => false,
        }
    }

    /// Whether the refusal of a write, since a group has too few live units, is legal.
    pub fn refuses_write_for_loss(&self, offset: u64, len: u32, lost: Lost) -> bool
        requires sound { AreSound self.now.file }
        requires known { self.now.file.present ≡ true → IsKnown self.now }
        requires some { 1 ≤ len }
        requires within { offset + len < 2 ^ 32 }
        ensures { (now : Moment) (l : Layout) → AreMapFactsOf self.now now l
            → IsTrue result ↔ IsLegalRefusal now l (WriteLost offset len lost) }
    {
        if !self.file.present {
            return false;
        }
        let Some(plan) = self.plan(offset, u64::from(len)) else {
            return false;
        };
        if plan.groups > GROUPS {
            return false;
        }
        let asked = Asked::Write {
            offset,
            len: u64::from(len),
            width: plan.width,
        };
        match self.file.first_short(&asked) {
            Some(found) => found == lost,
            None => false,
        }
    }
}
