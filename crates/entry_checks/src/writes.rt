//! The refusals of writes.

ghost use Rattle.std.specs.Prelude.{◌≡◌, ◌↔◌, ℕ, IsTrue};
ghost use Rattle.file_history.specs.Layout.{Layout};
ghost use Rattle.file_history.specs.Refusals.{IsLegalRefusal};
ghost use Rattle.file_history.specs.World.{Moment};
ghost use Rattle.file_history.specs.declared.entry.Refused.TheVariants.{WriteTooFew};
ghost use Rattle.entry_checks.specs.Facts.{AreFactsOf};

use crate::facts::FileFacts;
use domains::TooFew;
use entry_causes::has_too_few;

impl FileFacts<'_> {
    /// Whether the refusal of a write of any range for too few drives is legal.
    pub fn refuses_write_for_drives(&self, fault: TooFew) -> bool
        ensures { (now : Moment) (l : Layout) (offset len : ℕ) → AreFactsOf self.now now l
            → IsTrue result ↔ IsLegalRefusal now l (WriteTooFew offset len fault) }
    {
        if !self.present {
            return false;
        }
        has_too_few(self.requested, self.shape, self.usable, fault)
    }
}
