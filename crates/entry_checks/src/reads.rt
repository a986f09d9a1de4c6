//! Which reads can be answered, and the refusals of reads.

ghost use Rattle.std.specs.Prelude.{◌≡◌, ◌↔◌, true, IsTrue, None};
ghost use Rattle.file_history.specs.Layout.{Layout};
ghost use Rattle.file_history.specs.Live.{first_short};
ghost use Rattle.file_history.specs.Refusals.{IsLegalRefusal};
ghost use Rattle.file_history.specs.Step.{Shows};
ghost use Rattle.file_history.specs.World.{Moment};
ghost use Rattle.file_history.specs.declared.entry.Refused.TheVariants.{ReadLost};
ghost use Rattle.entry_causes.specs.Sights.{IsAsked, part_of};
ghost use Rattle.entry_checks.specs.Facts.{AreFactsOf, AreSound};

use crate::facts::FileFacts;
use domains::Lost;
use entry_causes::Asked;

impl FileFacts<'_> {
    /// Whether a read of the range can show its bytes.
    pub fn shows(&self, offset: u64, len: u32) -> bool
        requires { AreSound self.now }
        ensures { (now : Moment) (l : Layout) → AreFactsOf self.now now l → IsTrue result ↔ Shows now l offset len }
    {
        if !self.present {
            return false;
        }
        let asked = Asked::Range {
            offset,
            len: u64::from(len),
        };
        self.first_short(&asked).is_none()
    }

    /// Whether the refusal of a read, since a group has too few live units, is legal.
    pub fn refuses_read_for_loss(&self, offset: u64, len: u32, lost: Lost) -> bool
        requires { AreSound self.now }
        ensures { (now : Moment) (l : Layout) → AreFactsOf self.now now l → IsTrue result ↔ IsLegalRefusal now l (ReadLost offset len lost) }
    {
        if !self.present {
            return false;
        }
        let asked = Asked::Range {
            offset,
            len: u64::from(len),
        };
        match self.first_short(&asked) {
            Some(found) => found == lost,
            None => false,
        }
    }

    /// The first group that an operation on a file that is there needs and that has too few live units.
    pub fn first_short(&self, asked: &Asked) -> Option<Lost>
        requires sound { AreSound self.now }
        requires asked { IsAsked asked.now }
        requires present { self.now.present ≡ true }
        ensures { (now : Moment) (l : Layout) → AreFactsOf self.now now l → result ≡ first_short now l (part_of asked.now) }
    {
        let [inode] = self.root else {
            return None;
        };
        self.sight.first_short(inode, self.groups, asked)
    }
}
