//! Creations, and their refusals.

ghost use Rattle.std.specs.Prelude.{◌≡◌, ◌↔◌, ◌≤◌, ◌+◌, true, false, IsTrue, IfOk};
ghost use Rattle.domains.specs.declared.room.TooFew.{TooFew};
ghost use Rattle.file_history.specs.Layout.{Layout};
ghost use Rattle.file_history.specs.Refusals.{IsLegalRefusal};
ghost use Rattle.file_history.specs.Step.{Creates};
ghost use Rattle.file_history.specs.World.{Moment};
ghost use Rattle.file_history.specs.declared.entry.Refused.TheVariants.{CreateNoRoom, CreateTooFew};
ghost use Rattle.placed_groups.specs.NewPlaces.{AreTaken};
ghost use Rattle.stale_changes.specs.PlaceMarks.{AreMarked};
ghost use Rattle.entry_checks.specs.Facts.{AreFactsOf};

use crate::facts::FileFacts;
use domains::{DriveId, Group, TooFew};
use entry_causes::{has_no_room, has_room, has_too_few};
use group_levels::is_inode_at;
use placed_groups::add_new_places;
use stale_changes::PlaceMarks;
use std::alloc::AllocError;

impl FileFacts<'_> {
    /// Whether a creation with this inode is legal, where these places are taken. If it is, so are the inode's afterwards; if not, some
    /// of them may be.
    pub fn creates(&self, taken: &mut PlaceMarks, inode: &Group) -> Result<bool, AllocError>
        ensures legal { IfOk result (λ so. (now : Moment) (l : Layout) → AreFactsOf self.now now l → AreTaken taken.old.keys l
            → IsTrue so ↔ Creates now l inode.now) }
        ensures marked { IfOk result (λ so. so ≡ true → AreMarked inode.now.places taken.old.keys taken.new.keys) }
    {
        if self.present {
            return Ok(false);
        }
        if !is_inode_at(inode, self.requested) {
            return Ok(false);
        }
        if u64::from(inode.generation) != self.next {
            return Ok(false);
        }
        add_new_places(self.shape, self.usable, taken, inode.places.as_slice())
    }

    /// Whether the refusal of a creation for too few drives is legal.
    pub fn refuses_create_for_drives(&self, fault: TooFew) -> bool
        ensures { (now : Moment) (l : Layout) → AreFactsOf self.now now l → IsTrue result ↔ IsLegalRefusal now l (CreateTooFew fault) }
    {
        if self.present {
            return false;
        }
        has_too_few(self.requested, self.shape, self.usable, fault)
    }

    /// Whether the refusal of a creation for want of slots is legal.
    pub fn refuses_create_for_slots(&self, need: u8, got: u8, drives: &[DriveId]) -> bool
        ensures { (now : Moment) (l : Layout) → AreFactsOf self.now now l
            → IsTrue result ↔ IsLegalRefusal now l (CreateNoRoom need got drives.now) }
    {
        if self.present {
            return false;
        }
        if need != self.requested.m() + 1 {
            return false;
        }
        if !has_room(self.requested, self.shape, self.usable) {
            return false;
        }
        has_no_room(self.requested, self.shape, self.usable, need, got, drives)
    }
}
