//! What a file answers of itself, without a change.

ghost use Rattle.std.specs.Prelude.{◌≡◌, ◌≤◌, ◌<◌, ◌↔◌, true, None, Some, IfSome, length};
ghost use Rattle.std.specs.List.{slice_get};
ghost use Rattle.domains.specs.declared.group.Group.{Group};
ghost use Rattle.file_history.specs.Layout.{all_groups};
ghost use Rattle.file_history.specs.Live.{is_dead};
ghost use Rattle.file_core.specs.Notes.{last_epoch_of};
ghost use Rattle.file_core.specs.Looks.{IsLook};
ghost use Rattle.file_core.specs.FileView.{layout_of, log_of};
ghost use Rattle.file_core.specs.LeftEntries.{left_by};

use crate::state::FileState;
use domains::{DriveSet, Group, Level};
use flex_io::Slot;
use striped_groups::Stripe;

/// What a file is at one moment: whether it is there, its size in bytes, how many units and groups it holds, the requested level,
/// of an absent file the declared one, the next generation, the inode's, which an absent file does not have, the barred drives,
/// and how many entries its log has.
#[derive(Clone, Copy, Debug)]
pub struct Look {
    pub present: bool,
    pub size: u64,
    pub units: u32,
    pub groups: u16,
    pub level: Level,
    pub next_generation: u32,
    pub inode_generation: Option<u32>,
    pub barred: DriveSet,
    pub at: u32,
}

impl<S: Slot + Send + Drop> FileState<S> {
    /// The number that `new` took.
    pub fn file(&self) -> u16
        ensures { result ≡ self.now.file }
    {
        self.file
    }

    /// The epoch of the last entry, 0 if there is none. A call's view is of no earlier epoch.
    pub fn last_epoch(&self) -> u32
        ensures { result ≡ last_epoch_of self.now.notes }
    {
        self.log.last_epoch()
    }

    /// What the file is now.
    pub fn look(&self) -> Look
        ensures { IsLook (layout_of self.now) (length self.now.notes) result }
    {
        Look {
            present: self.is_present(),
            size: self.head.size,
            units: self.head.units,
            groups: self.groups.len() as u16,
            level: self.head.requested,
            next_generation: self.head.next,
            inode_generation: self.inode.as_ref().map(Stripe::generation),
            barred: self.head.barred,
            at: self.log.len() as u32,
        }
    }

    /// The generation of the group at a position of the map. There is none exactly if the map has no more groups than that.
    pub fn gen_at(&self, position: u16) -> Option<u32>
        ensures found { IfSome result (λ n. (g : Group) × (slice_get (layout_of self.now).groups position ≡ Some g) × (g.generation ≡ n)) }
        ensures none { (result ≡ None) ↔ (length (layout_of self.now).groups ≤ position) }
    {
        let stripe = self.groups.get(usize::from(position))?;
        Some(stripe.generation())
    }

    /// The group at a position of the map, or the inode's behind the last. There is none exactly if the file is absent or has no
    /// such position.
    pub fn group_at(&self, position: u16) -> Option<&Group>
        ensures found { IfSome result (λ g. slice_get (all_groups (layout_of self.now)) position ≡ Some g.now) }
        ensures none { (result ≡ None) ↔ (length (all_groups (layout_of self.now)) ≤ position) }
    {
        let at = usize::from(position);
        if at == self.groups.len() {
            let inode = self.inode.as_ref()?;
            return Some(inode.group());
        }
        let stripe = self.groups.get(at)?;
        Some(stripe.group())
    }

    /// The entry by which the generation left the map, or ceased to be the inode's, numbered from 1. There is none exactly if no entry
    /// took it away.
    pub fn left_at(&self, generation: u32) -> Option<u32>
        ensures { result ≡ left_by self.now.level (log_of self.now) generation }
    {
        self.left.at(generation)
    }

    /// Whether an entry says that the unit is dead.
    pub fn is_dead(&self, generation: u32, position: u8) -> bool
        ensures { result ≡ is_dead (layout_of self.now) generation position }
    {
        self.head.is_dead(generation, position)
    }
}
