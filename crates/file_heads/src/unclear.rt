//! The first group that is not clear.

ghost use Rattle.std.specs.Prelude.{◌≡◌, ◌≤◌, ◌+◌, ◌<◌, ◌^◌, ◌↔◌, length, map, IsTrue};
ghost use Rattle.std.specs.List.{AllByRecursion};
ghost use Rattle.striped_groups.specs.StoredGroups.{list_of};
ghost use Rattle.file_heads.specs.PullRefusals.{group_of};
ghost use Rattle.file_heads.specs.ClearFiles.{AnswersFirst, AnswersInode, IsClearAt, IsClearInodeAt, are_clean};

use crate::head::Head;
use domains::{DriveSet, Group, Place};
use group_levels::{is_at_level, is_inode_at};
use striped_groups::Stripe;

/// The position of the first of these groups that is not clear, the first of which has this position, or of the inode behind them.
pub fn first_unclear<S>(
    stripes: &[Stripe<S>],
    inode: &Option<Stripe<S>>,
    head: &Head,
    drives: &DriveSet,
    at: u16,
) -> Option<u16>
    requires few { at + length stripes.now < 2 ^ 16 }
    requires places { AllByRecursion (λ g. length g.group.places ≤ 255) stripes.now }
    requires root { AllByRecursion (λ g. length g.group.places ≤ 255) (list_of inode.now) }
    ensures { AnswersFirst (map (λ g. g.group) stripes.now) (group_of inode.now) head.now.requested head.now.dead.items drives.now at result }
{
    let [stripe, rest @ ..] = stripes else {
        return unclear_inode(inode, head, drives, at);
    };
    if !head.is_clear(stripe.group(), drives) {
        return Some(at);
    }
    first_unclear(rest, inode, head, drives, at + 1)
}

/// The position of the inode, if there is one and it is not clear.
fn unclear_inode<S>(
    inode: &Option<Stripe<S>>,
    head: &Head,
    drives: &DriveSet,
    at: u16,
) -> Option<u16>
    requires root { AllByRecursion (λ g. length g.group.places ≤ 255) (list_of inode.now) }
    ensures { AnswersInode (group_of inode.now) head.now.requested head.now.dead.items drives.now at result }
{
    let root = inode.as_ref()?;
    if head.is_clear_inode(root.group(), drives) {
        return None;
    }
    Some(at)
}

impl Head {
    /// Whether the group is at the requested level, and none of its units is dead or stands on one of the drives.
    fn is_clear(&self, group: &Group, drives: &DriveSet) -> bool
        requires few { length group.now.places ≤ 255 }
        ensures { IsTrue result ↔ IsClearAt self.now.requested self.now.dead.items drives.now group.now }
    {
        is_at_level(group, self.requested)
            && self.are_clean(group.generation, group.places.as_slice(), 0, drives)
    }

    /// The same of an inode's group.
    fn is_clear_inode(&self, group: &Group, drives: &DriveSet) -> bool
        requires few { length group.now.places ≤ 255 }
        ensures { IsTrue result ↔ IsClearInodeAt self.now.requested self.now.dead.items drives.now group.now }
    {
        is_inode_at(group, self.requested)
            && self.are_clean(group.generation, group.places.as_slice(), 0, drives)
    }

    /// Whether none of the units at these places, the first of which has this position, is dead or stands on one of the drives.
    fn are_clean(&self, generation: u32, places: &[Place], position: u8, drives: &DriveSet) -> bool
        requires { position + length places.now ≤ 255 }
        ensures { result ≡ are_clean places.now position self.now.dead.items generation drives.now }
    {
        let [place, rest @ ..] = places else {
            return true;
        };
        let clean = !self.dead.has(generation, position) && !drives.has(place.drive());
        clean && self.are_clean(generation, rest, position + 1, drives)
    }
}
