//! What is made ready for a change before the file changes.

ghost use Rattle.std.specs.Prelude.{◌≡◌, ◌≤◌, ◌<◌, ◌+◌, ◌^◌, length, IfOk};
ghost use Rattle.map_changes.specs.ChangedMaps.{first_of};
ghost use Rattle.map_switches.specs.Switches.{AreForRun, IsBounded, IsMadeReady, groups_of, new_groups, numbered, repaired_among, run_in, size_after};

use crate::change::{MapChange, size_after};
use crate::fresh_groups::{brought_groups, copy_as, first_of, repaired_among, run_in};
use crate::map_text::{InodeHead, map_text};
use domains::Group;
use std::alloc::{AllocError, Global};
use striped_groups::Stripe;

/// The groups and the inode's group for the log, the group of a repair for the map, and the inode's text.
#[derive(Drop)]
pub struct Prepared {
    pub groups: Vec<Group>,
    pub repaired: Option<Group>,
    pub inode: Group,
    pub text: Vec<u8>,
}

/// Makes ready what a change needs, in a file with these groups and this next generation, of which `head` says the rest.
pub fn make_ready<S>(
    alloc: Global,
    stripes: &[Stripe<S>],
    next: u32,
    head: InodeHead,
    change: &MapChange<S>,
) -> Result<Prepared, AllocError>
    requires bounds { IsBounded stripes.now next head.size change.now }
    ensures { IfOk result (λ p. IsMadeReady stripes.now next (record head { size = size_after change.now.why head.size }) change.now p) }
{
    let head = InodeHead {
        level: head.level,
        unit: head.unit,
        size: size_after(&change.why, head.size),
    };
    let (first, count) = (first_of(stripes, change.old.as_slice()), change.old.len());
    let groups = new_groups(alloc, stripes, next, change)?;
    let repaired = repaired_among(alloc, &change.fresh, &groups)?;
    let inode = copy_as(alloc, &change.inode.group, next + groups.len() as u32)?;
    let text = map_text(alloc, head, stripes, first, count, &groups)?;
    Ok(Prepared {
        groups,
        repaired,
        inode,
        text,
    })
}

/// The groups that a change brings into a map with these, with the generations from this one on.
fn new_groups<S>(
    alloc: Global,
    stripes: &[Stripe<S>],
    next: u32,
    change: &MapChange<S>,
) -> Result<Vec<Group>, AllocError>
    requires within { first_of change.now.old (groups_of stripes.now) + length change.now.old ≤ length stripes.now }
    requires units { AreForRun (run_in change.now.old stripes.now) change.now.fresh }
    requires small { next + length (new_groups (groups_of stripes.now) change.now) < 2 ^ 32 }
    ensures groups { IfOk result (λ groups. groups.items ≡ numbered (new_groups (groups_of stripes.now) change.now) next) }
    ensures one { IfOk result (λ groups. length (repaired_among change.now.fresh groups.items) ≤ 1) }
    ensures count { IfOk result (λ groups. length groups.items ≡ length (new_groups (groups_of stripes.now) change.now)) }
{
    let run = run_in(stripes, change.old.as_slice());
    brought_groups(alloc, run, &change.fresh, next)
}
