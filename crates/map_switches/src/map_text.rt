//! The text of the inode of a changed map.

ghost use Rattle.std.specs.Prelude.{◌≡◌, ◌≤◌, ◌<◌, ◌+◌, ◌++◌, ◌^◌, length, map, IfOk, OnOk, take, drop};
ghost use Rattle.std.specs.List.{AllByRecursion};
ghost use Rattle.inode_codec.specs.Inode.{group_bytes, groups_bytes, inode_bytes};
ghost use Rattle.map_changes.specs.ChangedMaps.{spliced};
ghost use Rattle.map_changes.specs.ChangedMaps.{inode_with};
ghost use Rattle.map_switches.specs.Switches.{groups_of};

use domains::{Group, Level};
use inode_codec::{HEAD_LEN, append_group, append_head, group_len};
use std::alloc::{AllocError, Global};
use striped_groups::Stripe;

/// What the inode of a changed map says besides its groups.
#[derive(Clone, Copy)]
pub struct InodeHead {
    pub level: Level,
    pub unit: u32,
    pub size: u64,
}

/// The bytes of an inode whose groups are these, with new ones in the place of a run.
pub fn map_text<S>(
    alloc: Global,
    head: InodeHead,
    stripes: &[Stripe<S>],
    first: usize,
    count: usize,
    new: &[Group],
) -> Result<Vec<u8>, AllocError>
    requires within { first + count ≤ length stripes.now }
    requires few { length (spliced (groups_of stripes.now) first count new.now) ≤ 256 }
    requires places { AllByRecursion (λ g. length g.group.places ≤ 255) stripes.now }
    requires new_places { AllByRecursion (λ g. length g.places ≤ 255) new.now }
    ensures { IfOk result (λ text. text.items ≡ inode_bytes (inode_with head.level head.unit head.size (spliced (groups_of stripes.now) first count new.now))) }
{
    let mut text = Vec::with_capacity(alloc, HEAD_LEN)?;
    let groups = stripes.len() - count + new.len();
    append_head(&mut text, head.level, head.unit, head.size, groups as u16);
    push_stripes(&mut text, &stripes[..first])?;
    push_groups(&mut text, new)?;
    push_stripes(&mut text, &stripes[first + count..])?;
    Ok(text)
}

/// Puts the text of the groups behind other text.
fn push_stripes<S>(text: &mut Vec<u8>, stripes: &[Stripe<S>]) -> Result<(), AllocError>
    requires { AllByRecursion (λ g. length g.group.places ≤ 255) stripes.now }
    ensures { OnOk result (text.new.items ≡ text.old.items ++ groups_bytes (groups_of stripes.now)) }
{
    let [stripe, rest @ ..] = stripes else {
        return Ok(());
    };
    push_group(text, stripe.group())?;
    push_stripes(text, rest)
}

/// Puts the text of the groups behind other text.
fn push_groups(text: &mut Vec<u8>, groups: &[Group]) -> Result<(), AllocError>
    requires { AllByRecursion (λ g. length g.places ≤ 255) groups.now }
    ensures { OnOk result (text.new.items ≡ text.old.items ++ groups_bytes groups.now) }
{
    let [group, rest @ ..] = groups else {
        return Ok(());
    };
    push_group(text, group)?;
    push_groups(text, rest)
}

/// Puts the text of a group behind other text.
fn push_group(text: &mut Vec<u8>, group: &Group) -> Result<(), AllocError>
    requires { length group.now.places ≤ 255 }
    ensures { OnOk result (text.new.items ≡ text.old.items ++ group_bytes group.now) }
{
    text.reserve(group_len(group.places.len()))?;
    append_group(text, group);
    Ok(())
}
