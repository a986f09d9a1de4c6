//! The groups that a part needs, read from their slots.

ghost use Rattle.std.specs.Prelude.{◌≡◌, ◌≤◌, ◌<◌, ◌+◌, ◌*◌, ◌^◌, length, map, Some, IfOk, IsOk, IsSome, OnOk};
ghost use Rattle.std.specs.List.{AllByRecursion};
ghost use Rattle.striped_groups.specs.StoredGroups.{list_of, stored_group};
ghost use Rattle.pulled_groups.specs.Pulls.{AreAllPulled, ArePulled, IsPulled, IsPulledIf, IsRootPulled, MayPull, MayPullRoot, first_len};
ghost use Rattle.file_heads.specs.Parts.{IsPart, part_of};

use crate::reading::read_where;
use domains::Group;
use file_heads::{Head, Part, Sight};
use flex_io::{Slot, Steady};
use held_slots::Held;
use lists::List;
use rs_codes::Have;
use std::alloc::{AllocError, Global};
use striped_groups::Stripe;

/// A group, the first of its data units counted through the file, of the inode's 0, and its first n live units.
#[derive(Drop)]
pub struct PulledGroup {
    pub group: Group,
    pub start: u32,
    pub have: Have,
}

/// Pulls the inode, and each of the groups that the part needs. At hand are these groups in map order, or the inode's.
pub fn pull_all<S: Slot + Steady>(
    alloc: Global,
    inode: &mut Option<Stripe<S>>,
    stripes: &mut [Stripe<S>],
    part: &Part,
    head: &Head,
    sight: &Sight,
) -> Result<Vec<PulledGroup>, AllocError>
    requires there { IsSome inode.old }
    requires part { IsPart (part_of part.now) }
    requires size { head.now.size ≤ 2 ^ 29 }
    requires few { 255 * length stripes.old < 2 ^ 32 }
    requires may { AllByRecursion (MayPull S.len_of sight.now.shape.unit) stripes.old }
    requires root { AllByRecursion (MayPullRoot S.len_of) (list_of inode.old) }
    ensures pulled { IfOk result (λ groups. AreAllPulled S.place_of S.content S.len_of S.reads sight.now.shape sight.now.view head.now.dead.items
        head.now.size (part_of part.now) inode.old inode.new stripes.old stripes.new groups.items) }
    ensures shown { map (stored_group S.place_of S.content S.len_of) stripes.new ≡ map (stored_group S.place_of S.content S.len_of) stripes.old }
    ensures shown_inode { map (stored_group S.place_of S.content S.len_of) (list_of inode.new) ≡ map (stored_group S.place_of S.content S.len_of) (list_of inode.old) }
{
    let Some(root) = inode.as_mut() else {
        unreachable!()
    };
    let mut pulled = pull_root(alloc, root, part, head, sight)?;
    pull_from(alloc, stripes, part, head, sight, 0, Ok(()), &mut pulled)?;
    Ok(pulled)
}

/// Pulls the inode. Its group is the answer if the part asks for it.
fn pull_root<S: Slot + Steady>(
    alloc: Global,
    root: &mut Stripe<S>,
    part: &Part,
    head: &Head,
    sight: &Sight,
) -> Result<Vec<PulledGroup>, AllocError>
    requires may { MayPullRoot S.len_of root.old }
    ensures pulled { IfOk result (λ begun. IsRootPulled S.place_of S.content S.len_of S.reads (Some root.old) (Some root.new) sight.now.shape sight.now.view
        head.now.dead.items (part_of part.now) begun.items) }
    ensures shown { stored_group S.place_of S.content S.len_of root.new ≡ stored_group S.place_of S.content S.len_of root.old }
{
    let len = first_len(&mut root.slots);
    let pulled = pull_group(alloc, root, head, sight, 0, len)?;
    if !part.is_asked(&pulled.group) {
        return Ok(Vec::new(alloc));
    }
    let mut begun = Vec::new(alloc);
    begun.push(pulled)?;
    Ok(begun)
}

/// How many bytes the first slot holds, 0 if there is none.
fn first_len<S: Slot>(slots: &mut Vec<Held<S>>) -> u32
    ensures value { result ≡ first_len S.len_of slots.old.items }
    ensures same { slots.new.items ≡ slots.old.items }
{
    let Some(first) = slots.first_mut() else {
        return 0;
    };
    first.slot().len()
}

/// Reads the first units of a group that are live, as many as it has data units. `start` is the first of its data units, and each
/// unit has `len` bytes.
fn pull_group<S: Slot + Steady>(
    alloc: Global,
    stripe: &mut Stripe<S>,
    head: &Head,
    sight: &Sight,
    start: u32,
    len: u32,
) -> Result<PulledGroup, AllocError>
    requires may { MayPull S.len_of len stripe.old }
    ensures pulled { IfOk result (λ p. IsPulled S.place_of S.content S.len_of S.reads sight.now.shape sight.now.view head.now.dead.items start len stripe.old stripe.new p) }
    ensures shown { stored_group S.place_of S.content S.len_of stripe.new ≡ stored_group S.place_of S.content S.len_of stripe.old }
{
    let mut buf = vec![in alloc; 0u8; len as usize]?;
    let flags = head.read_flags(alloc, sight, &stripe.group)?;
    let group = copy_of(alloc, &stripe.group)?;
    let mut have = Have::new(alloc, len);
    read_where(&mut stripe.slots, &flags, &mut buf, &mut have)?;
    Ok(PulledGroup { group, start, have })
}

/// Pulls a group if it is needed, unless memory ran out before.
fn pull_if<S: Slot + Steady>(
    alloc: Global,
    needed: bool,
    stripe: &mut Stripe<S>,
    head: &Head,
    sight: &Sight,
    start: u32,
    before: Result<(), AllocError>,
    pulled: &mut Vec<PulledGroup>,
) -> Result<(), AllocError>
    requires may { MayPull S.len_of sight.now.shape.unit stripe.old }
    ensures pulled { OnOk result (IsOk before × IsPulledIf S.place_of S.content S.len_of S.reads needed sight.now.shape sight.now.view head.now.dead.items start stripe.old stripe.new pulled.old.items pulled.new.items) }
    ensures shown { stored_group S.place_of S.content S.len_of stripe.new ≡ stored_group S.place_of S.content S.len_of stripe.old }
{
    before?;
    if !needed {
        return Ok(());
    }
    let group = pull_group(alloc, stripe, head, sight, start, sight.shape.unit())?;
    pulled.push(group)?;
    Ok(())
}

/// Pulls those of the groups that the part needs, unless memory ran out before. `start` is the first data unit of the first.
fn pull_from<S: Slot + Steady>(
    alloc: Global,
    stripes: &mut [Stripe<S>],
    part: &Part,
    head: &Head,
    sight: &Sight,
    start: u32,
    before: Result<(), AllocError>,
    pulled: &mut Vec<PulledGroup>,
) -> Result<(), AllocError>
    requires part { IsPart (part_of part.now) }
    requires size { head.now.size ≤ 2 ^ 29 }
    requires few { start + 255 * length stripes.old < 2 ^ 32 }
    requires may { AllByRecursion (MayPull S.len_of sight.now.shape.unit) stripes.old }
    ensures pulled { OnOk result (IsOk before × ArePulled S.place_of S.content S.len_of S.reads stripes.old stripes.new start sight.now.shape sight.now.view head.now.dead.items
        head.now.size (part_of part.now) pulled.old.items pulled.new.items) }
    ensures shown { map (stored_group S.place_of S.content S.len_of) stripes.new ≡ map (stored_group S.place_of S.content S.len_of) stripes.old }
{
    let Some((stripe, rest)) = stripes.split_first_mut() else {
        return before;
    };
    let n = stripe.group().n;
    let needed = part.needs(
        sight.shape.unit(),
        head.size,
        start,
        stripe.group(),
        rest.is_empty(),
    );
    let done = pull_if(alloc, needed, stripe, head, sight, start, before, pulled);
    pull_from(
        alloc,
        rest,
        part,
        head,
        sight,
        start + u32::from(n),
        done,
        pulled,
    )
}

/// A copy of a group.
fn copy_of(alloc: Global, group: &Group) -> Result<Group, AllocError>
    ensures { IfOk result (λ copy. copy ≡ group.now) }
{
    Ok(Group {
        generation: group.generation,
        n: group.n,
        m: group.m,
        places: List::from_vec(Vec::from_slice(alloc, group.places.as_slice())?),
    })
}
