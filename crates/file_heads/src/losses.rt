//! Why nothing can be pulled.

ghost use Rattle.std.specs.Prelude.{◌≡◌, ◌≤◌, ◌<◌, ◌+◌, ◌*◌, ◌^◌, ◌++◌, ◌∷◌, ◌==◌, [], if◌then◌else◌, None, Some, length, map};
ghost use Rattle.std.specs.List.{AllByRecursion, list_any};
ghost use Rattle.domains.specs.declared.group.Group.{Group};
ghost use Rattle.file_heads.specs.Parts.{IsPart, first_of, lost_from, lost_of, part_of};
ghost use Rattle.striped_groups.specs.StoredGroups.{list_of};
ghost use Rattle.file_heads.specs.PullRefusals.{first_cause, group_of, refusal_in, unknown_in};

use crate::head::Head;
use crate::live::Sight;
use crate::part::{Part, PullRefusal};
use domains::{Group, Lost};
use striped_groups::Stripe;

/// Why nothing can be pulled of a file with this inode and these groups, but for want of memory.
pub fn refusal<S>(
    inode: &Option<Stripe<S>>,
    stripes: &[Stripe<S>],
    part: &Part,
    head: &Head,
    sight: &Sight,
) -> Option<PullRefusal>
    requires part { IsPart (part_of part.now) }
    requires size { head.now.size ≤ 2 ^ 29 }
    requires few { 255 * length stripes.now < 2 ^ 32 }
    requires places { AllByRecursion (λ g. length g.group.places ≤ 255) stripes.now }
    requires root { AllByRecursion (λ g. length g.group.places ≤ 255) (list_of inode.now) }
    ensures { result ≡ refusal_in (group_of inode.now) (map (λ g. g.group) stripes.now) sight.now.shape sight.now.view head.now.dead.items head.now.size (part_of part.now) }
{
    let Some(root) = inode.as_ref() else {
        return Some(PullRefusal::Absent);
    };
    let unknown = unknown(part, stripes, root.group());
    let lost = lost_first(root.group(), stripes, part, head, sight);
    first_cause(unknown, lost)
}

/// Of two causes, the first that there is.
fn first_cause(unknown: Option<u32>, lost: Option<Lost>) -> Option<PullRefusal>
    ensures { result ≡ first_cause unknown lost }
{
    if let Some(generation) = unknown {
        return Some(PullRefusal::Unknown { generation });
    }
    let lost = lost?;
    Some(PullRefusal::Lost(lost))
}

/// The generation that the part asks for, if none of the groups has it.
fn unknown<S>(part: &Part, stripes: &[Stripe<S>], root: &Group) -> Option<u32>
    ensures { result ≡ unknown_in (map (λ g. g.group) stripes.now ++ root.now ∷ []) (part_of part.now) }
{
    let Part::One { generation } = *part else {
        return None;
    };
    if is_known(generation, stripes, root) {
        return None;
    }
    Some(generation)
}

/// Whether one of the groups has this generation.
fn is_known<S>(generation: u32, stripes: &[Stripe<S>], root: &Group) -> bool
    ensures { result ≡ list_any (λ (g : Group). g.generation == generation) (map (λ g. g.group) stripes.now ++ root.now ∷ []) }
{
    let [first, rest @ ..] = stripes else {
        return root.generation == generation;
    };
    first.generation() == generation || is_known(generation, rest, root)
}

/// The first group that the part needs and that has too few live units, of the inode's and these.
fn lost_first<S>(
    root: &Group,
    stripes: &[Stripe<S>],
    part: &Part,
    head: &Head,
    sight: &Sight,
) -> Option<Lost>
    requires part { IsPart (part_of part.now) }
    requires size { head.now.size ≤ 2 ^ 29 }
    requires few { 255 * length stripes.now < 2 ^ 32 }
    requires places { AllByRecursion (λ g. length g.group.places ≤ 255) stripes.now }
    requires root { length root.now.places ≤ 255 }
    ensures { result ≡ first_of (lost_of sight.now.shape sight.now.view head.now.dead.items root.now)
        (lost_from (map (λ g. g.group) stripes.now) 0 sight.now.shape sight.now.view head.now.dead.items head.now.size (part_of part.now)) }
{
    let here = lost_of(head, sight, root);
    let later = lost_from(stripes, part, head, sight, 0);
    here.or(later)
}

/// That the group has too few live units.
fn lost_of(head: &Head, sight: &Sight, group: &Group) -> Option<Lost>
    requires { length group.now.places ≤ 255 }
    ensures { result ≡ lost_of sight.now.shape sight.now.view head.now.dead.items group.now }
{
    let have = head.live_units(sight, group);
    if have < group.n {
        return Some(Lost {
            generation: group.generation,
            have,
            need: group.n,
        });
    }
    None
}

/// The first of these groups that the part needs and that has too few live units. `start` is the first data unit of the first.
fn lost_from<S>(
    stripes: &[Stripe<S>],
    part: &Part,
    head: &Head,
    sight: &Sight,
    start: u32,
) -> Option<Lost>
    requires part { IsPart (part_of part.now) }
    requires size { head.now.size ≤ 2 ^ 29 }
    requires few { start + 255 * length stripes.now < 2 ^ 32 }
    requires places { AllByRecursion (λ g. length g.group.places ≤ 255) stripes.now }
    ensures { result ≡ lost_from (map (λ g. g.group) stripes.now) start sight.now.shape sight.now.view head.now.dead.items head.now.size (part_of part.now) }
{
    let [stripe, rest @ ..] = stripes else {
        return None;
    };
    let needed = part.needs(
        sight.shape.unit(),
        head.size,
        start,
        stripe.group(),
        rest.is_empty(),
    );
    let here = lost_if(needed, head, sight, stripe.group());
    let later = lost_from(rest, part, head, sight, start + u32::from(stripe.group().n));
    here.or(later)
}

/// That a group that is needed has too few live units.
fn lost_if(needed: bool, head: &Head, sight: &Sight, group: &Group) -> Option<Lost>
    requires { length group.now.places ≤ 255 }
    ensures { result ≡ (if needed then lost_of sight.now.shape sight.now.view head.now.dead.items group.now else None) }
{
    if !needed {
        return None;
    }
    lost_of(head, sight, group)
}
