//! The numbers, widths and levels of groups.

ghost use Rattle.std.specs.Prelude.{◌≡◌, ◌↔◌, ◌≤◌, ◌<◌, ◌+◌, ◌^◌, IsTrue, length, map};
ghost use Rattle.domains.specs.declared.group.Group.{Group};
ghost use Rattle.file_history.specs.Step.{AreAtLevel, AreNumbered};
ghost use Rattle.file_history.specs.WriteRule.{AreChunks, generations_of};

use domains::{Group, Level};
use group_levels::is_at_level;

/// Whether the groups, and then the inode's, have the next generations in this order.
pub fn are_numbered(next: u64, groups: &[Group], inode: &Group) -> bool
    requires { next + length groups.now < 2 ^ 64 }
    ensures { IsTrue result ↔ AreNumbered next groups.now inode.now }
{
    let [first, rest @ ..] = groups else {
        return u64::from(inode.generation) == next;
    };
    u64::from(first.generation) == next && are_numbered(next + 1, rest, inode)
}

/// Whether the groups share `count` data units: each has `width` of them, and the last what is left.
pub fn are_chunks(count: u64, width: u8, groups: &[Group]) -> bool
    ensures { IsTrue result ↔ AreChunks count width (map (λ (g : Group). g.n) groups.now) }
{
    let [first, rest @ ..] = groups else {
        return count == 0;
    };
    let n = u64::from(first.n);
    if rest.is_empty() {
        return n == count && n >= 1 && first.n <= width;
    }
    first.n == width && n <= count && are_chunks(count - n, width, rest)
}

/// Whether each of the groups is at the level.
pub fn are_at_level(groups: &[Group], level: Level) -> bool
    ensures { IsTrue result ↔ AreAtLevel groups.now level }
{
    let [first, rest @ ..] = groups else {
        return true;
    };
    is_at_level(first, level) && are_at_level(rest, level)
}

/// Whether these are the generations of the groups, in their order.
pub fn are_of(generations: &[u32], groups: &[Group]) -> bool
    ensures { IsTrue result ↔ (generations.now ≡ generations_of groups.now) }
{
    let [group, groups_left @ ..] = groups else {
        return generations.is_empty();
    };
    let [generation, left @ ..] = generations else {
        return false;
    };
    *generation == group.generation && are_of(left, groups_left)
}
