//! The run of groups that a write replaces.

ghost use Rattle.std.specs.Prelude.{◌≡◌, ℕ, ◌+◌, ◌-◌, ◌/◌, ◌<◌, ◌≤◌, ◌^◌, Bool, min, List, length, map, sum_by};
ghost use Rattle.inode_codec.specs.Inode.{IsInode, units_for};
ghost use Rattle.file_history.specs.Layout.{Layout};
ghost use Rattle.file_history.specs.Live.{is_filled_up};
ghost use Rattle.file_history.specs.Stored.{inode_of};
ghost use Rattle.file_history.specs.WriteRule.{groups_after_write};
ghost use Rattle.write_rule.specs.Runs.{widths_of, first_from, begun_by, last_unit};
ghost use Rattle.write_rule.specs.WriteRuns.{IsRunOfWrite, units_up_to};

/// A write of `len` bytes at `offset`, to a file of `size` bytes in stripe units of `unit` bytes, whose new groups have at most
/// `width` data units.
#[derive(Clone, Copy, Debug)]
pub struct WriteRange {
    pub unit: u32,
    pub size: u64,
    pub offset: u64,
    pub len: u64,
    pub width: u8,
}

/// The run of groups that a write replaces, and how many data units the groups in its place have.
#[derive(Clone, Copy, Debug, PartialEq, Eq)]
pub struct ReplacedRun {
    /// The groups before the run.
    pub first: u32,
    /// The data units before the run.
    pub start: u64,
    /// The groups of the run.
    pub count: u32,
    /// The data units of the run.
    pub units: u64,
    /// The data units of the new groups.
    pub new_units: u64,
}

/// The groups at the front of a map: their number, and the number of their data units.
#[derive(Drop)]
struct Front {
    groups: u32,
    units: u64,
}

/// The run of groups that the write replaces, in a map whose groups have these numbers of data units ("The rule of a write" of
/// `docs/DEFINITIONS.md`).
pub fn replaced_run(widths: &[u8], write: &WriteRange) -> ReplacedRun
    requires unit { 1 ≤ write.now.unit }
    requires some { 1 ≤ write.now.len }
    requires end { write.now.offset + write.now.len < 2 ^ 63 }
    requires size { write.now.size < 2 ^ 63 }
    requires few { length widths.now ≤ 256 }
    ensures run { (l : Layout) → IsInode (inode_of write.now.unit l) → widths_of l.groups ≡ widths.now → l.size ≡ write.now.size
        → IsRunOfWrite write.now.unit l write.now.offset write.now.len write.now.width result }
{
    let front = before_run(widths, write);
    let last = (write.offset + write.len - 1) / u64::from(write.unit);
    let stop = begun_by(widths, last);
    let units = stop.units.saturating_sub(front.units);
    ReplacedRun {
        first: front.groups,
        start: front.units,
        count: stop.groups.saturating_sub(front.groups),
        units,
        new_units: (last + 1).max(front.units + units) - front.units,
    }
}

/// The groups that the write leaves before its run: those that end by its first unit, but for the last group if it fills it up.
fn before_run(widths: &[u8], write: &WriteRange) -> Front
    requires unit { 1 ≤ write.now.unit }
    requires some { 1 ≤ write.now.len }
    requires end { write.now.offset + write.now.len < 2 ^ 63 }
    requires size { write.now.size < 2 ^ 63 }
    requires few { length widths.now ≤ 256 }
    ensures groups { result.groups ≡ first_from widths.now 0 (min (write.now.offset / write.now.unit) (units_for write.now.unit write.now.size))
        (is_filled_up write.now.unit write.now.size write.now.offset write.now.len write.now.width) }
    ensures units { result.units ≡ units_up_to widths.now result.groups }
    ensures few { result.groups ≤ length widths.now }
{
    let unit = u64::from(write.unit);
    let end = (write.size + (unit - 1)) / unit;
    let begin = (write.offset / unit).min(end);
    let fills = end <= (write.offset + write.len - 1) / unit;
    let mut front = Front {
        groups: 0,
        units: 0,
    };
    let mut left = widths;
    while let [n, rest @ ..] = left {
        let stop = front.units + u64::from(*n);
        if stop > begin || (rest.is_empty() && fills && *n < write.width) {
            break;
        }
        front.groups += 1;
        front.units = stop;
        left = rest;
    }
    front
}

/// The groups that begin by this unit.
fn begun_by(widths: &[u8], unit: u64) -> Front
    requires few { length widths.now ≤ 256 }
    ensures groups { result.groups ≡ begun_by widths.now 0 unit }
    ensures units { result.units ≡ units_up_to widths.now result.groups }
    ensures few { result.groups ≤ length widths.now }
{
    let mut front = Front {
        groups: 0,
        units: 0,
    };
    for n in widths {
        if front.units > unit {
            break;
        }
        front.groups += 1;
        front.units += u64::from(*n);
    }
    front
}

impl ReplacedRun {
    /// How many groups a map of `groups` groups has after the write, whose new groups have at most `width` data units.
    pub fn groups_after(&self, groups: u32, width: u8) -> u64
        requires wide { 1 ≤ width }
        requires within { self.now.count ≤ groups }
        requires few { self.now.new_units < 2 ^ 63 }
        ensures count { (unit : ℕ) (l : Layout) (offset len : ℕ) → IsRunOfWrite unit l offset len width self.now → length l.groups ≡ groups
            → result ≡ groups_after_write unit l offset len width }
    {
        let width = u64::from(width);
        u64::from(groups - self.count) + (self.new_units + (width - 1)) / width
    }
}
