//! Which groups an operation needs.

ghost use Rattle.std.specs.Prelude.{◌≡◌, ◌≤◌, ◌<◌, ◌+◌, ◌^◌};
ghost use Rattle.file_history.specs.Live.{has_bytes_outside, holds_byte, is_filled_up, is_touched};
ghost use Rattle.inode_codec.specs.Inode.{units_for};
ghost use Rattle.entry_causes.specs.Sights.{IsAsked, needs, part_of};

use domains::Group;

/// What an operation asks of a file: a range to read, or a range to write by groups of at most `width` data units. Offsets and lengths
/// are in bytes.
#[derive(Clone, Copy, Debug)]
pub enum Asked {
    Range { offset: u64, len: u64 },
    Write { offset: u64, len: u64, width: u8 },
}

impl Asked {
    /// Whether the operation needs the group, the first of whose data units is this one, of a file of this size.
    pub(crate) fn needs(
        &self,
        unit: u32,
        size: u64,
        start: u32,
        group: &Group,
        is_last: bool,
    ) -> bool
        requires unit { 1 ≤ unit }
        requires wide { unit ≤ 131072 }
        requires size { size ≤ 2 ^ 29 }
        requires asked { IsAsked self.now }
        ensures { result ≡ needs unit size (part_of self.now) start group.now is_last }
    {
        match *self {
            Asked::Range { offset, len } => holds_byte(unit, size, offset, len, start, group.n),
            Asked::Write { offset, len, width } => {
                let filled = is_last && is_filled_up(unit, size, offset, len, width, group.n);
                let touched = is_touched(unit, size, offset, len, start, group.n) || filled;
                touched && has_bytes_outside(unit, size, offset, len, start, group.n)
            }
        }
    }
}

/// Whether the group has a byte of the range, cut at the end of the file.
fn holds_byte(unit: u32, size: u64, offset: u64, len: u64, start: u32, n: u8) -> bool
    requires wide { unit ≤ 131072 }
    requires size { size ≤ 2 ^ 29 }
    ensures { result ≡ holds_byte unit size offset len start n }
{
    let stop = offset.saturating_add(len).min(size);
    let first = u64::from(start) * u64::from(unit);
    let end = (u64::from(start) + u64::from(n)) * u64::from(unit);
    offset < stop && (first < stop && offset < end)
}

/// Whether the group holds a unit between the first written one, or the end of the file, and the last written one.
fn is_touched(unit: u32, size: u64, offset: u64, len: u64, start: u32, n: u8) -> bool
    requires unit { 1 ≤ unit }
    requires size { size ≤ 2 ^ 29 }
    requires some { 1 ≤ len }
    requires within { offset + len < 2 ^ 32 }
    ensures { result ≡ is_touched unit size offset len start n }
{
    let first = (offset / u64::from(unit)).min(units_for(unit, size));
    let last = (offset + len - 1) / u64::from(unit);
    u64::from(start) <= last && first < u64::from(start) + u64::from(n)
}

/// Whether the write goes past the last unit, and the last group has room for more data units.
fn is_filled_up(unit: u32, size: u64, offset: u64, len: u64, width: u8, n: u8) -> bool
    requires unit { 1 ≤ unit }
    requires size { size ≤ 2 ^ 29 }
    requires some { 1 ≤ len }
    requires within { offset + len < 2 ^ 32 }
    ensures { result ≡ is_filled_up unit size offset len width n }
{
    units_for(unit, size) <= (offset + len - 1) / u64::from(unit) && n < width
}

/// Whether the group has bytes of the file outside the range.
fn has_bytes_outside(unit: u32, size: u64, offset: u64, len: u64, start: u32, n: u8) -> bool
    requires wide { unit ≤ 131072 }
    requires within { offset + len < 2 ^ 32 }
    ensures { result ≡ has_bytes_outside unit size offset len start n }
{
    let first = u64::from(start) * u64::from(unit);
    let end = (u64::from(start) + u64::from(n)) * u64::from(unit);
    let stop = offset + len;
    first < size && (first < offset || (stop < size && stop < end))
}

/// How many units of this length hold this number of bytes.
fn units_for(unit: u32, size: u64) -> u64
    requires unit { 1 ≤ unit }
    requires size { size ≤ 2 ^ 29 }
    ensures { result ≡ units_for unit size }
{
    (size + (u64::from(unit) - 1)) / u64::from(unit)
}
