//! Which groups a part needs.

ghost use Rattle.std.specs.Prelude.{◌≡◌, ◌≤◌, ◌<◌, ◌+◌, ◌^◌};
ghost use Rattle.file_history.specs.Live.{has_bytes_outside, holds_byte, is_filled_up, is_touched};
ghost use Rattle.inode_codec.specs.Inode.{units_for};
ghost use Rattle.file_heads.specs.Parts.{IsPart, is_asked, needs, part_of};

use crate::part::Part;
use domains::Group;

impl Part {
    /// Whether the part asks for this one group.
    pub fn is_asked(&self, group: &Group) -> bool
        ensures { result ≡ is_asked (part_of self.now) group.now }
    {
        match *self {
            Part::Range { .. } | Part::Write { .. } => false,
            Part::One { generation } => group.generation == generation,
        }
    }

    /// Whether the part needs the group, the first of whose data units is this one, of a file of this size.
    pub fn needs(&self, unit: u32, size: u64, start: u32, group: &Group, is_last: bool) -> bool
        requires unit { 1 ≤ unit }
        requires wide { unit ≤ 131072 }
        requires size { size ≤ 2 ^ 29 }
        requires part { IsPart (part_of self.now) }
        ensures { result ≡ needs unit size (part_of self.now) start group.now is_last }
    {
        match *self {
            Part::Range { offset, len } => holds_byte(unit, size, offset, len, start, group.n),
            Part::Write { offset, len, n } => {
                let filled = is_last && is_filled_up(unit, size, offset, len, n, group.n);
                let touched = is_touched(unit, size, offset, len, start, group.n) || filled;
                touched && has_bytes_outside(unit, size, offset, len, start, group.n)
            }
            Part::One { generation } => group.generation == generation,
        }
    }
}

/// Whether the group has a byte of the range, cut at the end of the file.
fn holds_byte(unit: u32, size: u64, offset: u64, len: u64, start: u32, n: u8) -> bool
    requires wide { unit ≤ 131072 }
    requires size { size ≤ 2 ^ 29 }
    ensures { result ≡ holds_byte unit size offset len start n }
{
    let stop = offset.saturating_add(len).min(size);
    let first = u64::from(start) * u64::from(unit);
    let end = (u64::from(start) + u64::from(n)) * u64::from(unit);
    offset < stop && (first < stop && offset < end)
}

/// Whether the group holds a unit between the first written one, or the end of the file, and the last written one.
fn is_touched(unit: u32, size: u64, offset: u64, len: u64, start: u32, n: u8) -> bool
    requires unit { 1 ≤ unit }
    requires size { size ≤ 2 ^ 29 }
    requires some { 1 ≤ len }
    requires within { offset + len < 2 ^ 32 }
    ensures { result ≡ is_touched unit size offset len start n }
{
    let first = (offset / u64::from(unit)).min(units_for(unit, size));
    let last = (offset + len - 1) / u64::from(unit);
    u64::from(start) <= last && first < u64::from(start) + u64::from(n)
}

/// Whether the write goes past the last unit, and the last group has room for more data units.
fn is_filled_up(unit: u32, size: u64, offset: u64, len: u64, width: u8, n: u8) -> bool
    requires unit { 1 ≤ unit }
    requires size { size ≤ 2 ^ 29 }
    requires some { 1 ≤ len }
    requires within { offset + len < 2 ^ 32 }
    ensures { result ≡ is_filled_up unit size offset len width n }
{
    units_for(unit, size) <= (offset + len - 1) / u64::from(unit) && n < width
}

/// Whether the group has bytes of the file outside the range.
fn has_bytes_outside(unit: u32, size: u64, offset: u64, len: u64, start: u32, n: u8) -> bool
    requires wide { unit ≤ 131072 }
    requires within { offset + len < 2 ^ 32 }
    ensures { result ≡ has_bytes_outside unit size offset len start n }
{
    let first = u64::from(start) * u64::from(unit);
    let end = (u64::from(start) + u64::from(n)) * u64::from(unit);
    let stop = offset + len;
    first < size && (first < offset || (stop < size && stop < end))
}

/// How many units of this length hold this number of bytes.
fn units_for(unit: u32, size: u64) -> u64
    requires unit { 1 ≤ unit }
    requires size { size ≤ 2 ^ 29 }
    ensures { result ≡ units_for unit size }
{
    (size + (u64::from(unit) - 1)) / u64::from(unit)
}
