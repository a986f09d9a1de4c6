//! The bytes of a range, from the groups at hand.

ghost use Rattle.std.specs.Prelude.{◌≡◌, ℕ, ◌+◌, ◌*◌, ◌<◌, ◌≤◌, ◌++◌, List, length, map, min, IfOk, IfSome, OnOk};
ghost use Rattle.std.specs.List.{AllByRecursion};
ghost use Rattle.galois.specs.Codeword.{unit_at};
ghost use Rattle.rs_codes.specs.Codes.{AreUnitsOf};
ghost use Rattle.rs_codes.specs.Units.{units_in};
ghost use Rattle.pulled_groups.specs.PullAnswers.{CanDecode, ShowsGroup};
ghost use Rattle.read_path.specs.Segments.{parts_of, part_of_group, part_of_units};

use crate::byte_range::ByteRange;
use file_core::{Pulled, PulledGroup};
use groups::rebuild;
use lists::List;
use rs_codes::Have;
use std::alloc::{AllocError, Global};

/// The bytes of a range, for the caller and for the log.
#[derive(Drop)]
pub(crate) struct Shown {
    pub(crate) answer: List<u8>,
    pub(crate) logged: List<u8>,
}

/// `len` bytes from `offset` on, or as many as the file has, of what was pulled for them. Units have `unit` bytes.
pub(crate) fn bytes_shown(
    alloc: Global,
    unit: u32,
    offset: u64,
    len: u32,
    pulled: &Pulled,
) -> Result<Shown, AllocError>
    requires wide { unit ≤ 131072 }
    requires decodes { AllByRecursion (CanDecode unit) pulled.now.groups }
    ensures same { IfOk result (λ s. s.logged ≡ s.answer) }
    ensures shown { IfOk result (λ s. (bytes : List ℕ) → pulled.now.look.size ≤ length bytes → AllByRecursion (ShowsGroup unit bytes) pulled.now.groups
        → s.answer ≡ parts_of unit offset (min (offset + len) pulled.now.look.size) bytes pulled.now.groups) }
{
    let range = ByteRange::cut(offset, len, pulled.look.size);
    let answer = bytes_in(alloc, unit, pulled.groups.as_slice(), range)?;
    let logged = Vec::from_slice(alloc, &answer)?;
    Ok(Shown {
        answer: List::from_vec(answer),
        logged: List::from_vec(logged),
    })
}

/// The bytes of the range that the groups hold, whose units have `unit` bytes.
fn bytes_in(
    alloc: Global,
    unit: u32,
    groups: &[PulledGroup],
    range: ByteRange,
) -> Result<Vec<u8>, AllocError>
    requires wide { unit ≤ 131072 }
    requires decodes { AllByRecursion (CanDecode unit) groups.now }
    ensures shown { IfOk result (λ out. (bytes : List ℕ) → range.stop ≤ length bytes → AllByRecursion (ShowsGroup unit bytes) groups.now
        → out.items ≡ parts_of unit range.start range.stop bytes groups.now) }
{
    let len = range.stop.saturating_sub(range.start);
    let mut out = Vec::with_capacity(alloc, len as usize)?;
    push_groups(alloc, unit, groups, range, &mut out)?;
    Ok(out)
}

/// Appends the bytes of the range that the groups hold, one group after the other.
fn push_groups(
    alloc: Global,
    unit: u32,
    groups: &[PulledGroup],
    range: ByteRange,
    out: &mut Vec<u8>,
) -> Result<(), AllocError>
    requires wide { unit ≤ 131072 }
    requires decodes { AllByRecursion (CanDecode unit) groups.now }
    ensures shown { OnOk result ((bytes : List ℕ) → range.stop ≤ length bytes → AllByRecursion (ShowsGroup unit bytes) groups.now
        → out.new.items ≡ out.old.items ++ parts_of unit range.start range.stop bytes groups.now) }
{
    let [group, rest @ ..] = groups else {
        return Ok(());
    };
    push_group(alloc, unit, group, range, out)?;
    push_groups(alloc, unit, rest, range, out)
}

/// Appends the bytes of the range that the group holds.
fn push_group(
    alloc: Global,
    unit: u32,
    group: &PulledGroup,
    range: ByteRange,
    out: &mut Vec<u8>,
) -> Result<(), AllocError>
    requires wide { unit ≤ 131072 }
    requires decodes { CanDecode unit group.now }
    ensures shown { OnOk result ((bytes : List ℕ) → range.stop ≤ length bytes → ShowsGroup unit bytes group.now
        → out.new.items ≡ out.old.items ++ part_of_group unit range.start range.stop bytes group.now) }
{
    for i in 0..group.group.n {
        push_unit(alloc, unit, group, i, range, out)?;
    }
    Ok(())
}

/// Appends the bytes of the range that a data unit of the group holds. A unit that is not at hand is computed from those that are,
/// if it holds any.
fn push_unit(
    alloc: Global,
    unit: u32,
    group: &PulledGroup,
    i: u8,
    range: ByteRange,
    out: &mut Vec<u8>,
) -> Result<(), AllocError>
    requires wide { unit ≤ 131072 }
    requires decodes { CanDecode unit group.now }
    requires within { i < group.now.group.n }
    ensures shown { OnOk result ((bytes : List ℕ) → range.stop ≤ length bytes → ShowsGroup unit bytes group.now
        → out.new.items ≡ out.old.items ++ part_of_units unit range.start range.stop bytes (group.now.start + i) (group.now.start + i + 1)) }
{
    let first = (u64::from(group.start) + u64::from(i)) * u64::from(unit);
    if !range.meets(first, first + u64::from(unit)) {
        return Ok(());
    }
    if let Some(bytes) = held_unit(&group.have, i) {
        return range.push_from(bytes, first, out);
    }
    let rebuilt = rebuild(alloc, group.group.n, group.group.m, &group.have, i)?;
    range.push_from(rebuilt.bytes(), first, out)
}

/// The unit at a position, if it is at hand.
fn held_unit(have: &Have, position: u8) -> Option<&[u8]>
    ensures { IfSome result (λ unit. (n m : ℕ) (word : List (List ℕ)) → AreUnitsOf n m word have.now → unit.now ≡ unit_at word position) }
{
    let len = have.unit_length() as usize;
    unit_from(have.positions(), have.bytes(), len, position)
}

/// The unit at a position, of units of `len` bytes that follow one another, and of which these are the positions.
fn unit_from<'a>(positions: &[u8], bytes: &'a [u8], len: usize, position: u8) -> Option<&'a [u8]>
    requires whole { length bytes.now ≡ length positions.now * len }
    ensures { IfSome result (λ unit. (at : ℕ → List ℕ) → units_in (length positions.now) len bytes.now ≡ map at positions.now → unit.now ≡ at position) }
{
    let [first, rest @ ..] = positions else {
        return None;
    };
    if *first == position {
        return Some(&bytes[..len]);
    }
    unit_from(rest, &bytes[len..], len, position)
}
