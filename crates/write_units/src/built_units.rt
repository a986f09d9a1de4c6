//! The units of a new group.

ghost use Rattle.std.specs.Prelude.{◌≡◌, ◌+◌, ◌*◌, ◌<◌, ◌≤◌, ◌^◌, IfOk};
ghost use Rattle.rs_codes.specs.Codes.{IsCodeSize};
ghost use Rattle.write_rule.specs.NewBytes.{bytes_of, padded_slice};
ghost use Rattle.write_units.specs.GroupUnits.{AreUnitsFor};

use groups::build;
use rs_codes::Units;
use std::alloc::{AllocError, Global};
use write_rule::NewBytes;

/// The units of a group of `n` data and `m` correction units of `unit` bytes each, whose data are the new bytes from `from` on, with
/// zeros behind the last. The bytes are copied twice: into the data units, and from these into the group.
pub fn group_units(
    alloc: Global,
    bytes: &NewBytes,
    from: usize,
    unit: u32,
    n: u8,
    m: u8,
) -> Result<Units, AllocError>
    requires size { IsCodeSize n m }
    requires wide { unit ≤ 131072 }
    ensures length { IfOk result (λ made. made.unit_length ≡ unit) }
    ensures units { IfOk result (λ made. AreUnitsFor unit n m (padded_slice (bytes_of bytes.now) from (n * unit)) made.units) }
{
    let part = bytes.part(alloc, from, usize::from(n) * unit as usize)?;
    let input = Units::from_bytes(part, unit, n);
    build(alloc, n, m, &input)
}
