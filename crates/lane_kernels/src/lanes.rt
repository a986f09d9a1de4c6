//! Table look-ups in vectors of 32 bytes.

ghost use Rattle.std.specs.Prelude.{◌≡◌, ◌+◌, ◌/◌, ◌%◌, ◌≤◌, length, slice_index};
ghost use Rattle.galois.specs.Field.{field_sum};
ghost use Rattle.lane_kernels.specs.Halves.{looked_up};
ghost use Rattle.lane_kernels.specs.Lanes.{HasLanes, AddsLookedUp};

use std::simd::prelude::*;

// Sixteen bytes, twice. A look-up stays within its sixteen lanes.
#[inline(always)]
fn twice(once: u8x16) -> u8x32
    ensures { HasLanes 32 result (λ k. slice_index once (k % 16)) }
{
    once.swizzle([
        0, 1, 2, 3, 4, 5, 6, 7, 8, 9, 10, 11, 12, 13, 14, 15, 0, 1, 2, 3, 4, 5, 6, 7, 8, 9, 10, 11,
        12, 13, 14, 15,
    ])
}

#[inline(always)]
fn load_16(bytes: &[u8], at: usize) -> u8x16
    requires { at + 16 ≤ length bytes.now }
    ensures { HasLanes 16 result (λ k. slice_index bytes.now (at + k)) }
{
    u8x16::from_slice(&bytes[at..])
}

#[inline(always)]
pub(crate) fn load_32(bytes: &[u8], at: usize) -> u8x32
    requires { at + 32 ≤ length bytes.now }
    ensures { HasLanes 32 result (λ k. slice_index bytes.now (at + k)) }
{
    u8x32::from_slice(&bytes[at..])
}

#[inline(always)]
fn by_low_half(table: &[u8; 32], x: u8x32) -> u8x32
    ensures { HasLanes 32 result (λ k. slice_index table.now (slice_index x k % 16)) }
{
    twice(load_16(table, 0)).swizzle_dyn_within::<16>(x & u8x32::splat(15))
}

#[inline(always)]
fn by_high_half(table: &[u8; 32], x: u8x32) -> u8x32
    ensures { HasLanes 32 result (λ k. slice_index table.now (16 + slice_index x k / 16)) }
{
    twice(load_16(table, 16)).swizzle_dyn_within::<16>(x >> u8x32::splat(4))
}

#[inline(always)]
fn look_up_32(table: &[u8; 32], x: u8x32) -> u8x32
    ensures { HasLanes 32 result (λ k. looked_up table.now (slice_index x k)) }
{
    by_low_half(table, x) ^ by_high_half(table, x)
}

/// The sum and the table's entries for each lane of `x`.
#[inline(always)]
pub(crate) fn add_looked_up(sum: u8x32, table: &[u8; 32], x: u8x32) -> u8x32
    ensures { HasLanes 32 result (λ k. field_sum (slice_index sum k) (looked_up table.now (slice_index x k))) }
{
    sum ^ look_up_32(table, x)
}

/// Adds the table's entries for 32 bytes of the input to the bytes of `out` at the same places.
#[inline(always)]
pub(crate) fn add_block(out: &mut [u8], input: &[u8], at: usize, table: &[u8; 32])
    requires { (at + 32 ≤ length out.old) × (length out.old ≡ length input.now) }
    ensures { AddsLookedUp table.now at (at + 32) input.now out.old out.new }
{
    let x = u8x32::from_slice(&input[at..]);
    let y = u8x32::from_slice(&out[at..]);
    (y ^ look_up_32(table, x)).copy_to_slice(&mut out[at..]);
}
