//! A multiple of one byte string, added to another.

ghost use Rattle.std.specs.Prelude.{◌≡◌, ◌*◌, ◌≤◌, EachIndex, length, slice_index};
ghost use Rattle.galois.specs.Field.{field_sum, field_product};
ghost use Rattle.lane_kernels.specs.Lanes.{AddsLookedUp};

use crate::half_tables::{half_products, look_up};
use crate::lanes::add_block;

/// Adds `c` times each byte of `input` to the byte of `out` at the same place.
pub fn mul_add(out: &mut [u8], input: &[u8], c: u8)
    requires { length out.old ≡ length input.now }
    ensures { EachIndex out.new (λ k. slice_index out.new k ≡ field_sum (slice_index out.old k) (field_product c (slice_index input.now k))) }
{
    let table = half_products(c);
    let blocks = out.len() / 64;
    add_blocks(out, input, blocks, &table);
    add_tail(out, input, blocks * 64, &table);
}

// Adds the table's entries for the first blocks of 64 bytes, two vectors each.
fn add_blocks(out: &mut [u8], input: &[u8], blocks: usize, table: &[u8; 32])
    requires { (blocks * 64 ≤ length out.old) × (length out.old ≡ length input.now) }
    ensures { AddsLookedUp table.now 0 (blocks * 64) input.now out.old out.new }
{
    for block in 0..blocks {
        add_block(out, input, block * 64, table);
        add_block(out, input, block * 64 + 32, table);
    }
}

// Adds the table's entries for the bytes from a place on, one by one.
fn add_tail(out: &mut [u8], input: &[u8], from: usize, table: &[u8; 32])
    requires { (from ≤ length out.old) × (length out.old ≡ length input.now) }
    ensures { AddsLookedUp table.now from (length out.old) input.now out.old out.new }
{
    for k in from..out.len() {
        out[k] ^= look_up(table, input[k]);
    }
}
