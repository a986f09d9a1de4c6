//! Several weighted sums in one pass over the units: each block of columns is read once, and the sums of all rows stay in
//! vector registers until the last unit is added.

ghost use Rattle.std.specs.Prelude.{◌≡◌, ℕ, ◌+◌, ◌*◌, ◌<◌, ◌≤◌, [], length, slice_index, slice_index_or};
ghost use Rattle.lane_kernels.specs.Rows.{AddsUnit, HoldsTotals, PutsColumns, RowsHold, row_total};

use crate::half_tables::look_up;
use crate::lanes::{add_looked_up, load_32};
use std::simd::prelude::*;

// Adds one unit's bytes `x` to the sum of each row. The unit's tables, one for each row, start at `first`.
#[inline(always)]
fn add_unit<const M: usize>(sums: &mut [u8x32; M], tables: &[[u8; 32]], first: usize, x: u8x32)
    requires rows { M ≤ 7 }
    requires tables { first + M ≤ length tables.now }
    ensures { AddsUnit M first tables.now (λ k. slice_index x k) sums.old sums.new }
{
    for row in 0..M {
        sums[row] = add_looked_up(sums[row], &tables[first + row], x);
    }
}

// Adds K vectors of one unit, which start at `place`, each to the sums of its columns.
#[inline(always)]
fn add_vectors<const M: usize, const K: usize>(
    sums: &mut [[u8x32; M]; K],
    tables: &[[u8; 32]],
    first: usize,
    inputs: &[u8],
    place: usize,
)
    requires rows { M ≤ 7 }
    requires vectors { K ≤ 4 }
    requires tables { first + M ≤ length tables.now }
    requires inputs { place + K * 32 ≤ length inputs.now }
    ensures { (p : ℕ) → p < K → AddsUnit M first tables.now (λ k. slice_index inputs.now (place + p * 32 + k)) (slice_index_or sums.old p []) (slice_index_or sums.new p []) }
{
    for part in 0..K {
        let x = load_32(inputs, place + part * 32);
        add_unit(&mut sums[part], tables, first, x);
    }
}

// The sums of all rows in K vectors of columns, from the column `at` on.
#[inline(always)]
fn block_sums<const M: usize, const K: usize>(
    tables: &[[u8; 32]],
    inputs: &[u8],
    count: usize,
    len: usize,
    at: usize,
) -> [[u8x32; M]; K]
    requires rows { M ≤ 7 }
    requires vectors { K ≤ 4 }
    requires tables { count * M ≤ length tables.now }
    requires inputs { length inputs.now ≡ count * len }
    requires within { at + K * 32 ≤ len }
    ensures { (p : ℕ) → p < K → HoldsTotals M len (at + p * 32) count tables.now inputs.now (slice_index_or result p []) }
{
    let mut sums = [[u8x32::splat(0); M]; K];
    for unit in 0..count {
        add_vectors(&mut sums, tables, unit * M, inputs, unit * len + at);
    }
    sums
}

// Writes one vector into each row, from the column `at` on.
#[inline(always)]
fn put_vectors<const M: usize>(out: &mut [u8], sums: &[u8x32; M], len: usize, at: usize)
    requires rows { M ≤ 7 }
    requires out { length out.old ≡ M * len }
    requires within { at + 32 ≤ len }
    requires lanes { (r : ℕ) → r < M → length (slice_index_or sums.now r []) ≡ 32 }
    ensures { PutsColumns M len at 32 (λ r k. slice_index (slice_index_or sums.now r []) k) out.old out.new }
{
    for row in 0..M {
        sums[row].copy_to_slice(&mut out[row * len + at..]);
    }
}

// Writes the sums of all rows into K vectors of columns, from the column `at` on.
#[inline(always)]
fn put_block<const M: usize, const K: usize>(
    out: &mut [u8],
    tables: &[[u8; 32]],
    inputs: &[u8],
    count: usize,
    len: usize,
    at: usize,
)
    requires rows { M ≤ 7 }
    requires vectors { K ≤ 4 }
    requires out { length out.old ≡ M * len }
    requires tables { count * M ≤ length tables.now }
    requires inputs { length inputs.now ≡ count * len }
    requires within { at + K * 32 ≤ len }
    ensures { PutsColumns M len at (K * 32) (λ r k. row_total tables.now M r inputs.now len (at + k) count) out.old out.new }
{
    let sums = block_sums::<M, K>(tables, inputs, count, len, at);
    for part in 0..K {
        put_vectors(out, &sums[part], len, at + part * 32);
    }
}

// The sum of a row in one column.
fn column_sum(
    tables: &[[u8; 32]],
    rows: usize,
    row: usize,
    inputs: &[u8],
    count: usize,
    len: usize,
    column: usize,
) -> u8
    requires tables { count * rows ≤ length tables.now }
    requires inputs { length inputs.now ≡ count * len }
    requires row { row < rows }
    requires within { column < len }
    ensures { result ≡ row_total tables.now rows row inputs.now len column count }
{
    let mut sum = 0;
    for unit in 0..count {
        sum ^= look_up(&tables[unit * rows + row], inputs[unit * len + column]);
    }
    sum
}

// Writes the sum of each row into a column.
fn put_column(
    out: &mut [u8],
    tables: &[[u8; 32]],
    inputs: &[u8],
    rows: usize,
    count: usize,
    len: usize,
    column: usize,
)
    requires out { length out.old ≡ rows * len }
    requires tables { count * rows ≤ length tables.now }
    requires inputs { length inputs.now ≡ count * len }
    requires within { column < len }
    ensures { PutsColumns rows len column 1 (λ r k. row_total tables.now rows r inputs.now len (column + k) count) out.old out.new }
{
    for row in 0..rows {
        out[row * len + column] = column_sum(tables, rows, row, inputs, count, len, column);
    }
}

/// Writes into each of M rows of `len` bytes the sum of what its tables have for the units: K vectors of columns at a
/// time, and the columns that are left one by one. The table of unit j and row r is at j * M + r.
#[inline(always)]
pub(crate) fn put_sums<const M: usize, const K: usize>(
    out: &mut [u8],
    tables: &[[u8; 32]],
    inputs: &[u8],
    count: usize,
    len: usize,
)
    requires rows { M ≤ 7 }
    requires vectors { (1 ≤ K) × (K ≤ 4) }
    requires out { length out.old ≡ M * len }
    requires tables { count * M ≤ length tables.now }
    requires inputs { length inputs.now ≡ count * len }
    ensures { RowsHold M count len len tables.now inputs.now out.new }
{
    let width = K * 32;
    let blocks = len / width;
    for block in 0..blocks {
        put_block::<M, K>(out, tables, inputs, count, len, block * width);
    }
    for column in blocks * width..len {
        put_column(out, tables, inputs, M, count, len, column);
    }
}
