//! Weighted sums of units, for one to seven rows of weights.

ghost use Rattle.std.specs.Prelude.{◌≡◌, ℕ, ◌*◌, ◌<◌, ◌≤◌, [], length, slice_index_or};
ghost use Rattle.lane_kernels.specs.Halves.{HoldTables};
ghost use Rattle.lane_kernels.specs.WeightedSums.{IsWeightedSum, units_in};

use crate::half_tables::half_products;
use crate::rows::put_sums;

// The most weights in one call: seven rows of sixteen.
const MOST_WEIGHTS: usize = 112;

// The tables of all weights, unit by unit: those that one step of the kernel needs lie side by side.
fn tables_of<const M: usize>(weights: &[u8], count: usize) -> [[u8; 32]; MOST_WEIGHTS]
    requires weights { length weights.now ≡ M * count }
    requires few { M * count ≤ 112 }
    ensures { HoldTables M count count weights.now result }
{
    let mut tables = [[0; 32]; MOST_WEIGHTS];
    for unit in 0..count {
        for row in 0..M {
            tables[unit * M + row] = half_products(weights[row * count + unit]);
        }
    }
    tables
}

/// Sets each of M rows of `out` to a weighted sum, computed K vectors of columns at a time.
#[inline(always)]
pub(crate) fn sums_of_rows<const M: usize, const K: usize>(
    out: &mut [u8],
    inputs: &[u8],
    weights: &[u8],
    count: usize,
    len: usize,
)
    requires rows { M ≤ 7 }
    requires vectors { (1 ≤ K) × (K ≤ 4) }
    requires out { length out.old ≡ M * len }
    requires inputs { length inputs.now ≡ count * len }
    requires weights { length weights.now ≡ M * count }
    requires few { length weights.now ≤ 112 }
    ensures { (r : ℕ) → r < M → IsWeightedSum (slice_index_or (units_in M count weights.now) r []) (units_in count len inputs.now) (slice_index_or (units_in M len out.new) r []) }
{
    let tables = tables_of::<M>(weights, count);
    put_sums::<M, K>(out, &tables, inputs, count, len);
}

/// Sets each of the 1 to 7 rows of `out` to the sum of the units in `inputs`, each times its weight in that row. Units and
/// rows follow one another and have `len` bytes each. The weights follow one another row by row, `count` in each row, at
/// most 112 in all.
pub fn weighted_sums(
    out: &mut [u8],
    inputs: &[u8],
    weights: &[u8],
    rows: usize,
    count: usize,
    len: usize,
)
    requires rows { (1 ≤ rows) × (rows ≤ 7) }
    requires out { length out.old ≡ rows * len }
    requires inputs { length inputs.now ≡ count * len }
    requires weights { length weights.now ≡ rows * count }
    requires few { length weights.now ≤ 112 }
    ensures { (r : ℕ) → r < rows → IsWeightedSum (slice_index_or (units_in rows count weights.now) r []) (units_in count len inputs.now) (slice_index_or (units_in rows len out.new) r []) }
{
    // As many vectors as stay in the registers of x86-64-v2.
    match rows {
        1 => sums_of_rows::<1, 4>(out, inputs, weights, count, len),
        2 => sums_of_rows::<2, 2>(out, inputs, weights, count, len),
        3 => sums_of_rows::<3, 1>(out, inputs, weights, count, len),
        4 => sums_of_rows::<4, 1>(out, inputs, weights, count, len),
        5 => sums_of_rows::<5, 1>(out, inputs, weights, count, len),
        6 => sums_of_rows::<6, 1>(out, inputs, weights, count, len),
        7 => sums_of_rows::<7, 1>(out, inputs, weights, count, len),
        _ => unreachable!(),
    }
}
