//! One weighted sum of up to sixteen units.

ghost use Rattle.std.specs.Prelude.{◌≡◌, ◌*◌, ◌≤◌, length};
ghost use Rattle.lane_kernels.specs.WeightedSums.{IsWeightedSum, units_in};

use crate::weighted::sums_of_rows;

/// Sets `out` to the sum of the N units in `inputs`, each times its factor. The units follow one another and have the
/// length of `out`.
pub fn dot<const N: usize>(out: &mut [u8], inputs: &[u8], c: &[u8; N])
    requires inputs { length inputs.now ≡ N * length out.old }
    requires factors { N ≤ 16 }
    ensures { IsWeightedSum c.now (units_in N (length out.old) inputs.now) out.new }
{
    let len = out.len();
    sums_of_rows::<1, 4>(out, inputs, c, N, len);
}

// The same for a slice of N factors.
fn dot_of<const N: usize>(out: &mut [u8], inputs: &[u8], c: &[u8])
    requires inputs { length inputs.now ≡ length c.now * length out.old }
    requires factors { (length c.now ≡ N) × (N ≤ 16) }
    ensures { IsWeightedSum c.now (units_in (length c.now) (length out.old) inputs.now) out.new }
{
    if let Some(c) = c.first_chunk::<N>() {
        dot(out, inputs, c);
    }
}

// Calls `dot` at the number of factors.
macro_rules! dot_by_count {
    ($out:expr, $inputs:expr, $c:expr; $($count:literal)*) => {
        match $c.len() {
            $($count => dot_of::<$count>($out, $inputs, $c),)*
            _ => unreachable!(),
        }
    };
}

/// The same for 1 to 16 factors, as many as there are units.
pub fn dot_any(out: &mut [u8], inputs: &[u8], c: &[u8])
    requires inputs { length inputs.now ≡ length c.now * length out.old }
    requires factors { (1 ≤ length c.now) × (length c.now ≤ 16) }
    ensures { IsWeightedSum c.now (units_in (length c.now) (length out.old) inputs.now) out.new }
{
    dot_by_count!(out, inputs, c; 1 2 3 4 5 6 7 8 9 10 11 12 13 14 15 16);
}
