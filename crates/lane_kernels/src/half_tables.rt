//! Products of a factor with the two halves of a byte, from which the product with the byte is put together.

ghost use Rattle.std.specs.Prelude.{◌≡◌};
ghost use Rattle.lane_kernels.specs.Halves.{HoldsHalves, looked_up};

use galois::mul;

/// The products with 0 to 15, then those with the multiples of 16.
pub(crate) fn half_products(c: u8) -> [u8; 32]
    ensures { HoldsHalves c result }
{
    let mut table = [0; 32];
    for half in 0..16u8 {
        table[usize::from(half)] = mul(c, half);
        table[16 + usize::from(half)] = mul(c, half * 16);
    }
    table
}

/// The sum of the entries for the two halves of a byte.
pub(crate) fn look_up(table: &[u8; 32], x: u8) -> u8
    ensures { result ≡ looked_up table.now x }
{
    table[usize::from(x & 15)] ^ table[16 + usize::from(x >> 4)]
}
