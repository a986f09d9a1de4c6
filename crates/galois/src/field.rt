//! Sum, product and inverse of field elements.

ghost use Rattle.std.specs.Prelude.{◌≡◌, ◌<◌};
ghost use Rattle.galois.specs.Field.{field_sum, field_product};

use crate::tables;

/// The field sum of two bytes, which is also their difference.
pub fn add(a: u8, b: u8) -> u8
    ensures { result ≡ field_sum a b }
{
    a ^ b
}

/// The field product of two bytes.
pub fn mul(a: u8, b: u8) -> u8
    ensures { result ≡ field_product a b }
{
    if a == 0 || b == 0 {
        return 0;
    }
    let logarithms = tables::logarithms();
    let doublings = usize::from(logarithms[usize::from(a)])
        + usize::from(logarithms[usize::from(b)]);
    tables::powers()[doublings]
}

/// The inverse of `a`, which is not zero.
pub fn inv(a: u8) -> u8
    requires { 0 < a }
    ensures { field_product a result ≡ 1 }
{
    tables::inverses()[usize::from(a)]
}
