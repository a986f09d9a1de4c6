//! Polynomials over the field.

ghost use Rattle.std.specs.Prelude.{◌≡◌};
ghost use Rattle.galois.specs.Polynomial.{polynomial_value};

use crate::{add, mul};
use std::marker::Model;

/// A polynomial over the field. Contracts see the list of its coefficients, the constant first.
#[derive(Drop)]
pub struct Poly {
    coefficients: Vec<u8>,
}

impl Model for Poly {
    ghost use Rattle.std.specs.Prelude.{List, ℕ};

    ghost Value = { List ℕ };

    ghost view = { λ p. p.coefficients.items };
}

impl Poly {
    /// The polynomial with these coefficients, the constant first.
    pub fn new(coefficients: Vec<u8>) -> Self
        ensures { result ≡ coefficients.items }
    {
        Poly { coefficients }
    }

    /// The coefficients, the constant first.
    pub fn coefficients(&self) -> &[u8]
        ensures { result.now ≡ self.now }
    {
        &self.coefficients
    }
}

/// The value of the polynomial at an element.
pub fn value_at(p: &Poly, x: u8) -> u8
    ensures { result ≡ polynomial_value p.now x }
{
    value_of(p.coefficients(), x)
}

/// The value at an element of the polynomial with these coefficients, by Horner's rule.
pub(crate) fn value_of(coefficients: &[u8], x: u8) -> u8
    ensures { result ≡ polynomial_value coefficients.now x }
{
    let mut value = 0;
    for degree in (0..coefficients.len()).rev() {
        value = add(coefficients[degree], mul(x, value));
    }
    value
}
