//! Newton interpolation: the polynomial through given points.

ghost use Rattle.std.specs.Prelude.{◌≡◌, ◌≢◌, All, [], ◌∷◌, ◌++◌, ◌+◌, length, IfOk, OnOk};
ghost use Rattle.galois.specs.Field.{IsByte, field_sum, field_product};
ghost use Rattle.galois.specs.Points.{AreApart, TakesAll, TakesPoint};
ghost use Rattle.galois.specs.Polynomial.{added, linear_times, polynomial_value};

use crate::polynomial::{Poly, value_of};
use crate::{add, inv, mul};
use lists::List;
use std::alloc::{AllocError, Global};

/// The value `y` at the element `x`.
#[derive(Clone, Copy, Debug, PartialEq, Eq)]
pub struct Point8 {
    pub x: u8,
    pub y: u8,
}

/// The polynomial through n points at different elements. It has n coefficients, the constant first.
pub fn interpolate(alloc: Global, points: &List<Point8>) -> Result<Poly, AllocError>
    requires apart { AreApart points.now }
    ensures degree { IfOk result (λ p. length p ≡ length points.now) }
    ensures takes { IfOk result (λ p. TakesAll p points.now) }
{
    let mut coefficients = Vec::new(alloc);
    let mut roots = vec![in alloc; 1u8]?;
    for point in points.as_slice() {
        take_point(&mut coefficients, &mut roots, *point)?;
    }
    Ok(Poly::new(coefficients))
}

// Adds a point to the interpolating polynomial, and its element to the roots of the other.
fn take_point(
    coefficients: &mut Vec<u8>,
    roots: &mut Vec<u8>,
    point: Point8,
) -> Result<(), AllocError>
    requires bytes { All IsByte coefficients.old.items }
    requires root_bytes { All IsByte roots.old.items }
    requires apart { IsByte point.x → polynomial_value roots.old.items point.x ≢ 0 }
    requires wide { length roots.old.items ≡ length coefficients.old.items + 1 }
    ensures { OnOk result (TakesPoint point coefficients.old.items roots.old.items coefficients.new.items roots.new.items) }
{
    let scale = scale_at(coefficients, roots, point);
    add_multiple(coefficients, roots, scale)?;
    times_root(roots, point.x)
}

// The multiple of the root polynomial that makes the sum take the point.
fn scale_at(coefficients: &[u8], roots: &[u8], point: Point8) -> u8
    requires apart { polynomial_value roots.now point.x ≢ 0 }
    ensures { field_product result (polynomial_value roots.now point.x) ≡ field_sum point.y (polynomial_value coefficients.now point.x) }
{
    let missing = add(point.y, value_of(coefficients, point.x));
    mul(missing, inv(value_of(roots, point.x)))
}

// Adds a multiple of a polynomial that has one more coefficient.
fn add_multiple(coefficients: &mut Vec<u8>, others: &[u8], scale: u8) -> Result<(), AllocError>
    requires { length others.now ≡ length coefficients.old.items + 1 }
    ensures { OnOk result (coefficients.new.items ≡ added scale (coefficients.old.items ++ 0 ∷ []) others.now) }
{
    coefficients.push(0)?;
    add_each(coefficients, others, scale);
    Ok(())
}

// Adds a multiple of each coefficient of a polynomial of the same length.
fn add_each(coefficients: &mut [u8], others: &[u8], scale: u8)
    requires { length coefficients.old ≡ length others.now }
    ensures { coefficients.new ≡ added scale coefficients.old others.now }
{
    for degree in 0..coefficients.len() {
        coefficients[degree] = add(coefficients[degree], mul(scale, others[degree]));
    }
}

// Multiplies by the linear polynomial with this root.
fn times_root(coefficients: &mut Vec<u8>, root: u8) -> Result<(), AllocError>
    ensures { OnOk result (coefficients.new.items ≡ linear_times root 0 coefficients.old.items) }
{
    let top = times_root_below(coefficients, root);
    coefficients.push(top)?;
    Ok(())
}

// Multiplies by the linear polynomial with this root in place, and returns the new leading coefficient.
fn times_root_below(coefficients: &mut [u8], root: u8) -> u8
    ensures { coefficients.new ++ result ∷ [] ≡ linear_times root 0 coefficients.old }
{
    let mut carried = 0;
    for degree in 0..coefficients.len() {
        let coefficient = coefficients[degree];
        coefficients[degree] = add(carried, mul(root, coefficient));
        carried = coefficient;
    }
    carried
}
