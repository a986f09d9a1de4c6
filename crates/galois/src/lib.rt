//! GF(2^8) modulo 0x11D, the field over which stripe units are coded, and polynomials over it.
#![tactic(auto)]

mod field;
mod interpolation;
pub mod laws;
mod polynomial;
mod tables;

pub use field::{add, inv, mul};
pub use interpolation::{Point8, interpolate};
pub use polynomial::{Poly, value_at};
