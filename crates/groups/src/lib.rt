//! Protection groups: all units of given data, a lost unit, and the data of any n units.
#![tactic(auto)]

ghost use Rattle.std.specs.Prelude.{◌≡◌, ◌+◌, ◌<◌, [], ◌∷◌, List, ℕ, All, length, take, IfOk};
ghost use Rattle.galois.specs.Codeword.{IsCodeword, unit_at};
ghost use Rattle.rs_codes.specs.Codes.{AreUnitsOf, IsCodeSize};

use lane_kernels::dot_any;
use rs_codes::{Have, Plan, Units, codeword, solve};

#[cfg(test)]
mod tests;

use std::alloc::{AllocError, Global};

/// All `n + m` units of the protection group with these data units, the data first. With `n` = 1 it is a mirror.
pub fn build(alloc: Global, n: u8, m: u8, input: &Units) -> Result<Units, AllocError>
    requires size { IsCodeSize n m }
    requires data { length input.now.units ≡ n }
    ensures length { IfOk result (λ u. u.unit_length ≡ input.now.unit_length) }
    ensures word { IfOk result (λ u. IsCodeword n m u.units) }
    ensures data { IfOk result (λ u. take n u.units ≡ input.now.units) }
{
    codeword(alloc, n, m, input)
}

/// The unit at position `want` of the protection group, from any n of its units.
pub fn rebuild(alloc: Global, n: u8, m: u8, have: &Have, want: u8) -> Result<Units, AllocError>
    requires size { IsCodeSize n m }
    requires enough { length have.now.positions ≡ n }
    requires positions { All (λ p. p < n + m) have.now.positions }
    requires wanted { want < n + m }
    ensures length { IfOk result (λ u. u.unit_length ≡ have.now.unit_length) }
    ensures unit { IfOk result (λ u. (word : List (List ℕ)) → AreUnitsOf n m word have.now → u.units ≡ unit_at word want ∷ []) }
{
    let plan = Plan::new(alloc, n, have, want)?;
    let mut unit = vec![in alloc; 0u8; have.unit_length() as usize]?;
    let inputs = have.bytes();
    dot_any(&mut unit, inputs, plan.coefficients());
    Ok(Units::from_bytes(unit, have.unit_length(), 1))
}

/// The n data units of the protection group, from any n of its units.
pub fn data_of(alloc: Global, n: u8, m: u8, have: &Have) -> Result<Units, AllocError>
    requires size { IsCodeSize n m }
    requires enough { length have.now.positions ≡ n }
    requires positions { All (λ p. p < n + m) have.now.positions }
    ensures length { IfOk result (λ d. d.unit_length ≡ have.now.unit_length) }
    ensures count { IfOk result (λ d. length d.units ≡ n) }
    ensures data { IfOk result (λ d. (word : List (List ℕ)) → AreUnitsOf n m word have.now → d.units ≡ take n word) }
{
    solve(alloc, n, m, have)
}
