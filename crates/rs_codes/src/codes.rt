//! The correction units of data, and the data of any n units.

ghost use Rattle.std.specs.Prelude.{◌≡◌, ◌+◌, ◌*◌, ◌<◌, ◌≤◌, ◌++◌, ◌^◌, List, ℕ, All, length, take, drop, replicate, IfOk};
ghost use Rattle.galois.specs.Codeword.{IsCodeword, unit_at};
ghost use Rattle.galois.specs.Field.{IsByte};
ghost use Rattle.lane_kernels.specs.WeightedSums.{IsWeightedSum, units_in};
ghost use Rattle.rs_codes.specs.Codes.{AddsSum, AreCorrectionWeights, AreFirst, AreUnitsOf, IsCodeSize};

use crate::plan::weights_at;
use crate::{Have, Plan, Units};
use lane_kernels::{dot_any, weighted_sums};
use std::alloc::{AllocError, Global};

/// The `m` correction units of `n` data units. Together they are a codeword.
pub fn encode(alloc: Global, n: u8, m: u8, input: &Units) -> Result<Units, AllocError>
    requires size { IsCodeSize n m }
    requires data { length input.now.units ≡ n }
    ensures length { IfOk result (λ c. c.unit_length ≡ input.now.unit_length) }
    ensures word { IfOk result (λ c. IsCodeword n m (input.now.units ++ c.units)) }
{
    let rows = correction_weights(alloc, n, m)?;
    let len = input.unit_length() as usize;
    let inputs = input.bytes();
    let mut bytes = vec![in alloc; 0u8; usize::from(m) * len]?;
    put_corrections(&mut bytes, inputs, &rows, len);
    Ok(Units::from_bytes(bytes, input.unit_length(), m))
}

/// The codeword of `n` data units: the data, followed by its `m` correction units, in one allocation.
pub fn codeword(alloc: Global, n: u8, m: u8, input: &Units) -> Result<Units, AllocError>
    requires size { IsCodeSize n m }
    requires data { length input.now.units ≡ n }
    ensures length { IfOk result (λ u. u.unit_length ≡ input.now.unit_length) }
    ensures word { IfOk result (λ u. IsCodeword n m u.units) }
    ensures data { IfOk result (λ u. take n u.units ≡ input.now.units) }
{
    let rows = correction_weights(alloc, n, m)?;
    let len = input.unit_length() as usize;
    let inputs = input.bytes();
    let mut bytes = data_with_room(alloc, inputs, usize::from(m) * len)?;
    put_after_data(&mut bytes, inputs.len(), &rows, len);
    Ok(Units::from_bytes(bytes, input.unit_length(), n + m))
}

/// The `n` data units of the codeword that the held units belong to.
pub fn solve(alloc: Global, n: u8, m: u8, have: &Have) -> Result<Units, AllocError>
    requires size { IsCodeSize n m }
    requires enough { length have.now.positions ≡ n }
    requires positions { All (λ p. p < n + m) have.now.positions }
    ensures length { IfOk result (λ d. d.unit_length ≡ have.now.unit_length) }
    ensures count { IfOk result (λ d. length d.units ≡ n) }
    ensures data { IfOk result (λ d. (word : List (List ℕ)) → AreUnitsOf n m word have.now → d.units ≡ take n word) }
{
    let mut unit = vec![in alloc; 0u8; have.unit_length() as usize]?;
    let mut data = Units::new(alloc, have.unit_length());
    let inputs = have.bytes();
    for position in 0..n {
        let plan = Plan::new(alloc, n, have, position)?;
        push_sum(&mut data, &mut unit, inputs, plan.coefficients())?;
    }
    Ok(data)
}

// The weights of the data units in each correction unit, one row for each correction unit.
fn correction_weights(alloc: Global, n: u8, m: u8) -> Result<Units, AllocError>
    requires size { IsCodeSize n m }
    ensures count { IfOk result (λ rows. length rows.units ≡ m) }
    ensures weights { IfOk result (AreCorrectionWeights n) }
{
    let positions = first_positions(alloc, n)?;
    let mut rows = Units::new(alloc, u32::from(n));
    for correction in 0..m {
        let row = weights_at(alloc, &positions, n + correction)?;
        rows.push(&row)?;
    }
    Ok(rows)
}

// The data, followed by `room` zeros.
fn data_with_room(alloc: Global, inputs: &[u8], room: usize) -> Result<Vec<u8>, AllocError>
    requires { room ≤ 2 ^ 40 }
    ensures { IfOk result (λ v. v.items ≡ inputs.now ++ replicate room 0) }
{
    let whole = inputs.len() + room;
    let mut bytes = Vec::with_capacity(alloc, whole)?;
    bytes.extend_from_slice(inputs)?;
    bytes.resize(whole, 0)?;
    Ok(bytes)
}

// Writes the weighted sums of the units in `inputs`, one for each row of weights. All units have `len` bytes.
fn put_corrections(out: &mut [u8], inputs: &[u8], rows: &Units, len: usize)
    requires count { (1 ≤ length rows.now.units) × (length rows.now.units ≤ 7) }
    requires width { rows.now.unit_length ≤ 16 }
    requires out { length out.old ≡ length rows.now.units * len }
    requires inputs { length inputs.now ≡ rows.now.unit_length * len }
    ensures bytes { All IsByte inputs.now }
    ensures sums { (r : ℕ) → r < length rows.now.units → IsWeightedSum (unit_at rows.now.units r) (units_in rows.now.unit_length len inputs.now) (unit_at (units_in (length rows.now.units) len out.new) r) }
{
    let count = usize::from(rows.count());
    let width = rows.unit_length() as usize;
    weighted_sums(out, inputs, rows.bytes(), count, width, len);
}

// The positions of the data units.
fn first_positions(alloc: Global, n: u8) -> Result<Vec<u8>, AllocError>
    ensures { IfOk result (λ v. AreFirst n v.items) }
{
    let mut positions = Vec::new(alloc);
    for position in 0..n {
        positions.push(position)?;
    }
    Ok(positions)
}

// Writes the correction units behind the data, which ends at `start`.
fn put_after_data(bytes: &mut [u8], start: usize, rows: &Units, len: usize)
    requires count { (1 ≤ length rows.now.units) × (length rows.now.units ≤ 7) }
    requires width { rows.now.unit_length ≤ 16 }
    requires data { start ≡ rows.now.unit_length * len }
    requires room { length bytes.old ≡ start + length rows.now.units * len }
    ensures data { take start bytes.new ≡ take start bytes.old }
    ensures bytes { All IsByte (take start bytes.old) }
    ensures sums { (r : ℕ) → r < length rows.now.units → IsWeightedSum (unit_at rows.now.units r) (units_in rows.now.unit_length len (take start bytes.old)) (unit_at (units_in (length rows.now.units) len (drop start bytes.new)) r) }
{
    let (data, rest) = bytes.split_at_mut(start);
    put_corrections(rest, data, rows, len);
}

// Appends the weighted sum of the units in `inputs`, computed in `scratch`.
fn push_sum(
    units: &mut Units,
    scratch: &mut [u8],
    inputs: &[u8],
    weights: &[u8],
) -> Result<(), AllocError>
    requires scratch { length scratch.old ≡ units.old.unit_length }
    requires inputs { length inputs.now ≡ length weights.now * units.old.unit_length }
    requires weights { (1 ≤ length weights.now) × (length weights.now ≤ 16) }
    requires room { length units.old.units < 255 }
    ensures { IfOk result (λ _. AddsSum weights.now inputs.now units.old units.new) }
{
    dot_any(scratch, inputs, weights);
    units.push(scratch)
}
