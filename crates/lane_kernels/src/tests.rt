//! Worked sums, and the kernels beside one product after another.

use crate::{dot_any, mul_add, weighted_sums};
use galois::{add, mul};
use std::alloc::{AllocError, Global};
use std::process::Abort;
use std::test::Fail;

#[test]
fn two_units_of_a_byte_have_the_worked_sum(rt: HostRuntime) {
    let mut out = [0xff];
    dot_any(&mut out, &[0x07, 0x04], &[0x03, 0x02]);
    assert_eq!(rt; out, [0x01]);
}

#[test]
fn a_product_is_added_to_itself(rt: HostRuntime) {
    let mut out = [0x1D];
    mul_add(&mut out, &[0x80], 0x02);
    assert_eq!(rt; out, [0x00]);
}

// Bytes that look random.
fn sample(alloc: Global, seed: u32, count: usize) -> Result<Vec<u8>, AllocError> {
    let mut bytes = Vec::new(alloc);
    let mut state = seed;
    for _byte in 0..count {
        state = state.wrapping_mul(1_664_525).wrapping_add(1_013_904_223);
        bytes.push((state >> 24) as u8)?;
    }
    Ok(bytes)
}

// The sum of the units, one product after another.
fn plain_sum(alloc: Global, inputs: &[u8], c: &[u8], len: usize) -> Result<Vec<u8>, AllocError> {
    let mut sum = vec![in alloc; 0u8; len]?;
    for (unit, factor) in inputs.chunks(len.max(1)).zip(c) {
        for (total, byte) in sum.iter_mut().zip(unit) {
            *total = add(*total, mul(*factor, *byte));
        }
    }
    Ok(sum)
}

// Compares one sum of units of `len` bytes with the plain sum.
fn compare_dot(rt: &impl Abort, alloc: Global, count: usize, len: usize) -> Result<(), AllocError> {
    assert!(rt; 1 <= count && count <= 16 && len <= 130);
    let inputs = sample(alloc, 5, count * len)?;
    let c = sample(alloc, 7, count)?;
    let mut out = sample(alloc, 9, len)?;
    let fits = c.len() == count && out.len() == len && inputs.len() == c.len() * out.len();
    assert!(rt; fits);
    dot_any(&mut out, &inputs, &c);
    assert_eq!(rt;
        out,
        plain_sum(alloc, &inputs, &c, len)?,
        "{count} units of {len} bytes"
    );
    Ok(())
}

// Compares the sums of several rows with plain sums.
fn compare_rows(
    rt: &impl Abort,
    alloc: Global,
    rows: usize,
    count: usize,
    len: usize,
) -> Result<(), AllocError> {
    assert!(rt; 1 <= rows && rows <= 7 && 1 <= count && count <= 16 && len <= 130);
    let inputs = sample(alloc, 5, count * len)?;
    let weights = sample(alloc, 7, rows * count)?;
    let mut out = sample(alloc, 9, rows * len)?;
    assert!(rt; inputs.len() == count * len);
    assert!(rt; weights.len() == rows * count && weights.len() <= 112);
    assert!(rt; out.len() == rows * len);
    weighted_sums(&mut out, &inputs, &weights, rows, count, len);
    for (sum, c) in out.chunks(len.max(1)).zip(weights.chunks(count)) {
        let plain = plain_sum(alloc, &inputs, c, len)?;
        assert_eq!(rt;
            sum,
            plain.as_slice(),
            "{rows} rows, {count} units of {len} bytes"
        );
    }
    Ok(())
}

#[test]
fn kernels_of_all_sizes_give_the_plain_sums(rt: HostRuntime) -> Result<(), Fail> {
    for len in [0usize, 1, 31, 32, 33, 63, 64, 65, 100, 127, 128, 129, 130] {
        for count in 1..=16usize {
            compare_dot(&rt, rt.alloc(), count, len)?;
        }
        for rows in 1..=7usize {
            compare_rows(&rt, rt.alloc(), rows, 3, len)?;
        }
    }
    Ok(())
}
