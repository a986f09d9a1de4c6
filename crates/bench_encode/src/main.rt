//! Measures the codes: with the argument `time` it prints the best rate of each call in GB/s of data, else it encodes one
//! group.
#![tactic(auto)]

ghost use Rattle.std.specs.Prelude.{◌≡◌, ◌≤◌, ◌*◌, length};
ghost use Rattle.rs_codes.specs.Codes.{IsCodeSize};

use anyhow::{Result, ensure};
use groups::{build, rebuild};
use lane_kernels::{mul_add, weighted_sums};
use rs_codes::{Have, Units, encode};
use std::alloc::{AllocError, Global};
use std::env;
use std::time::Instant;

// The slices of about a millisecond of which the best one counts.
const SLICES: u32 = 200;

// Bytes that look random.
fn sample(alloc: Global, seed: u8, count: usize) -> Result<Vec<u8>, AllocError> {
    let mut bytes = Vec::with_capacity(alloc, count)?;
    let mut state = u64::from(seed);
    for _byte in 0..count {
        state = state
            .wrapping_mul(6_364_136_223_846_793_005)
            .wrapping_add(1_442_695_040_888_963_407);
        bytes.push((state >> 56) as u8)?;
    }
    Ok(bytes)
}

fn data_units(alloc: Global, n: u8, len: u32) -> Result<Units, AllocError> {
    let mut input = Units::new(alloc, len);
    for i in 0..n {
        let unit = sample(alloc, i, len as usize)?;
        if input.count() < 255 && unit.len() == input.unit_length() as usize {
            input.push(&unit)?;
        }
    }
    Ok(input)
}

// The units at positions 1 to n, so that unit 0 is lost.
fn units_but_the_first(alloc: Global, n: u8, len: u32) -> Result<Have, AllocError> {
    let mut have = Have::new(alloc, len);
    for position in 1..=n {
        let unit = sample(alloc, position, len as usize)?;
        if !have.has(position) && unit.len() == have.unit_length() as usize {
            have.push(position, &unit)?;
        }
    }
    Ok(have)
}

// The best rate of a call over some slices, in hundredths of a GB/s.
macro_rules! best_rate {
    ($rt:expr, $bytes:expr, $call:expr) => {{
        let bytes = $bytes;
        let calls = 4_000_000u64
            .checked_div(bytes)
            .unwrap_or(0)
            .saturating_add(1);
        let mut best = 0;
        for _slice in 0..SLICES {
            let start = Instant::now(&$rt)?;
            for _call in 0..calls {
                $call;
            }
            let nanos = u64::try_from(start.elapsed(&$rt)?.as_nanos()).unwrap_or(u64::MAX);
            let rate = bytes
                .saturating_mul(calls)
                .saturating_mul(100)
                .checked_div(nanos);
            best = best.max(rate.unwrap_or(0));
        }
        best
    }};
}

fn encode_rate(rt: HostRuntime, n: u8, m: u8, len: u32) -> Result<u64>
    requires { IsCodeSize n m }
{
    let input = data_units(rt.alloc(), n, len)?;
    let count = input.count();
    ensure!(count == n, "{count} units");
    Ok(best_rate!(
        rt,
        input.bytes().len() as u64,
        encode(rt.alloc(), n, m, &input)?
    ))
}

fn build_rate(rt: HostRuntime, n: u8, m: u8, len: u32) -> Result<u64>
    requires { IsCodeSize n m }
{
    let input = data_units(rt.alloc(), n, len)?;
    let count = input.count();
    ensure!(count == n, "{count} units");
    Ok(best_rate!(
        rt,
        input.bytes().len() as u64,
        build(rt.alloc(), n, m, &input)?
    ))
}

fn rebuild_rate(rt: HostRuntime, n: u8, len: u32) -> Result<u64>
    requires { IsCodeSize n 1 }
{
    let have = units_but_the_first(rt.alloc(), n, len)?;
    let fits = have.positions().len() == usize::from(n)
        && have.positions().iter().all(|p| *p < n + 1);
    ensure!(fits, "other positions");
    Ok(best_rate!(
        rt,
        have.bytes().len() as u64,
        rebuild(rt.alloc(), n, 1, &have, 0)?
    ))
}

#[inline(never)]
fn put_sums(out: &mut [u8], inputs: &[u8], weights: &[u8], rows: usize, count: usize, len: usize)
    requires rows { (1 ≤ rows) × (rows ≤ 7) }
    requires out { length out.old ≡ rows * len }
    requires inputs { length inputs.now ≡ count * len }
    requires weights { (length weights.now ≡ rows * count) × (length weights.now ≤ 112) }
{
    weighted_sums(out, inputs, weights, rows, count, len);
}

// The kernel of `encode` alone, without its memory and its weights.
fn kernel_rate(rt: HostRuntime, rows: usize, count: usize, len: usize) -> Result<u64>
    requires rows { (1 ≤ rows) × (rows ≤ 7) }
    requires weights { rows * count ≤ 112 }
{
    let inputs = sample(rt.alloc(), 1, count.saturating_mul(len))?;
    let weights = sample(rt.alloc(), 2, rows.saturating_mul(count))?;
    let mut out = sample(rt.alloc(), 3, rows.saturating_mul(len))?;
    let bytes = inputs.len() as u64;
    Ok(best_rate!(
        rt,
        bytes,
        {
            let fits = len <= 1_000_000
                && out.len() == rows * len
                && inputs.len() == count * len
                && weights.len() == rows * count;
            ensure!(fits, "other lengths");
            put_sums(&mut out, &inputs, &weights, rows, count, len)
        }
    ))
}

fn mul_add_rate(rt: HostRuntime, len: usize) -> Result<u64> {
    let input = sample(rt.alloc(), 1, len)?;
    let mut out = sample(rt.alloc(), 2, len)?;
    Ok(best_rate!(
        rt,
        len as u64,
        {
            ensure!(out.len() == input.len(), "other lengths");
            mul_add(&mut out, &input, 7)
        }
    ))
}

// A line with a rate in GB/s.
fn print_rate(rt: HostRuntime, call: &str, len: u32, rate: u64) -> Result<()> {
    let kib = len / 1024;
    let whole = rate / 100;
    let tenths = rate / 10 % 10;
    let hundredths = rate % 10;
    println!(rt; "{call} {kib} KiB {whole}.{tenths}{hundredths}")?;
    Ok(())
}

fn time_all(rt: HostRuntime, len: u32) -> Result<()> {
    print_rate(rt, "mul_add", len, mul_add_rate(rt, len as usize)?)?;
    print_rate(
        rt,
        "kernel (4,2)",
        len,
        kernel_rate(rt, 2, 4, len as usize)?,
    )?;
    print_rate(
        rt,
        "kernel (8,2)",
        len,
        kernel_rate(rt, 2, 8, len as usize)?,
    )?;
    print_rate(
        rt,
        "kernel (16,4)",
        len,
        kernel_rate(rt, 4, 16, len as usize)?,
    )?;
    print_rate(rt, "encode (4,2)", len, encode_rate(rt, 4, 2, len)?)?;
    print_rate(rt, "encode (8,2)", len, encode_rate(rt, 8, 2, len)?)?;
    print_rate(rt, "encode (16,4)", len, encode_rate(rt, 16, 4, len)?)?;
    print_rate(rt, "build (4,2)", len, build_rate(rt, 4, 2, len)?)?;
    print_rate(rt, "build (8,2)", len, build_rate(rt, 8, 2, len)?)?;
    print_rate(rt, "build (16,4)", len, build_rate(rt, 16, 4, len)?)?;
    print_rate(rt, "rebuild n=4", len, rebuild_rate(rt, 4, len)?)?;
    print_rate(rt, "rebuild n=8", len, rebuild_rate(rt, 8, len)?)?;
    print_rate(rt, "rebuild n=16", len, rebuild_rate(rt, 16, len)?)
}

fn main(rt: HostRuntime) -> Result<()> {
    if env::args(&rt)?.count() > 1 {
        time_all(rt, 8192)?;
        return time_all(rt, 131_072);
    }
    let input = data_units(rt.alloc(), 4, 8192)?;
    let count = input.count();
    ensure!(count == 4, "{count} units");
    let corrections = encode(rt.alloc(), 4, 2, &input)?;
    println!(rt; "{} correction units", corrections.count())?;
    Ok(())
}
