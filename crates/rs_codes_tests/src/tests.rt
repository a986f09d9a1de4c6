//! Worked codes of two data units of one byte.

use rs_codes::{Have, Plan, Units, encode, solve};
use std::alloc::{AllocError, Global};
use std::test::Fail;

fn one_byte_units(alloc: Global, first: u8, second: u8) -> Result<Units, AllocError> {
    let mut units = Units::new(alloc, 1);
    units.push(&[first])?;
    units.push(&[second])?;
    Ok(units)
}

fn corrections_at_hand(alloc: Global) -> Result<Have, AllocError> {
    let mut have = Have::new(alloc, 1);
    have.push(2, &[0x07])?;
    have.push(3, &[0x04])?;
    Ok(have)
}

#[test]
fn two_data_units_have_two_correction_units(rt: HostRuntime) -> Result<(), Fail> {
    let input = one_byte_units(rt.alloc(), 0x01, 0x02)?;
    assert_eq!(rt; input.count(), 2);
    let corrections = encode(rt.alloc(), 2, 2, &input)?;
    assert_eq!(rt; corrections.bytes(), [0x07, 0x04].as_slice());
    Ok(())
}

#[test]
fn correction_units_alone_give_the_data(rt: HostRuntime) -> Result<(), Fail> {
    let have = corrections_at_hand(rt.alloc())?;
    assert_eq!(rt; have.positions(), [2, 3].as_slice());
    let data = solve(rt.alloc(), 2, 2, &have)?;
    assert_eq!(rt; data.bytes(), [0x01, 0x02].as_slice());
    Ok(())
}

#[test]
fn the_plan_for_the_first_unit_is_three_and_two(rt: HostRuntime) -> Result<(), Fail> {
    let have = corrections_at_hand(rt.alloc())?;
    assert_eq!(rt; have.positions(), [2, 3].as_slice());
    let plan = Plan::new(rt.alloc(), 2, &have, 0)?;
    assert_eq!(rt; plan.coefficients(), [0x03, 0x02].as_slice());
    Ok(())
}

#[test]
fn a_position_is_held_once(rt: HostRuntime) -> Result<(), Fail> {
    let have = corrections_at_hand(rt.alloc())?;
    assert!(rt; have.has(2));
    assert!(rt; !have.has(0));
    Ok(())
}
