//! Worked values of products, inverses and interpolation.

use galois::{Point8, add, interpolate, inv, mul, value_at};
use lists::List;
use std::test::Fail;

#[test]
fn products_and_inverses_are_those_of_0x11d(rt: HostRuntime) {
    assert_eq!(rt; mul(0x80, 0x02), 0x1D);
    assert_eq!(rt; inv(0x02), 0x8E);
    assert_eq!(rt; add(0x57, 0x83), 0xD4);
    assert_eq!(rt; mul(0x00, 0x53), 0x00);
}

#[test]
fn two_points_give_a_line(rt: HostRuntime) -> Result<(), Fail> {
    let mut points = List::new(rt.alloc());
    points.push(Point8 { x: 0x00, y: 0x01 })?;
    points.push(Point8 { x: 0x01, y: 0x02 })?;
    let line = interpolate(rt.alloc(), &points)?;
    assert_eq!(rt; line.coefficients(), [0x01, 0x03].as_slice());
    assert_eq!(rt; value_at(&line, 0x02), 0x07);
    assert_eq!(rt; value_at(&line, 0x03), 0x04);
    Ok(())
}

#[test]
fn no_point_gives_the_zero_polynomial(rt: HostRuntime) -> Result<(), Fail> {
    let nothing = interpolate(rt.alloc(), &List::new(rt.alloc()))?;
    assert_eq!(rt; nothing.coefficients().len(), 0);
    assert_eq!(rt; value_at(&nothing, 0x05), 0x00);
    Ok(())
}
