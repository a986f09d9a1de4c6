//! Small groups, with the values of a code of two data and two correction units.

use domains::Group;
use file_core::PulledGroup;
use lists::List;
use rs_codes::Have;
use std::test::Fail;
use write_rule::NewBytes;
use write_units::{group_units, old_group};

#[test]
fn a_group_is_built_over_a_gap_and_a_payload(rt: HostRuntime) -> Result<(), Fail> {
    let bytes = NewBytes {
        before: &[0x01],
        gap: 1,
        payload: &[0x80],
        after: &[],
    };
    let group = group_units(rt.alloc(), &bytes, 1, 1, 2, 2)?;
    assert_eq!(rt; group.bytes(), [0x00, 0x80, 0x1D, 0x9D].as_slice());
    Ok(())
}

#[test]
fn old_bytes_are_decoded_from_correction_units(rt: HostRuntime) -> Result<(), Fail> {
    let mut have = Have::new(rt.alloc(), 1);
    assert!(rt; have.unit_length() == 1 && !have.has(2));
    have.push(2, &[0x07])?;
    assert!(rt; have.unit_length() == 1 && !have.has(3));
    have.push(3, &[0x04])?;
    assert_eq!(rt; have.positions().len(), 2);
    assert!(rt; have.positions().iter().all(|p| *p < 4));
    assert!(rt; have.unit_length() == 1);
    let group = Group {
        generation: 5,
        n: 2,
        m: 2,
        places: List::new(rt.alloc()),
    };
    let pulled = PulledGroup {
        group,
        start: 3,
        have,
    };
    let old = old_group(rt.alloc(), &pulled)?;
    assert!(rt; old.units.unit_length() == 1);
    let part = old.bytes();
    assert_eq!(rt; part.from, 3);
    assert_eq!(rt; part.bytes, [0x01, 0x02].as_slice());
    Ok(())
}
