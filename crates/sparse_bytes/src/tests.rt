//! Tests.

use crate::SparseBytes;
use std::alloc::AllocError;

#[test]
fn bytes_over_two_pages_and_a_hole(rt: HostRuntime) -> Result<(), AllocError> {
    let alloc = rt.alloc();
    let mut file = SparseBytes::new(alloc);
    file.write(alloc, 254, b"hello")?;
    file.write(alloc, 1000, b"x")?;
    assert!(rt; file.size == 1001);
    assert!(rt; file.shows(254, 5, b"hello"));
    assert!(rt; file.shows(253, 4, b"\0hel"));
    assert!(rt; !file.shows(254, 5, b"hellp"));
    assert!(rt; file.shows(999, 9, b"\0x"));
    assert!(rt; !file.shows(999, 9, b"\0x\0"));
    assert!(rt; file.shows(1001, 9, b""));
    Ok(())
}
