//! Writes to small maps.

use std::test::Fail;
use write_rule::{NewBytes, OldBytes, ReplacedRun, WriteRange, chunks, replaced_run};

#[test]
fn a_write_replaces_the_groups_that_it_touches(rt: HostRuntime) -> Result<(), Fail> {
    let write = WriteRange {
        unit: 8,
        size: 96,
        offset: 12,
        len: 60,
        width: 4,
    };
    let run = replaced_run(&[4, 4, 4], &write);
    assert_eq!(rt;
        run,
        ReplacedRun {
            first: 0,
            start: 0,
            count: 3,
            units: 12,
            new_units: 12
        }
    );
    let within = WriteRange {
        offset: 40,
        len: 8,
        width: 2,
        ..write
    };
    let run = replaced_run(&[4, 4, 4], &within);
    assert_eq!(rt;
        run,
        ReplacedRun {
            first: 1,
            start: 4,
            count: 1,
            units: 4,
            new_units: 4
        }
    );
    Ok(())
}

#[test]
fn a_write_past_the_end_fills_up_the_last_group(rt: HostRuntime) -> Result<(), Fail> {
    let write = WriteRange {
        unit: 8,
        size: 40,
        offset: 80,
        len: 8,
        width: 4,
    };
    let run = replaced_run(&[4, 1], &write);
    assert_eq!(rt;
        run,
        ReplacedRun {
            first: 1,
            start: 4,
            count: 1,
            units: 1,
            new_units: 7
        }
    );
    let full = WriteRange {
        size: 32,
        offset: 32,
        ..write
    };
    let run = replaced_run(&[4], &full);
    assert_eq!(rt;
        run,
        ReplacedRun {
            first: 1,
            start: 4,
            count: 0,
            units: 0,
            new_units: 1
        }
    );
    assert_eq!(rt; chunks(rt.alloc(), 7, 4)?.as_slice(), [4, 3].as_slice());
    Ok(())
}

#[test]
fn new_bytes_are_the_old_ones_with_the_payload(rt: HostRuntime) -> Result<(), Fail> {
    let bytes = NewBytes {
        before: b"hel",
        gap: 2,
        payload: b"lo",
        after: b"w",
    };
    assert_eq!(rt;
        bytes.part(rt.alloc(), 1, 9)?.as_slice(),
        b"el\0\0low\0\0".as_slice()
    );
    assert_eq!(rt; bytes.part(rt.alloc(), 4, 2)?.as_slice(), b"\0l".as_slice());
    assert_eq!(rt;
        bytes.part(rt.alloc(), 20, 2)?.as_slice(),
        b"\0\0".as_slice()
    );
    Ok(())
}

#[test]
fn what_stays_is_cut_at_the_end_of_the_file(rt: HostRuntime) -> Result<(), Fail> {
    let old = OldBytes {
        from: 0,
        bytes: b"hello\0\0\0",
    };
    let within = NewBytes::around(old, old, 8, 5, 2, b"XY");
    assert_eq!(rt;
        within.part(rt.alloc(), 0, 8)?.as_slice(),
        b"heXYo\0\0\0".as_slice()
    );
    let behind = NewBytes::around(old, old, 8, 5, 6, b"XY");
    assert_eq!(rt;
        behind.part(rt.alloc(), 0, 8)?.as_slice(),
        b"hello\0XY".as_slice()
    );
    Ok(())
}
