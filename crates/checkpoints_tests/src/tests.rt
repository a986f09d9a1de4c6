//! Checkpoints against the grammar of docs/FORMATS.md, "Checkpoint".

use checkpoints::CheckpointRule::*;
use checkpoints::{BadCheckpoint, CheckpointFault, CheckpointRule, read, write};
use std::test::Fail;

/// A FlexProtect in its phase verify that bars two drives, with items to do, out, whole, lost and short, and a paused
/// SyncCopy with one item.
const WORKED: [u8; 46] = [
    0x46, 0x4A, 0x43, 0x50, 1, 0, 3, 2, 0, 1, 0, 1, 0, 0, 0, 1, 2, 3, 1, 3, 2, 0, 0, 5, 0, 0, 0, 1,
    1, 1, 2, 3, 4, 0, 7, 9, 10, 0, 2, 1, 0, 0, 1, 0, 1, 4,
];

/// What is answered of these bytes: nothing where they are a checkpoint.
fn fault(rt: &HostRuntime, bytes: &[u8; 46], len: usize) -> Option<(u32, CheckpointRule)> {
    match read(rt.alloc(), bytes.get(..len).unwrap_or(&[])) {
        Err(CheckpointFault::Bad(BadCheckpoint { at, what })) => Some((at, what)),
        Err(CheckpointFault::NoMemory) | Ok(_) => None,
    }
}

#[test]
fn an_empty_engine_has_eight_bytes(rt: HostRuntime) -> Result<(), Fail> {
    let bytes = [0x46, 0x4A, 0x43, 0x50, 1, 0, 0, 0];
    let empty = read(rt.alloc(), &bytes).map_err(|_| "the eight bytes are a checkpoint")?;
    assert_eq!(rt; empty.jobs.len(), 0);
    let cut = read(rt.alloc(), &[0x46, 0x4A, 0x43, 0x50, 1, 0, 0]);
    assert!(rt;
        matches!(
            cut,
            Err(CheckpointFault::Bad(BadCheckpoint {
                at: 7,
                what: CheckpointRule::Ends
            }))
        )
    );
    Ok(())
}

#[test]
fn a_checkpoint_is_written_as_it_was_read(rt: HostRuntime) -> Result<(), Fail> {
    let checkpoint = read(rt.alloc(), &WORKED).map_err(|_| "the bytes are a checkpoint")?;
    let bytes = write(rt.alloc(), &checkpoint)?;
    assert_eq!(rt; bytes.as_slice(), WORKED.as_slice());
    Ok(())
}

#[test]
fn a_prefix_ends_at_its_length(rt: HostRuntime) -> Result<(), Fail> {
    for len in 0..46 {
        assert_eq!(rt;
            fault(&rt, &WORKED, len),
            Some((len as u32, CheckpointRule::Ends)),
            "{len}"
        );
    }
    assert_eq!(rt; fault(&rt, &WORKED, 46), None);
    Ok(())
}

// What is broken when each byte in turn is 255: the offset of the field and its name, by hand.
const CHANGED: [Option<(u32, CheckpointRule)>; 46] = [
    Some((0, Mark)),
    Some((0, Mark)),
    Some((0, Mark)),
    Some((0, Mark)),
    Some((4, Format)),
    Some((5, Started)),
    Some((5, Started)),
    Some((7, Jobs)),
    Some((33, Job)),
    Some((33, Job)),
    Some((10, Kind)),
    Some((11, Priority)),
    Some((12, Order)),
    Some((12, Order)),
    Some((14, Paused)),
    Some((15, Phase)),
    Some((16, Bars)),
    Some((17, Node)),
    Some((18, Drive)),
    Some((19, Node)),
    Some((20, Drive)),
    Some((21, Earlier)),
    Some((22, Items)),
    Some((34, Next)),
    Some((24, ItemState)),
    Some((25, Next)),
    None,
    Some((27, ItemState)),
    Some((28, Next)),
    Some((28, Next)),
    Some((30, ItemState)),
    Some((31, ItemState)),
    Some((32, ItemState)),
    None,
    None,
    Some((35, Kind)),
    Some((36, Priority)),
    Some((37, Order)),
    Some((37, Order)),
    Some((39, Paused)),
    Some((40, Phase)),
    Some((41, Bars)),
    Some((42, Earlier)),
    Some((43, Items)),
    Some((46, Ends)),
    Some((45, ItemState)),
];

#[test]
fn a_changed_byte_breaks_its_field(rt: HostRuntime) -> Result<(), Fail> {
    for (at, wanted) in CHANGED.iter().enumerate() {
        let mut bytes = WORKED;
        bytes[at] = 255;
        assert_eq!(rt; fault(&rt, &bytes, 46), *wanted, "{at}");
    }
    Ok(())
}
