//! The bytes of an inode against the grammar of docs/FORMATS.md, "Inode".

ghost use Rattle.std.specs.Prelude.{IfOk};
ghost use Rattle.inode_codec.specs.Inode.{IsInode};

use domains::{DriveId, Group, Level, Place};
use inode_codec::InodeRule::{
    Drive, Ends, Format, Generation, Groups, Left, LevelField, M, Mark, N, Node, Size, Slot, Sum,
    UnitField,
};
use inode_codec::{
    BadInode, HEAD_LEN, Inode, InodeFault, InodeRule, append_group, append_head, group_len, read,
    write,
};
use lists::List;
use std::alloc::{AllocError, Global};
use std::test::Fail;

/// Five bytes at `2x` in units of eight: one group, on node 2 and node 1.
const WORKED: [u8; 32] = [
    0x49, 0x4E, 1, 9, 0, 0, 0, 8, 0, 0, 0, 0, 0, 0, 0, 5, 0, 1, 0, 0, 0, 1, 1, 1, 2, 1, 0, 1, 1, 1,
    0, 1,
];

/// Twenty bytes at `+1n` in units of eight: a group of two data units and a correction unit, and one of one each.
const TWO_GROUPS: [u8; 50] = [
    0x49, 0x4E, 1, 0, 0, 0, 0, 8, 0, 0, 0, 0, 0, 0, 0, 20, 0, 2, 0, 0, 0, 0, 2, 1, 1, 1, 0, 0, 2,
    1, 0, 1, 3, 2, 1, 2, 0, 0, 0, 5, 1, 1, 2, 1, 0, 7, 1, 1, 0, 3,
];

type Found = Option<(u32, InodeRule)>;

const OK: Found = None;

/// What is broken once the byte at each place is 0.
const ZERO: [Found; 50] = [
    Some((0, Mark)),
    Some((0, Mark)),
    Some((2, Format)),
    OK,
    OK,
    OK,
    OK,
    Some((4, UnitField)),
    OK,
    OK,
    OK,
    OK,
    OK,
    OK,
    OK,
    Some((50, Sum)),
    OK,
    Some((18, Sum)),
    OK,
    OK,
    OK,
    OK,
    Some((22, N)),
    Some((23, M)),
    Some((24, Node)),
    Some((25, Drive)),
    OK,
    OK,
    Some((28, Node)),
    Some((29, Drive)),
    OK,
    OK,
    Some((32, Node)),
    Some((33, Drive)),
    OK,
    OK,
    OK,
    OK,
    OK,
    Some((36, Generation)),
    Some((40, N)),
    Some((41, M)),
    Some((42, Node)),
    Some((43, Drive)),
    OK,
    OK,
    Some((46, Node)),
    Some((47, Drive)),
    OK,
    OK,
];

/// What is broken once the byte at each place is 255.
const FULL: [Found; 50] = [
    Some((0, Mark)),
    Some((0, Mark)),
    Some((2, Format)),
    Some((3, LevelField)),
    Some((4, UnitField)),
    Some((4, UnitField)),
    Some((50, Sum)),
    Some((50, Sum)),
    Some((8, Size)),
    Some((8, Size)),
    Some((8, Size)),
    Some((8, Size)),
    Some((8, Size)),
    Some((50, Sum)),
    Some((50, Sum)),
    Some((50, Sum)),
    Some((16, Groups)),
    Some((50, Ends)),
    OK,
    OK,
    OK,
    OK,
    Some((22, N)),
    Some((23, M)),
    Some((24, Node)),
    Some((25, Drive)),
    Some((26, Slot)),
    OK,
    Some((28, Node)),
    Some((29, Drive)),
    Some((30, Slot)),
    OK,
    Some((32, Node)),
    Some((33, Drive)),
    Some((34, Slot)),
    OK,
    OK,
    OK,
    OK,
    OK,
    Some((40, N)),
    Some((41, M)),
    Some((42, Node)),
    Some((43, Drive)),
    Some((44, Slot)),
    OK,
    Some((46, Node)),
    Some((47, Drive)),
    Some((48, Slot)),
    OK,
];

/// What is broken once the byte at each place is one more.
const MORE: [Found; 50] = [
    Some((0, Mark)),
    Some((0, Mark)),
    Some((2, Format)),
    OK,
    Some((4, UnitField)),
    Some((50, Sum)),
    Some((50, Sum)),
    OK,
    Some((8, Size)),
    Some((8, Size)),
    Some((8, Size)),
    Some((8, Size)),
    Some((50, Sum)),
    Some((50, Sum)),
    Some((50, Sum)),
    OK,
    Some((16, Groups)),
    Some((50, Ends)),
    OK,
    OK,
    OK,
    OK,
    Some((36, Node)),
    Some((36, Node)),
    Some((28, Node)),
    OK,
    OK,
    OK,
    OK,
    OK,
    OK,
    OK,
    OK,
    OK,
    OK,
    OK,
    OK,
    OK,
    OK,
    OK,
    Some((50, Ends)),
    Some((50, Ends)),
    OK,
    OK,
    OK,
    OK,
    Some((46, Node)),
    OK,
    OK,
    OK,
];

/// The inode of `WORKED`.
fn five_bytes(alloc: Global) -> Result<Inode, AllocError>
    ensures { IfOk result (λ i. IsInode i) }
{
    let first = Place::new(DriveId::new(2, 1), 1);
    let second = Place::new(DriveId::new(1, 1), 1);
    let group = Group {
        generation: 1,
        n: 1,
        m: 1,
        places: List::from_vec(vec![in alloc; first, second]?),
    };
    Ok(Inode {
        level: Level::two_copies(),
        unit: 8,
        size: 5,
        groups: List::from_vec(vec![in alloc; group]?),
    })
}

/// What is broken in these bytes: nothing if they are an inode.
fn found(rt: &HostRuntime, bytes: &[u8]) -> Found {
    match read(rt.alloc(), bytes.get(..bytes.len().min(64)).unwrap_or(&[])) {
        Err(InodeFault::Bad(BadInode { at, what })) => Some((at, what)),
        Err(InodeFault::NoMemory) | Ok(_) => None,
    }
}

#[test]
fn writes_the_worked_bytes(rt: HostRuntime) -> Result<(), Fail> {
    let inode = five_bytes(rt.alloc())?;
    let bytes = write(rt.alloc(), &inode)?;
    assert_eq!(rt; bytes.as_slice(), WORKED.as_slice());
    Ok(())
}

#[test]
fn appends_to_memory_that_is_there(rt: HostRuntime) -> Result<(), Fail> {
    let inode = five_bytes(rt.alloc())?;
    let mut bytes = Vec::with_capacity(rt.alloc(), HEAD_LEN + group_len(2))?;
    append_head(&mut bytes, inode.level, inode.unit, inode.size, 1);
    for group in inode.groups.as_slice() {
        if bytes.capacity() - bytes.len() >= 14 && group.places.len() == 2 {
            append_group(&mut bytes, group);
        }
    }
    assert_eq!(rt; bytes.as_slice(), WORKED.as_slice());
    Ok(())
}

#[test]
fn an_inode_is_written_as_it_was_read(rt: HostRuntime) -> Result<(), Fail> {
    let inode = read(rt.alloc(), &TWO_GROUPS).map_err(|_| "the bytes are an inode")?;
    assert_eq!(rt; inode.groups.len(), 2);
    let bytes = write(rt.alloc(), &inode)?;
    assert_eq!(rt; bytes.as_slice(), TWO_GROUPS.as_slice());
    Ok(())
}

#[test]
fn a_level_has_one_code(rt: HostRuntime) -> Result<(), Fail> {
    for code in 0..16 {
        let mut bytes = WORKED;
        bytes[3] = code;
        let inode = read(rt.alloc(), &bytes).map_err(|_| "the bytes are an inode")?;
        let written = write(rt.alloc(), &inode)?;
        assert_eq!(rt; written.as_slice(), bytes.as_slice(), "{code}");
    }
    Ok(())
}

#[test]
fn a_byte_behind_an_inode_is_left(rt: HostRuntime) -> Result<(), Fail> {
    let mut bytes = [0; 33];
    bytes[..32].copy_from_slice(&WORKED);
    assert_eq!(rt; found(&rt, &bytes), Some((32, Left)));
    // A wrong sum is told before bytes that are left.
    bytes[15] = 9;
    assert_eq!(rt; found(&rt, &bytes), Some((32, Sum)));
    Ok(())
}

#[test]
fn a_size_is_at_most_half_a_gibibyte(rt: HostRuntime) -> Result<(), Fail> {
    let mut bytes = WORKED;
    bytes[12] = 0x20;
    bytes[15] = 0;
    assert_eq!(rt; found(&rt, &bytes), Some((32, Sum)));
    bytes[15] = 1;
    assert_eq!(rt; found(&rt, &bytes), Some((8, Size)));
    Ok(())
}

#[test]
fn a_prefix_ends_at_its_length(rt: HostRuntime) -> Result<(), Fail> {
    for len in 0..50 {
        let prefix = TWO_GROUPS.get(..len).unwrap_or(&[]);
        assert_eq!(rt; found(&rt, prefix), Some((len as u32, Ends)), "{len}");
    }
    assert_eq!(rt; found(&rt, &TWO_GROUPS), OK);
    Ok(())
}

#[test]
fn each_changed_byte_is_told(rt: HostRuntime) -> Result<(), Fail> {
    for at in 0..50 {
        let byte = TWO_GROUPS[at];
        for (value, wanted) in [
            (0, ZERO[at]),
            (255, FULL[at]),
            (byte.wrapping_add(1), MORE[at]),
        ] {
            let mut bytes = TWO_GROUPS;
            bytes[at] = value;
            assert_eq!(rt; found(&rt, &bytes), wanted, "{at} {value}");
        }
    }
    Ok(())
}
