//! The bytes that spell an inode (docs/FORMATS.md, "Inode").

ghost use Rattle.std.specs.Prelude.{◌≡◌, ◌++◌, ◌+◌, ◌*◌, ◌≤◌, length, IfOk, OnOk};
ghost use Rattle.std.specs.Vec.{vec_capacity, vec_len};
ghost use Rattle.inode_codec.specs.Inode.{IsInode, place_bytes, places_bytes, group_bytes, groups_bytes, head_bytes, inode_bytes};

use crate::inode::Inode;
use crate::level_codes::code_of;
use domains::{Group, Level, Place};
use std::alloc::{AllocError, Global};

/// How many bytes the head of an inode has.
pub const HEAD_LEN: usize = 18;

/// The bytes that spell an inode.
#[tactic(auto, unfolding(crate::specs::Inode::inode_bytes, crate::specs::Inode::head_bytes))]
pub fn write(alloc: Global, inode: &Inode) -> Result<Vec<u8>, AllocError>
    requires { IsInode inode.now }
    ensures { IfOk result (λ bytes. bytes.items ≡ inode_bytes inode.now) }
{
    let mut bytes = Vec::with_capacity(alloc, HEAD_LEN)?;
    let count = inode.groups.len() as u16;
    append_head(&mut bytes, inode.level, inode.unit, inode.size, count);
    write_groups(&mut bytes, inode.groups.as_slice())?;
    Ok(bytes)
}

fn write_groups(bytes: &mut Vec<u8>, groups: &[Group]) -> Result<(), AllocError>
    ensures { OnOk result (bytes.new.items ≡ bytes.old.items ++ groups_bytes groups.now) }
{
    for group in groups {
        write_group(bytes, group)?;
    }
    Ok(())
}

fn write_group(bytes: &mut Vec<u8>, group: &Group) -> Result<(), AllocError>
    ensures { OnOk result (bytes.new.items ≡ bytes.old.items ++ group_bytes group.now) }
{
    let places = group.places.as_slice();
    bytes.reserve(group_len(places.len()))?;
    append_group(bytes, group);
    Ok(())
}

/// How many bytes a group of this number of units has.
pub fn group_len(units: usize) -> usize
    requires { 6 + 4 * units ≤ 18446744073709551615 }
    ensures { result ≡ 6 + 4 * units }
{
    6 + 4 * units
}

/// Appends the head of an inode, in memory that was reserved before: it takes none.
#[tactic(auto, unfolding(crate::specs::Inode::head_bytes))]
pub fn append_head(bytes: &mut Vec<u8>, level: Level, unit: u32, size: u64, groups: u16)
    requires room { vec_len bytes.old + 18 ≤ vec_capacity bytes.old }
    ensures head { bytes.new.items ≡ bytes.old.items ++ head_bytes level unit size groups }
    ensures len { vec_len bytes.new ≡ vec_len bytes.old + 18 }
    ensures capacity { vec_capacity bytes.new ≡ vec_capacity bytes.old }
{
    append(bytes, &[0x49, 0x4E, 1, code_of(level)]);
    append(bytes, &unit.to_be_bytes());
    append(bytes, &size.to_be_bytes());
    append(bytes, &groups.to_be_bytes());
}

/// Appends a group, in memory that was reserved before: it takes none.
#[tactic(auto, unfolding(crate::specs::Inode::group_bytes))]
pub fn append_group(bytes: &mut Vec<u8>, group: &Group)
    requires room { vec_len bytes.old + (6 + 4 * length group.now.places) ≤ vec_capacity bytes.old }
    ensures group { bytes.new.items ≡ bytes.old.items ++ group_bytes group.now }
    ensures len { vec_len bytes.new ≡ vec_len bytes.old + (6 + 4 * length group.now.places) }
    ensures capacity { vec_capacity bytes.new ≡ vec_capacity bytes.old }
{
    append(bytes, &group.generation.to_be_bytes());
    append(bytes, &[group.n, group.m]);
    append_places(bytes, group.places.as_slice());
}

fn append_places(bytes: &mut Vec<u8>, places: &[Place])
    requires room { vec_len bytes.old + 4 * length places.now ≤ vec_capacity bytes.old }
    ensures places { bytes.new.items ≡ bytes.old.items ++ places_bytes places.now }
    ensures len { vec_len bytes.new ≡ vec_len bytes.old + 4 * length places.now }
    ensures capacity { vec_capacity bytes.new ≡ vec_capacity bytes.old }
{
    for place in places {
        append_place(bytes, *place);
    }
}

#[tactic(auto, unfolding(crate::specs::Inode::place_bytes))]
fn append_place(bytes: &mut Vec<u8>, place: Place)
    requires room { vec_len bytes.old + 4 ≤ vec_capacity bytes.old }
    ensures place { bytes.new.items ≡ bytes.old.items ++ place_bytes place }
    ensures len { vec_len bytes.new ≡ vec_len bytes.old + 4 }
    ensures capacity { vec_capacity bytes.new ≡ vec_capacity bytes.old }
{
    let drive = place.drive();
    append(bytes, &[drive.node(), drive.drive()]);
    append(bytes, &place.slot().to_be_bytes());
}

/// Appends some bytes in memory that is there.
fn append(bytes: &mut Vec<u8>, text: &[u8])
    requires room { vec_len bytes.old + length text.now ≤ vec_capacity bytes.old }
    ensures text { bytes.new.items ≡ bytes.old.items ++ text.now }
    ensures len { vec_len bytes.new ≡ vec_len bytes.old + length text.now }
    ensures capacity { vec_capacity bytes.new ≡ vec_capacity bytes.old }
{
    for byte in text {
        bytes.push_reserved(*byte);
    }
}
