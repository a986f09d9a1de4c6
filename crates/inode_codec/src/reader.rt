//! Reading an inode, field by field from left to right.

ghost use Rattle.std.specs.Prelude.{◌≡◌, ◌==◌, ◌≤◌, ◌<◌, ◌^◌, [], length, map, IfOk};
ghost use Rattle.std.specs.List.{list_any};
ghost use Rattle.domains.specs.Drive.{same_drive};
ghost use Rattle.field_readers.specs.FieldReaders.{Gives, each};
ghost use Rattle.inode_codec.specs.Inode.{IsInode, data_units, inode_bytes, units_for};
ghost use Rattle.inode_codec.specs.InodeReader.{Answers, IsRead, all_of, any_drive_at, bad_at, drive_at, end_of_m, generation_at, group_at, inode_at, place_at, push, raw_drive, raw_group, raw_inode, raw_place};

use crate::fault::{BadInode, InodeFault, InodeRule};
use crate::inode::Inode;
use crate::level_codes::level_of;
use domains::{DriveId, Group, Place};
use field_readers::{Broken, ReadFault, broken, byte_at, u16_at, u32_at, u64_at};
use lists::List;
use std::alloc::Global;

/// A drive.
fn any_drive(bytes: &[u8]) -> Result<(DriveId, &[u8]), ReadFault<InodeRule>>
    ensures { Gives (λ x. (raw_drive x.0, x.1.now)) result (any_drive_at bytes.now) }
{
    let (node, rest) = byte_at(bytes, InodeRule::Node, 1..33)?;
    let (number, rest) = byte_at(rest, InodeRule::Drive, 1..17)?;
    Ok((DriveId::new(node, number), rest))
}

/// The drive of a place, another one than those of the earlier places.
fn drive_of<'a>(
    earlier: &[Place],
    bytes: &'a [u8],
) -> Result<(DriveId, &'a [u8]), ReadFault<InodeRule>>
    ensures { Gives (λ x. (raw_drive x.0, x.1.now)) result (drive_at (map raw_place earlier.now) bytes.now) }
{
    let (drive, rest) = match any_drive(bytes) {
        Ok(read) => read,
        Err(fault) => return Err(fault),
    };
    if is_taken(earlier, drive) {
        return Err(broken(bytes, InodeRule::Node));
    }
    Ok((drive, rest))
}

/// Whether an earlier place is on the drive.
fn is_taken(earlier: &[Place], drive: DriveId) -> bool
    ensures { result ≡ list_any (λ s. same_drive s.drive drive) earlier.now }
{
    earlier.iter().any(|place| are_one(place.drive(), drive))
}

fn are_one(one: DriveId, other: DriveId) -> bool
    ensures { result ≡ same_drive one other }
{
    one.node() == other.node() && one.drive() == other.drive()
}

/// A place.
#[tactic(auto, unfolding(crate::specs::InodeReader::place_at))]
fn place_of<'a>(
    earlier: &[Place],
    bytes: &'a [u8],
) -> Result<(Place, &'a [u8]), ReadFault<InodeRule>>
    ensures { Gives (λ x. (raw_place x.0, x.1.now)) result (place_at (map raw_place earlier.now) bytes.now) }
{
    let (drive, rest) = match drive_of(earlier, bytes) {
        Ok(read) => read,
        Err(fault) => return Err(fault),
    };
    let (slot, rest) = u16_at(rest, InodeRule::Slot, 0..4096)?;
    Ok((Place::new(drive, slot), rest))
}

/// `count` places.
fn places_of(
    alloc: Global,
    count: u8,
    bytes: &[u8],
) -> Result<(Vec<Place>, &[u8]), ReadFault<InodeRule>>
    ensures { Gives (λ x. (map raw_place x.0.items, x.1.now)) result (each place_at push count [] bytes.now) }
{
    let mut places = Vec::new(alloc);
    let mut rest = bytes;
    for _place in 0..count {
        let (place, after) = match place_of(&places, rest) {
            Ok(read) => read,
            Err(fault) => return Err(fault),
        };
        places.push(place)?;
        rest = after;
    }
    Ok((places, rest))
}

/// The generation of a group, another one than those of the earlier groups.
fn generation_of<'a>(
    earlier: &[Group],
    bytes: &'a [u8],
) -> Result<(u32, &'a [u8]), ReadFault<InodeRule>>
    ensures { Gives (λ x. (x.0, x.1.now)) result (generation_at (map raw_group earlier.now) bytes.now) }
{
    let (generation, rest) = u32_at(bytes, InodeRule::Generation, 0..0x1_0000_0000)?;
    if is_used(earlier, generation) {
        return Err(broken(bytes, InodeRule::Generation));
    }
    Ok((generation, rest))
}

/// Whether an earlier group has the generation.
fn is_used(earlier: &[Group], generation: u32) -> bool
    ensures { result ≡ list_any (λ g. g.generation == generation) earlier.now }
{
    earlier.iter().any(|group| group.generation == generation)
}

/// A group.
#[tactic(auto, unfolding(crate::specs::InodeReader::group_at))]
fn group_of<'a>(
    alloc: Global,
    earlier: &[Group],
    bytes: &'a [u8],
) -> Result<(Group, &'a [u8]), ReadFault<InodeRule>>
    ensures { Gives (λ x. (raw_group x.0, x.1.now)) result (group_at (map raw_group earlier.now) bytes.now) }
{
    let (generation, rest) = generation_of(earlier, bytes)?;
    let (n, rest) = byte_at(rest, InodeRule::N, 1..17)?;
    let (m, rest) = byte_at(rest, InodeRule::M, 1..end_of_m(n))?;
    let (places, rest) = match places_of(alloc, n + m, rest) {
        Ok(read) => read,
        Err(fault) => return Err(fault),
    };
    let group = Group {
        generation,
        n,
        m,
        places: List::from_vec(places),
    };
    Ok((group, rest))
}

/// The first number above those of correction units, beside n data units.
fn end_of_m(n: u8) -> u32
    ensures { result ≡ end_of_m n }
{
    if n == 1 { 8 } else { 5 }
}

/// `count` groups.
fn groups_of(
    alloc: Global,
    count: u16,
    bytes: &[u8],
) -> Result<(Vec<Group>, &[u8]), ReadFault<InodeRule>>
    ensures { Gives (λ x. (map raw_group x.0.items, x.1.now)) result (each group_at push count [] bytes.now) }
{
    let mut groups = Vec::new(alloc);
    let mut rest = bytes;
    for _group in 0..count {
        let (group, after) = match group_of(alloc, &groups, rest) {
            Ok(read) => read,
            Err(fault) => return Err(fault),
        };
        groups.push(group)?;
        rest = after;
    }
    Ok((groups, rest))
}

/// The inode that begins the bytes.
#[tactic(auto, unfolding(crate::specs::InodeReader::inode_at))]
fn inode_of(alloc: Global, bytes: &[u8]) -> Result<(Inode, &[u8]), ReadFault<InodeRule>>
    ensures { Gives (λ x. (raw_inode x.0, x.1.now)) result (inode_at bytes.now) }
{
    let (_mark, rest) = u16_at(bytes, InodeRule::Mark, 0x494E..0x494F)?;
    let (_format, rest) = byte_at(rest, InodeRule::Format, 1..2)?;
    let (code, rest) = byte_at(rest, InodeRule::LevelField, 0..16)?;
    let (unit, rest) = u32_at(rest, InodeRule::UnitField, 8..131_073)?;
    let (size, rest) = u64_at(rest, InodeRule::Size, 0..536_870_913)?;
    let (count, rest) = u16_at(rest, InodeRule::Groups, 0..257)?;
    let (groups, rest) = match groups_of(alloc, count, rest) {
        Ok(read) => read,
        Err(fault) => return Err(fault),
    };
    let inode = Inode {
        level: level_of(code),
        unit,
        size,
        groups: List::from_vec(groups),
    };
    Ok((inode, rest))
}

/// Whether the data units of the groups are as many as the size needs.
fn has_units(inode: &Inode) -> bool
    requires unit { 1 ≤ inode.now.unit }
    requires size { inode.now.size ≤ 536870912 }
    requires count { length inode.now.groups ≤ 256 }
    ensures { result ≡ (data_units inode.now.groups == units_for inode.now.unit inode.now.size) }
{
    let unit = u64::from(inode.unit);
    units_in(inode.groups.as_slice()) == (inode.size + (unit - 1)) / unit
}

/// How many data units the groups have.
fn units_in(groups: &[Group]) -> u64
    requires { length groups.now ≤ 256 }
    ensures { result ≡ data_units groups.now }
{
    let mut units: u64 = 0;
    for group in groups {
        units += u64::from(group.n);
    }
    units
}

/// The inode that is all of the bytes.
fn all_of(alloc: Global, bytes: &[u8]) -> Result<Inode, ReadFault<InodeRule>>
    ensures { Gives raw_inode result (all_of bytes.now) }
{
    let (inode, rest) = match inode_of(alloc, bytes) {
        Ok(read) => read,
        Err(fault) => return Err(fault),
    };
    if !has_units(&inode) {
        return Err(broken(rest, InodeRule::Sum));
    }
    if !rest.is_empty() {
        return Err(broken(rest, InodeRule::Left));
    }
    Ok(inode)
}

/// The inode that the bytes spell, all of them.
pub fn read(alloc: Global, bytes: &[u8]) -> Result<Inode, InodeFault>
    requires { length bytes.now < 2 ^ 32 }
    // What is read is spelled so.
    ensures found { IfOk result (λ i. IsInode i × (bytes.now ≡ inode_bytes i)) }
    // What is spelled so is read, unless memory runs out.
    ensures only { (i : Inode) → IsInode i → bytes.now ≡ inode_bytes i → IsRead i result }
    // Which field is broken.
    ensures exact { Answers bytes.now result (all_of bytes.now) }
{
    match all_of(alloc, bytes) {
        Ok(inode) => Ok(inode),
        Err(ReadFault::Memory) => Err(InodeFault::NoMemory),
        Err(ReadFault::Broken(broken)) => Err(InodeFault::Bad(bad_at(bytes, broken))),
    }
}

/// What is broken, by its offset.
fn bad_at(bytes: &[u8], broken: Broken<InodeRule>) -> BadInode
    requires { length bytes.now < 2 ^ 32 }
    ensures { result ≡ bad_at (length bytes.now) broken }
{
    match broken {
        Broken::Ends => BadInode {
            at: bytes.len() as u32,
            what: InodeRule::Ends,
        },
        Broken::Field { left, what } => BadInode {
            at: bytes.len().saturating_sub(left) as u32,
            what,
        },
    }
}
