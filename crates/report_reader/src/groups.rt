//! Groups and bytes in a report's lines.

ghost use Rattle.std.specs.Prelude.{◌≡◌, ◌<◌, ◌++◌, ℕ, List, IfOk};
ghost use Rattle.std.specs.List.{AllByRecursion};
ghost use Rattle.domains.specs.declared.group.Group as group;
ghost use Rattle.report.specs.Words.{bytes_text, group_text, groups_text};
ghost use Rattle.report_reader.specs.Lines.{IsGroup, groups_tail, inode_tail};

use crate::comma_lists::places_of;
use crate::words::{cut, u8_of, u32_of};
use domains::Group;
use hex::FromHexError;
use std::alloc::{AllocError, Global};

pub(crate) fn group_of(alloc: Global, text: &str) -> Result<Group, AllocError>
    ensures only { IfOk result (λ x. (g : group.Group) → IsGroup g → text.now ≡ group_text g → x ≡ g) }
    ensures fits { IfOk result IsGroup }
{
    let (generation, rest) = cut(text, '=');
    let (n, rest) = cut(rest, '+');
    let (m, places) = cut(rest, '@');
    let places = places_of(alloc, places)?;
    Ok(Group {
        generation: u32_of(generation),
        n: u8_of(n),
        m: u8_of(m),
        places: lists::List::from_vec(places),
    })
}

/// What stands behind the dash of no groups.
fn groups_part(text: &str) -> &str
    ensures { (gs : List group.Group) (i : group.Group) → AllByRecursion IsGroup gs → text.now ≡ groups_text gs ++ inode_tail i → result.now ≡ groups_tail gs i }
{
    let (word, after) = cut(text, ' ');
    if word == "-" { after } else { text }
}

/// The groups before the word `inode`, and what stands behind it.
pub(crate) fn groups_of(alloc: Global, text: &str) -> Result<(Vec<Group>, &str), AllocError>
    ensures only { IfOk result (λ x. (gs : List group.Group) (i : group.Group) → AllByRecursion IsGroup gs → text.now ≡ groups_text gs ++ inode_tail i → (x.0.items ≡ gs) × (x.1.now ≡ group_text i)) }
    ensures fits { IfOk result (λ x. AllByRecursion IsGroup x.0.items) }
{
    let mut groups = Vec::new(alloc);
    let mut rest = groups_part(text);
    'groups: while !rest.is_empty() {
        let (word, after) = cut(rest, ' ');
        if word == "inode" {
            return Ok((groups, after));
        }
        let group = group_of(alloc, word)?;
        groups.push(group)?;
        rest = after;
    }
    Ok((groups, rest))
}

/// Bytes in hexadecimal, or a dash.
pub(crate) fn bytes_of(alloc: Global, text: &str) -> Result<Vec<u8>, AllocError>
    ensures only { IfOk result (λ v. (bytes : List ℕ) → AllByRecursion (λ b. b < 256) bytes → text.now ≡ bytes_text bytes → v.items ≡ bytes) }
    ensures fits { IfOk result (λ v. AllByRecursion (λ b. b < 256) v.items) }
{
    match hex::decode(alloc, text) {
        Ok(bytes) => Ok(bytes),
        Err(FromHexError::OutOfMemory) => Err(AllocError),
        Err(FromHexError::OddLength) => Ok(Vec::new(alloc)),
        Err(FromHexError::InvalidStringLength) => Ok(Vec::new(alloc)),
        Err(FromHexError::InvalidHexCharacter { .. }) => Ok(Vec::new(alloc)),
    }
}
