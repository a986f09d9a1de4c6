//! The fields: numbers of one, two, four and eight bytes.

ghost use Rattle.std.specs.Prelude.{◌≡◌};
ghost use Rattle.std.specs.Int.{w16, w32, w64};
ghost use Rattle.field_readers.specs.FieldReaders.{Gives, broken_fault, byte, word};

use crate::fault::{Broken, ReadFault};
use std::ops::Range;

/// A field of one byte, and what is behind it.
pub fn byte_at<W: Copy>(
    bytes: &[u8],
    what: W,
    limits: Range<u32>,
) -> Result<(u8, &[u8]), ReadFault<W>>
    ensures { Gives (λ x. (x.0, x.1.now)) result (byte what limits.start limits.end bytes.now) }
{
    match bytes {
        [] => Err(ReadFault::Broken(Broken::Ends)),
        [byte, rest @ ..] if limits.start <= u32::from(*byte) && u32::from(*byte) < limits.end => {
            Ok((*byte, rest))
        }
        [_, ..] => Err(broken(bytes, what)),
    }
}

/// A field of two bytes, the high one first.
pub fn u16_at<W: Copy>(
    bytes: &[u8],
    what: W,
    limits: Range<u32>,
) -> Result<(u16, &[u8]), ReadFault<W>>
    ensures { Gives (λ x. (x.0, x.1.now)) result (word w16 what limits.start limits.end bytes.now) }
{
    if bytes.len() < 2 {
        return Err(ReadFault::Broken(Broken::Ends));
    }
    let (front, rest) = bytes.split_at(2);
    let number = u16::from_be_bytes([front[0], front[1]]);
    if limits.start <= u32::from(number) && u32::from(number) < limits.end {
        Ok((number, rest))
    } else {
        Err(broken(bytes, what))
    }
}

/// A field of four bytes, the high one first.
pub fn u32_at<W: Copy>(
    bytes: &[u8],
    what: W,
    limits: Range<u64>,
) -> Result<(u32, &[u8]), ReadFault<W>>
    ensures { Gives (λ x. (x.0, x.1.now)) result (word w32 what limits.start limits.end bytes.now) }
{
    if bytes.len() < 4 {
        return Err(ReadFault::Broken(Broken::Ends));
    }
    let (front, rest) = bytes.split_at(4);
    let number = u32::from_be_bytes([front[0], front[1], front[2], front[3]]);
    if limits.start <= u64::from(number) && u64::from(number) < limits.end {
        Ok((number, rest))
    } else {
        Err(broken(bytes, what))
    }
}

/// A field of eight bytes, the high one first.
pub fn u64_at<W: Copy>(
    bytes: &[u8],
    what: W,
    limits: Range<u64>,
) -> Result<(u64, &[u8]), ReadFault<W>>
    ensures { Gives (λ x. (x.0, x.1.now)) result (word w64 what limits.start limits.end bytes.now) }
{
    if bytes.len() < 8 {
        return Err(ReadFault::Broken(Broken::Ends));
    }
    let (front, rest) = bytes.split_at(8);
    let number = u64::from_be_bytes([
        front[0], front[1], front[2], front[3], front[4], front[5], front[6], front[7],
    ]);
    if limits.start <= number && number < limits.end {
        Ok((number, rest))
    } else {
        Err(broken(bytes, what))
    }
}

/// The field that begins these bytes breaks this rule.
pub fn broken<W>(bytes: &[u8], what: W) -> ReadFault<W>
    ensures { result ≡ broken_fault what bytes.now }
{
    ReadFault::Broken(Broken::Field {
        left: bytes.len(),
        what,
    })
}
