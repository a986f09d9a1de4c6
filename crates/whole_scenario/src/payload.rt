//! The bytes that a write brings.

ghost use Rattle.std.specs.Prelude.{◌≡◌, IfOk, IfErr};
ghost use Rattle.whole_scenario.specs.Payloads.{bytes_of, fill_byte, pattern};

use operation_text::Payload;
use std::alloc::{AllocError, Global};

/// The bytes that the payload stands for (docs/FORMATS.md, "Scenario").
pub fn payload_bytes(alloc: Global, payload: &Payload) -> Result<Vec<u8>, AllocError>
    ensures { IfOk result (λ bytes. bytes.items ≡ bytes_of payload.now) }
{
    match payload {
        Payload::Text { text } => Vec::from_slice(alloc, text.as_str().as_bytes()),
        Payload::Fill { start, len } => pattern(alloc, *start, *len),
    }
}

/// The pattern of `len` bytes from this start.
fn pattern(alloc: Global, start: u8, len: u32) -> Result<Vec<u8>, AllocError>
    ensures { IfOk result (λ bytes. bytes.items ≡ pattern start len) }
{
    let mut bytes = Vec::with_capacity(alloc, len as usize)?;
    for place in 0..len {
        bytes.push(fill_byte(start, place))?;
    }
    Ok(bytes)
}

/// The byte of a pattern at this place.
fn fill_byte(start: u8, place: u32) -> u8
    ensures { result ≡ fill_byte start place }
{
    let sum = u64::from(start) + 7 * u64::from(place) + u64::from(place / 251);
    (sum % 256) as u8
}
