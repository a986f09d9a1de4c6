//! A source read whole, and a text written whole.

ghost use Rattle.std.specs.Prelude.{◌≤◌, ◌<◌, ◌≡◌, IfOk, IfErr, OnOk, vec_len};
ghost use Rattle.std.specs.Io.KnownBytes.{Appends};
ghost use Rattle.flex_io.specs.Faults.{HasCause};
ghost use Rattle.flex_io.specs.Inputs.{IsInput, AddsPiece, ConsumesSome, AppendsFront};

use crate::{Failed, Fault, Sink, Source};
use lists::List;
use std::alloc::Global;

/// How many bytes one read asks for.
const PIECE: usize = 16 * 1024;

/// What a source gave.
#[derive(Drop)]
pub enum Input {
    /// All its bytes.
    Whole(List<u8>),
    /// More than the limit. It was not read to its end.
    TooLong,
}

/// Reads a source to its end, or until it gave more than `limit` bytes. At an `Err` what was read
/// is gone.
pub fn read_up_to<S: Source>(alloc: Global, source: &mut S, limit: u32) -> Result<Input, Fault>
    ensures ok { IfOk result (IsInput (S.remaining source.old) (S.remaining source.new) limit) }
    ensures consumed { ConsumesSome (S.remaining source.old) (S.remaining source.new) }
    ensures faults { HasCause result (S.faults source.old) (S.faults source.new) }
    ensures never_falls { S.faults source.old ≤ S.faults source.new }
{
    let mut buffer = reading_buffer(alloc)?;
    let mut bytes = Vec::new(alloc);
    for _turn in 0..u64::from(limit) + 1 {
        if read_piece(source, &mut buffer, &mut bytes)? == 0 {
            return Ok(Input::Whole(List::from_vec(bytes)));
        }
        if bytes.len() > limit as usize {
            return Ok(Input::TooLong);
        }
    }
    unreachable!()
}

/// Room for one read.
fn reading_buffer(alloc: Global) -> Result<Vec<u8>, Fault>
    ensures ok { IfOk result (λ buffer. 0 < vec_len buffer) }
    ensures no_memory { IfErr result (λ fault. fault ≡ Fault.NoMemory) }
{
    vec![in alloc; 0u8; PIECE].map_err(|_| Fault::NoMemory)
}

/// Adds what one read gives to the bytes, and answers how many it gave: 0 at the end.
fn read_piece<S: Source>(
    source: &mut S,
    buffer: &mut Vec<u8>,
    bytes: &mut Vec<u8>,
) -> Result<usize, Fault>
    requires { 0 < vec_len buffer.old }
    ensures ok { IfOk result (AddsPiece (S.remaining source.old) (S.remaining source.new)
        bytes.old.items bytes.new.items) }
    ensures consumed { ConsumesSome (S.remaining source.old) (S.remaining source.new) }
    ensures room { vec_len buffer.new ≡ vec_len buffer.old }
    ensures faults { HasCause result (S.faults source.old) (S.faults source.new) }
    ensures never_falls { S.faults source.old ≤ S.faults source.new }
{
    let count = match source.read(buffer) {
        Ok(count) => count,
        Err(Failed) => return Err(Fault::Failed),
    };
    match bytes.extend_from_slice(&buffer[..count]) {
        Ok(()) => Ok(count),
        Err(_) => Err(Fault::NoMemory),
    }
}

/// Writes all bytes. At an `Err` the sink has taken a front of them.
pub fn write_all<S: Sink>(sink: &mut S, bytes: &[u8]) -> Result<(), Fault>
    ensures ok { OnOk result (Appends (S.taken sink.old) (S.taken sink.new) bytes.now) }
    ensures written { AppendsFront (S.taken sink.old) (S.taken sink.new) bytes.now }
    ensures faults { HasCause result (S.faults sink.old) (S.faults sink.new) }
    ensures never_falls { S.faults sink.old ≤ S.faults sink.new }
{
    let mut at = 0;
    while at < bytes.len() {
        at += sink.write(&bytes[at..])?;
    }
    Ok(())
}
