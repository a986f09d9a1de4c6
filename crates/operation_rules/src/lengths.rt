//! How much all operations read and write.

ghost use Rattle.std.specs.Prelude.{◌≡◌, ◌<◌, ◌^◌};
ghost use Rattle.operation_rules.specs.FirstPlaces.{first_past};
ghost use Rattle.operation_rules.specs.OpRules.{bytes_read, bytes_written, is_past, payload_len};

use crate::place::{Place, PlacedOp};
use operation_text::{FileAction, NamedOp, Payload};

/// The first operation by which more is read or written than a scenario may (docs/FORMATS.md, "Rules of a scenario").
pub fn first_too_long(ops: &[PlacedOp]) -> Option<Place>
    ensures { result ≡ first_past ops.now 0 0 }
{
    let mut reads = 0;
    let mut writes = 0;
    for op in ops {
        reads += bytes_read(&op.what);
        writes += bytes_written(&op.what);
        if reads > 16_777_216 || writes > 268_435_456 {
            return Some(op.place);
        }
    }
    None
}

fn bytes_read(op: &NamedOp) -> u64
    ensures value { result ≡ bytes_read op.now }
    ensures small { result < 2 ^ 32 }
{
    match op {
        NamedOp::OnFile {
            action: FileAction::Read { len, .. },
            ..
        } => u64::from(*len),
        _ => 0,
    }
}

fn bytes_written(op: &NamedOp) -> u64
    ensures value { result ≡ bytes_written op.now }
    ensures small { result < 2 ^ 32 }
{
    match op {
        NamedOp::OnFile {
            action: FileAction::Write { payload, .. },
            ..
        } => payload_len(payload),
        _ => 0,
    }
}

fn payload_len(payload: &Payload) -> u64
    ensures value { result ≡ payload_len payload.now }
    ensures small { result < 2 ^ 32 }
{
    match payload {
        Payload::Text { text } => text.as_str().len() as u64,
        Payload::Fill { len, .. } => u64::from(*len),
    }
}
