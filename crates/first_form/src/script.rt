//! Whether the operations of an actor are of the first form.

ghost use Rattle.std.specs.Prelude.{◌≡◌, ◌↔◌, ◌∷◌, [], ◌<◌, ◌≤◌, ◌^◌, length, true, IsTrue};
ghost use Rattle.domains.specs.Drive.{IsDrive};
ghost use Rattle.domains.specs.Shape.{is_of};
ghost use Rattle.scenario.specs.declared.op.Op.{Op};
ghost use Rattle.first_form.specs.FirstForm.{IsLaterOp, AreLaterOps, write_count, read_bytes, IsFirstScript};

use domains::{DriveId, Shape};
use scenario::Op;

/// Whether the operations are of the first form, in a cluster of this shape.
pub(crate) fn is_first_script(shape: Shape, script: &[Op]) -> bool
    ensures { IsTrue result ↔ IsFirstScript shape script.now }
{
    match script.split_first() {
        Some((first, later)) => {
            creates_first(first)
                && script.len() <= 4096
                && are_later(shape, later)
                && write_count(later) <= 1
                && read_bytes(later) <= 16_777_216
        }
        None => false,
    }
}

fn creates_first(op: &Op) -> bool
    ensures { IsTrue result ↔ (op.now ≡ Op.Create 0) }
{
    match op {
        Op::Create { file } => *file == 0,
        _ => false,
    }
}

fn are_later(shape: Shape, ops: &[Op]) -> bool
    ensures { IsTrue result ↔ AreLaterOps shape ops.now }
{
    for op in ops {
        if !is_later(shape, op) {
            return false;
        }
    }
    true
}

fn is_later(shape: Shape, op: &Op) -> bool
    ensures { IsTrue result ↔ IsLaterOp shape op.now }
{
    match op {
        Op::Create { file: _ } => false,
        Op::WriteText { file, offset, text } => {
            *file == 0 && *offset == 0 && text.as_str().len() <= shape.unit() as usize
        }
        Op::Read { file, offset, len } => *file == 0 && *offset <= 536_870_912 && *len <= 1_048_576,
        Op::Fail { drive } => is_drive_of(shape, *drive),
    }
}

fn is_drive_of(shape: Shape, drive: DriveId) -> bool
    ensures { IsTrue result ↔ (IsDrive drive × (is_of shape drive ≡ true)) }
{
    shape.has(drive)
}

/// How many of the operations are writes.
fn write_count(ops: &[Op]) -> usize
    ensures { result ≡ write_count ops.now }
{
    let mut count = 0;
    for op in ops {
        if matches!(op, Op::WriteText { .. }) {
            count += 1;
        }
    }
    count
}

/// The lengths of all reads together.
fn read_bytes(ops: &[Op]) -> u64
    requires { length ops.now ≤ 4096 }
    ensures { result ≡ read_bytes ops.now }
{
    let mut total = 0;
    for op in ops {
        total += read_len(op);
    }
    total
}

fn read_len(op: &Op) -> u64
    ensures value { result ≡ read_bytes (op.now ∷ []) }
    ensures small { result < 2 ^ 32 }
{
    match op {
        Op::Read { len, .. } => u64::from(*len),
        _ => 0,
    }
}
