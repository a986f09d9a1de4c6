//! Orders about nodes and drives that a cluster does not have.

ghost use Rattle.std.specs.Prelude.{◌≡◌};
ghost use Rattle.operation_rules.specs.FirstPlaces.{first_where};
ghost use Rattle.operation_rules.specs.OpRules.{is_outside, is_number_up_to};

use crate::place::{Place, PlacedOp};
use domains::Shape;
use operation_text::{Digits, NamedOp};

/// The first operation on a node or a drive that is not in the cluster (docs/FORMATS.md, "Rules of a scenario").
pub fn first_outside(shape: Shape, ops: &[PlacedOp]) -> Option<Place>
    ensures { result ≡ first_where (is_outside shape) ops.now }
{
    for op in ops {
        if is_outside(shape, &op.what) {
            return Some(op.place);
        }
    }
    None
}

fn is_outside(shape: Shape, op: &NamedOp) -> bool
    ensures { result ≡ is_outside shape op.now }
{
    match op {
        NamedOp::OnDrive { node, drive, .. } => {
            !(is_up_to(node, shape.nodes()) && is_up_to(drive, shape.drives()))
        }
        NamedOp::FailNode { node } => !is_up_to(node, shape.nodes()),
        _ => false,
    }
}

/// Whether the number is 1 to `most`.
fn is_up_to(number: &Digits, most: u8) -> bool
    ensures { result ≡ is_number_up_to most number.now }
{
    match number.as_str().parse::<u64>() {
        Ok(value) => 1 <= value && value <= u64::from(most),
        Err(_) => false,
    }
}
