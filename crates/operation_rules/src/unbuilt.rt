//! Operations that nothing plays yet.

ghost use Rattle.std.specs.Prelude.{◌≡◌};
ghost use Rattle.operation_rules.specs.FirstPlaces.{first_where};
ghost use Rattle.operation_rules.specs.OpRules.{is_unbuilt};

use crate::place::{Place, PlacedOp};
use operation_text::NamedOp;

/// The first operation that nothing plays yet: those of jobs (docs/FORMATS.md, "Rules of a scenario").
pub fn first_unbuilt(ops: &[PlacedOp]) -> Option<Place>
    ensures { result ≡ first_where is_unbuilt ops.now }
{
    for op in ops {
        if is_unbuilt(&op.what) {
            return Some(op.place);
        }
    }
    None
}

fn is_unbuilt(op: &NamedOp) -> bool
    ensures { result ≡ is_unbuilt op.now }
{
    match op {
        NamedOp::OnFile { .. } | NamedOp::OnDrive { .. } | NamedOp::FailNode { .. } => false,
        NamedOp::Start { .. }
        | NamedOp::OnJob { .. }
        | NamedOp::Work { .. }
        | NamedOp::Drain
        | NamedOp::RestartEngine => true,
    }
}
