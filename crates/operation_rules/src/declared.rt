//! Operations on files that a scenario does not declare.

ghost use Rattle.std.specs.Prelude.{◌≡◌, not, ℕ, List, IfOk, map};
ghost use Rattle.std.specs.BTreeSet.{contains_text};
ghost use Rattle.operation_rules.specs.FirstPlaces.{first_where};
ghost use Rattle.operation_rules.specs.OpRules.{is_undeclared, has_name, file_names};

use crate::name_set::NameSet;
use crate::place::{Place, PlacedOp};
use operation_text::NamedOp;
use scenario::FileDecl;
use std::alloc::{AllocError, Global};

/// The first operation on a file that is not among these (docs/FORMATS.md, "Rules of a scenario").
pub fn first_undeclared(
    alloc: Global,
    files: &[FileDecl],
    ops: &[PlacedOp],
) -> Result<Option<Place>, AllocError>
    ensures { IfOk result (λ place. place ≡ first_where (is_undeclared (file_names files.now)) ops.now) }
{
    let names = names_of(alloc, files)?;
    for op in ops {
        if is_undeclared(&names, &op.what) {
            return Ok(Some(op.place));
        }
    }
    Ok(None)
}

/// The names of the files.
fn names_of(alloc: Global, files: &[FileDecl]) -> Result<NameSet, AllocError>
    ensures { IfOk result (λ set. (q : List ℕ) → contains_text set.names q ≡ has_name (file_names files.now) q) }
{
    let mut names = NameSet::new(alloc);
    for file in files {
        names.insert(alloc, file.name.as_str())?;
    }
    Ok(names)
}

fn is_undeclared(names: &NameSet, op: &NamedOp) -> bool
    ensures { (declared : List (List ℕ)) → ((q : List ℕ) → contains_text names.now.names q ≡ has_name declared q) → result ≡ is_undeclared declared op.now }
{
    match op {
        NamedOp::OnFile { file, .. } => !names.contains(file.as_str()),
        _ => false,
    }
}
