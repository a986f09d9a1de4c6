//! Jobs that are started twice or nowhere, and more starts than a scenario may have.

ghost use Rattle.std.specs.Prelude.{◌≡◌, ◌≤◌, ◌++◌, ℕ, List, [], IfOk, OnOk, length};
ghost use Rattle.std.specs.BTreeSet.{contains_text};
ghost use Rattle.operation_rules.specs.FirstPlaces.{first_misnamed, first_start_past};
ghost use Rattle.operation_rules.specs.OpRules.{has_name, is_misnamed, started_in, starts};

use crate::name_set::NameSet;
use crate::place::{Place, PlacedOp};
use operation_text::NamedOp;
use std::alloc::{AllocError, Global};

/// The first start of a job that was started before it, or the first use of a job that no start names, whichever
/// comes first (docs/FORMATS.md, "Rules of a scenario").
pub fn first_misnamed_job(alloc: Global, ops: &[PlacedOp]) -> Result<Option<Place>, AllocError>
    ensures { IfOk result (λ place. place ≡ first_misnamed ops.now (started_in ops.now) []) }
{
    let all = started(alloc, ops)?;
    let mut seen = NameSet::new(alloc);
    for op in ops {
        if is_misnamed(alloc, &all, &mut seen, &op.what)? {
            return Ok(Some(op.place));
        }
    }
    Ok(None)
}

/// The names of the jobs that are started.
fn started(alloc: Global, ops: &[PlacedOp]) -> Result<NameSet, AllocError>
    ensures { IfOk result (λ set. (q : List ℕ) → contains_text set.names q ≡ has_name (started_in ops.now) q) }
{
    let mut names = NameSet::new(alloc);
    for op in ops {
        if let NamedOp::Start { job, .. } = &op.what {
            names.insert(alloc, job.as_str())?;
        }
    }
    Ok(names)
}

/// Whether the operation starts a job that is seen already, or is on a job that is not among all. The job that it
/// starts is seen from now on.
fn is_misnamed(
    alloc: Global,
    all: &NameSet,
    seen: &mut NameSet,
    op: &NamedOp,
) -> Result<bool, AllocError>
    ensures test { IfOk result (λ wrong. (every before : List (List ℕ)) → ((q : List ℕ) → contains_text all.now.names q ≡ has_name every q) → ((q : List ℕ) → contains_text seen.old.names q ≡ has_name before q) → wrong ≡ is_misnamed op.now every before) }
    ensures seen { OnOk result ((before : List (List ℕ)) → ((q : List ℕ) → contains_text seen.old.names q ≡ has_name before q) → (q : List ℕ) → contains_text seen.new.names q ≡ has_name (starts op.now ++ before) q) }
{
    match op {
        NamedOp::Start { job, .. } => {
            let is_new = seen.insert(alloc, job.as_str())?;
            Ok(!is_new)
        }
        NamedOp::OnJob { job, .. } => Ok(!all.contains(job.as_str())),
        _ => Ok(false),
    }
}

/// The first start after 64 others (docs/FORMATS.md, "Rules of a scenario").
pub fn first_start_too_many(ops: &[PlacedOp]) -> Option<Place>
    ensures { result ≡ first_start_past ops.now 0 }
{
    let mut count = 0;
    for op in ops {
        count += start_count(&op.what);
        if count > 64 {
            return Some(op.place);
        }
    }
    None
}

fn start_count(op: &NamedOp) -> u32
    ensures value { result ≡ length (starts op.now) }
    ensures few { result ≤ 1 }
{
    match op {
        NamedOp::Start { .. } => 1,
        _ => 0,
    }
}
